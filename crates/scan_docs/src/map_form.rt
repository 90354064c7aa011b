//! The forms of module maps.

/// The compiler whose form a target's module maps have.
#[derive(Clone, Copy, Debug, PartialEq, Eq)]
pub enum MapForm {
    Gcc,
    Clang,
}
