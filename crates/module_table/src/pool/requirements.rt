//! Whether a part keeps what its modules require.

/// Whether the modules of a part keep what they require.
#[derive(Clone, Copy, Debug, PartialEq, Eq)]
pub enum Requirements {
    /// Each module is a whole copy, and the part also has the modules that it requires.
    Kept,
    /// No module has what it requires.
    Omitted,
}
