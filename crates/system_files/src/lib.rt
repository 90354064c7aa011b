//! The system's files, by name: how one is read, compared with bytes, and written.
//!
//! A file is read no further than it has to be: up to the bytes that were asked for, or up to the
//! first that differ.
//!
//! A file is replaced whole: its bytes go to a new file next to it, which is then renamed. Whoever
//! opens the name meanwhile, or after a run that was killed, finds the bytes from before or the new
//! ones. If no new file can take its place, as for a device, a pipe, or a file in a directory that
//! may not be written, it is written in place.
//!
//! All calls of the system go through a [`Disk`]. What a function does is said of every `Disk`, by
//! the calls that it makes; [`laws`] says what the files are at each moment of these calls.
#![tactic(auto)]

mod disk;
pub mod laws;
mod reading;
mod system;
mod writing;

pub use disk::{Disk, Kind, OpenFile, has_kind};
pub use reading::{has_bytes, read};
pub use system::SystemDisk;
pub use writing::write;
