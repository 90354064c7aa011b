//! The program over a disk: its calls of a `Folder`, made of the calls of a `Disk` of
//! `system_files`.
//!
//! [`run`] says which calls the program makes on its disk. What it leaves of its files, if it is
//! killed at any moment, is in [`laws`].
#![tactic(auto)]

mod folder;
mod history;
pub mod laws;
mod program;

pub use folder::DiskFolder;
pub use program::run;
