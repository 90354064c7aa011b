//! Ninja's dyndep files (Ninja 1.11 manual, "Dynamic dependencies"): statements, reader and writer.
//!
//! - A [`Dyndep`] is a list of [`Statement`]s.
//! - [`Dyndep::of`] reads a whole text, [`DyndepReader`] one that arrives in pieces of any size,
//!   and [`read_all`] one from any reader. The result does not depend on the pieces: it is the list
//!   that the grammar (`specs/Grammar.antt`) gives the whole text, or the first faulty line and its
//!   error (`specs/Reading.antt`, `specs/Faults.antt`).
//! - [`Dyndep::to_text`] returns the text of the statements (`specs/Writing.antt`). [`DyndepText`]
//!   builds it from statements that borrow their paths (`specs/Texts.antt`), and [`write`] writes
//!   it. The first error (`specs/WriteFaults.antt`) is reported before the first byte is written.
//!   The text stands for the statements and for no other list.
//! - `specs/FaultTexts.antt` defines how the three kinds of faults are printed.
//! - [`laws`] proves that a text has either a list of statements or an error.
#![tactic(auto)]

mod fault;
pub mod laws;
mod progress;
mod reader;
mod text;

pub use fault::{LineFault, ReadFault, WriteFault};
pub use reader::{DyndepReader, read_all};
pub use text::{Dyndep, DyndepText, LentStatement, Statement, write};
