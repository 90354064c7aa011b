//! The text of Ninja files: paths and how they are escaped, lines and their tokens, and readers and
//! writers whose failed calls are counted. The rules are those of the Ninja 1.11 manual, "Lexical
//! syntax". The README says what is proved of each call, and by which definitions.
//!
//! - [`Path`] is a canonical path, which [`Path::of`], [`place`], [`WorkDirectory`] and
//!   [`NameEnding`] make of strings, or return the first error. [`SharedText`] is a part of a
//!   string that several values share. [`escape_into`] writes a path as Ninja reads it.
//! - [`LineCutter`] divides bytes that arrive in pieces into logical lines, and [`LineReader`]
//!   reads them into a [`LineState`], up to the first line that is rejected.
//! - [`line_form`] returns what a line is by how it begins, [`words`] its tokens, and
//!   [`assignment`] its name and value, or the first lexical error. The readers of build lines
//!   take tokens by [`Words::next_word`] and [`Words::take_sign`].
//! - [`Counted`] counts the failed calls of a reader or a writer, and [`Failure`] is the error type
//!   of calls that allocate memory.
//!
//! `specs/LineFormats.antt` defines, for all formats whose lines fall into classes, which value a
//! text stands for and which error it has, and `specs/FormatReading.antt` what a reader has read.
//! `specs/FaultTexts.antt` defines how faults are printed, and `specs/Firsts.antt` has words for
//! the first of several errors, for the crates above. Definitions that only private contracts use
//! are in `specs/inner/`. Lemmas for other crates are in `proofs/ForCallers.antt`.
//!
//! `must-fail/` has a wrong body of each public function, except for those that the README lists.
//! `continuation_leaves_a_space` stands for the functions `value_into` and `value`, and
//! `failed_calls_are_not_counted` for [`Counted::read`] and [`Counted::write`].
#![tactic(auto)]

mod counting;
mod cutter;
mod failure;
mod fault;
mod forms;
pub mod laws;
mod lexing;
mod line_reader;
mod paths;
mod reduction;
mod shared_text;
mod token;
mod work_directory;

pub use counting::{Counted, ReadCall, Stopped, WriteCall};
pub use cutter::{LINE_LIMIT, Line, LineCutter};
pub use failure::Failure;
pub use fault::{CutFault, LexFault, PathFault};
pub use forms::{LineForm, assignment, line_form, words};
pub use lexing::TokenKind;
pub use line_reader::{LineReader, LineState};
pub use paths::{Path, escape_into, is_writable, place};
pub use reduction::PATH_LIMIT;
pub use shared_text::SharedText;
pub use token::{Assignment, Token, Words};
pub use work_directory::{NameEnding, WorkDirectory};
