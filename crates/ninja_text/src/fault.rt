//! Errors in a text. They are facts about its bytes and never mention memory.
ghost use Rattle.ninja_text.specs.Prelude.{Some, cut_fault_text, lex_fault_text, path_fault_text};

use std::fmt;
use thiserror::Error;

/// Why a string is not a valid path. If several apply, the first in this order is reported.
#[derive(Clone, Copy, Debug, PartialEq, Eq, Error)]
pub enum PathFault {
    /// The canonical path has no component.
    Empty,
    /// The path is absolute and its canonical form begins with `..`.
    AboveRoot,
    /// The string contains `|`, NUL, CR or LF, which cannot be escaped in a Ninja file. `place` is
    /// the offset of the first one in the string that was read.
    Unwritable { place: usize },
    /// The canonical path has more than 4,096 bytes.
    TooLong,
}

impl fmt::Display for PathFault {
    ghost output = { λ fault. Some (path_fault_text fault) };

    fn fmt<W: fmt::Write>(&self, f: &mut fmt::Formatter<W>) -> fmt::Result {
        f.write_str(match self {
            PathFault::Empty => "N1 Empty",
            PathFault::AboveRoot => "N2 AboveRoot",
            PathFault::Unwritable { place: _ } => "N3 Unwritable",
            PathFault::TooLong => "N4 TooLong",
        })
    }
}

/// Why a cutter returns no further line, with the number of the line.
#[derive(Clone, Copy, Debug, PartialEq, Eq, Error)]
pub enum CutFault {
    /// The first [`LINE_LIMIT`](crate::LINE_LIMIT) bytes of this line contain no end.
    LineTooLong { line: u64 },
    /// The input ends in the middle of this line.
    Truncated { line: u64 },
}

impl fmt::Display for CutFault {
    ghost output = { λ fault. Some (cut_fault_text fault) };

    fn fmt<W: fmt::Write>(&self, f: &mut fmt::Formatter<W>) -> fmt::Result {
        f.write_str(match self {
            CutFault::LineTooLong { line: _ } => "N5 LineTooLong",
            CutFault::Truncated { line: _ } => "N6 Truncated",
        })
    }
}

/// A lexical error, with its offset in the line's text (Ninja 1.11 manual, "Lexical syntax").
#[derive(Clone, Copy, Debug, PartialEq, Eq, Error)]
pub enum LexFault {
    /// A NUL.
    Nul { place: usize },
    /// A CR that is not part of the line's end.
    LoneCr { place: usize },
    /// `$` and a letter, a digit, `_`, `-` or `{`: a reference to a variable. Variables are not
    /// supported.
    Variable { place: usize },
    /// `$` and a byte that cannot be escaped.
    BadEscape { place: usize },
}

impl fmt::Display for LexFault {
    ghost output = { λ fault. Some (lex_fault_text fault) };

    fn fmt<W: fmt::Write>(&self, f: &mut fmt::Formatter<W>) -> fmt::Result {
        let (name, place) = match self {
            LexFault::Nul { place } => ("N7 Nul", place),
            LexFault::LoneCr { place } => ("N8 LoneCr", place),
            LexFault::Variable { place } => ("N9 Variable", place),
            LexFault::BadEscape { place } => ("N10 BadEscape", place),
        };
        write!(f, "{name} at {place}")
    }
}
