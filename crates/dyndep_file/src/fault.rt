//! Errors of dyndep files.
ghost use Rattle.std.specs.Prelude.{◌≡◌, Some};
ghost use Rattle.dyndep_file.specs.Prelude.{line_fault_text, read_fault_text, write_fault_text};
ghost use Rattle.dyndep_file.specs.Prelude.{AtLine};

use ninja_text::LexFault;
use std::fmt;
use thiserror::Error;

/// An error in a line of a dyndep file (Ninja 1.11 manual, "Dyndep file reference" and
/// "Lexical syntax").
#[derive(Clone, Copy, Debug, PartialEq, Eq, Error)]
pub enum LineFault {
    /// The first 1,048,576 bytes of the line contain no end.
    LineTooLong,
    /// The file ends in the middle of a line.
    Truncated,
    /// A lexical error, N7 to N10.
    Lexical(LexFault),
    /// No version line, or a line before it that is neither a comment nor blank.
    NoVersion,
    /// The version is neither `1` nor `1.0`.
    BadVersion,
    /// A second version line.
    SecondVersion,
    /// An indented line without a statement: no build line precedes it, or a blank line or a
    /// binding is in between.
    Indent,
    /// The line is not a version line, a build line, a binding, a comment or blank, or it is a
    /// build line that is incomplete or has a misplaced `|` or `:`.
    BadLine,
    /// No explicit output follows `build`.
    NoOutput,
    /// A second explicit output.
    SecondOutput,
    /// The rule is not `dyndep`, or it is missing.
    BadRule,
    /// An explicit input. Dyndep files cannot have any.
    ExplicitInput,
    /// `||` and order-only inputs. Dyndep files cannot have any.
    OrderOnly,
    /// `|@` and validations. Dyndep files cannot have any.
    Validation,
    /// An indented line of a statement that does not assign to `restat`.
    BadBinding,
}

impl LineFault {
    /// Returns the error of the line with this number.
    pub(crate) fn at(self, line: u64) -> ReadFault
        ensures { result ≡ AtLine line self }
    {
        ReadFault::AtLine { line, fault: self }
    }
}

impl fmt::Display for LineFault {
    ghost output = { λ fault. Some (line_fault_text fault) };

    fn fmt<W: fmt::Write>(&self, f: &mut fmt::Formatter<W>) -> fmt::Result {
        let name = match self {
            LineFault::Lexical(fault) => return fmt::Display::fmt(fault, f),
            LineFault::LineTooLong => "N5 LineTooLong",
            LineFault::Truncated => "N6 Truncated",
            LineFault::NoVersion => "Y4 NoVersion",
            LineFault::BadVersion => "Y5 BadVersion",
            LineFault::SecondVersion => "Y6 SecondVersion",
            LineFault::Indent => "Y7 Indent",
            LineFault::BadLine => "Y8 BadLine",
            LineFault::NoOutput => "Y9 NoOutput",
            LineFault::SecondOutput => "Y10 SecondOutput",
            LineFault::BadRule => "Y11 BadRule",
            LineFault::ExplicitInput => "Y12 ExplicitInput",
            LineFault::OrderOnly => "Y13 OrderOnly",
            LineFault::Validation => "Y14 Validation",
            LineFault::BadBinding => "Y15 BadBinding",
        };
        f.write_str(name)
    }
}

/// Why a dyndep file cannot be read.
#[derive(Clone, Copy, Debug, PartialEq, Eq, Error)]
pub enum ReadFault {
    /// The error of the first faulty line, or of the end of the file. Lines are counted from 1. A
    /// line with continuations has the number of its first physical line.
    AtLine { line: u64, fault: LineFault },
    /// A call of the reader failed, or 2^64 - 1 bytes were read without reaching the end.
    Io,
}

impl fmt::Display for ReadFault {
    ghost output = { λ fault. Some (read_fault_text fault) };

    fn fmt<W: fmt::Write>(&self, f: &mut fmt::Formatter<W>) -> fmt::Result {
        match self {
            ReadFault::AtLine { line, fault } => write!(f, "line {line}: {fault}"),
            ReadFault::Io => f.write_str("Y16 Io"),
        }
    }
}

/// Why a list of statements cannot be written. The first statement with an error is reported; in a
/// statement, paths precede the line.
#[derive(Clone, Copy, Debug, PartialEq, Eq, Error)]
pub enum WriteFault {
    /// A path is empty or contains `|`, NUL, CR or LF, which cannot be escaped. Paths are counted
    /// from 0: the output, the implicit outputs, the implicit inputs.
    Unwritable { statement: usize, path: usize },
    /// The build line has more than 1,048,576 bytes, including its end.
    StatementTooLong { statement: usize },
    /// A call of the writer failed or took no byte. The first `written` bytes of the text had been
    /// written before.
    Io { written: u128 },
}

impl fmt::Display for WriteFault {
    ghost output = { λ fault. Some (write_fault_text fault) };

    fn fmt<W: fmt::Write>(&self, f: &mut fmt::Formatter<W>) -> fmt::Result {
        match self {
            WriteFault::Unwritable { statement, path } => {
                write!(f, "Y1 Unwritable statement {statement} path {path}")
            }
            WriteFault::StatementTooLong { statement } => {
                write!(f, "Y2 StatementTooLong statement {statement}")
            }
            WriteFault::Io { written } => write!(f, "Y3 Io written {written}"),
        }
    }
}
