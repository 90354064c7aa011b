//! The fault types of graphs, of effects, and of reading and writing edge listings.
//!
//! A path need not be UTF-8, so a fault does not print its file. `path` returns the file.
ghost use Rattle.std.specs.Prelude.{◌≡◌, Some, option_copied};
ghost use Rattle.build_effect.specs.Prelude.{graph_fault_text, graph_fault_path, effect_fault_text};
ghost use Rattle.build_effect.specs.Prelude.{effect_fault_path, line_cause_text};
ghost use Rattle.build_effect.specs.Prelude.{listing_line_fault_text, listing_fault_text};
ghost use Rattle.build_effect.specs.Prelude.{listing_write_fault_text};

use ninja_text::{LexFault, Path, PathFault};
use std::fmt;
use thiserror::Error;

/// Why a list of edges is not a graph.
#[derive(Debug, Drop, Error)]
pub enum GraphFault {
    /// E1: a file is made twice.
    ProducedTwice { path: Path },
    /// E2: an edge names a dyndep file that is not among its inputs. `edge` is the index of the
    /// edge, and `output` its first output.
    DyndepNotInput { edge: usize, output: Path },
}

impl GraphFault {
    /// Returns the file that is made twice, or the first output of the edge.
    pub fn path(&self) -> &Path
        ensures { result.now ≡ graph_fault_path self.now }
    {
        match self {
            GraphFault::ProducedTwice { path } => path,
            GraphFault::DyndepNotInput { output, .. } => output,
        }
    }
}

impl fmt::Display for GraphFault {
    ghost output = { λ fault. Some (graph_fault_text fault) };

    fn fmt<W: fmt::Write>(&self, f: &mut fmt::Formatter<W>) -> fmt::Result {
        f.write_str(match self {
            GraphFault::ProducedTwice { .. } => "E1 ProducedTwice",
            GraphFault::DyndepNotInput { .. } => "E2 DyndepNotInput",
        })
    }
}

/// Why a dyndep file has no effect on a graph. The checks are made in the order E8, E5, E4, E6, E7.
#[derive(Debug, Drop, Error)]
pub enum EffectFault {
    /// E8: a string of a statement is not a valid path. `statement` is the index of the statement.
    /// `path` is the index of the string in it: output, implicit outputs, implicit inputs.
    BadPath {
        statement: usize,
        path: usize,
        fault: PathFault,
    },
    /// E5: no edge makes the statement's output, or that edge does not name the dyndep file.
    NotBound {
        output: Path,
    },
    /// E4: an earlier statement is on the same edge. `output` is that of the later statement.
    StatementTwice {
        output: Path,
    },
    /// E6: an edge names the dyndep file, but has no statement. `output` is its first output.
    NotMentioned {
        output: Path,
    },
    /// E7: an edge already makes an added output, or it was added before.
    AddedTwice {
        path: Path,
    },
}

impl EffectFault {
    /// Returns the file that the fault is about. E8 has none.
    pub fn path(&self) -> Option<&Path>
        ensures { option_copied result ≡ effect_fault_path self.now }
    {
        match self {
            EffectFault::BadPath { .. } => None,
            EffectFault::NotBound { output }
            | EffectFault::StatementTwice { output }
            | EffectFault::NotMentioned { output } => Some(output),
            EffectFault::AddedTwice { path } => Some(path),
        }
    }
}

impl fmt::Display for EffectFault {
    ghost output = { λ fault. Some (effect_fault_text fault) };

    fn fmt<W: fmt::Write>(&self, f: &mut fmt::Formatter<W>) -> fmt::Result {
        let name = match self {
            EffectFault::BadPath {
                statement,
                path,
                fault,
            } => return write!(f, "E8 BadPath statement {statement} path {path} {fault}"),
            EffectFault::NotBound { .. } => "E5 NotBound",
            EffectFault::StatementTwice { .. } => "E4 StatementTwice",
            EffectFault::NotMentioned { .. } => "E6 NotMentioned",
            EffectFault::AddedTwice { .. } => "E7 AddedTwice",
        };
        f.write_str(name)
    }
}

/// What is wrong with a line of an edge listing (Ninja 1.11 manual, "Build statements", "Lexical
/// syntax").
#[derive(Clone, Copy, Debug, PartialEq, Eq, Error)]
pub enum LineCause {
    /// N5: the first 1,048,576 bytes of the line hold no end.
    LineTooLong,
    /// N6: the listing ends within a line.
    Truncated,
    /// N7 to N10: a byte or a `$` that the lexical syntax does not allow.
    Lexical(LexFault),
    /// The line is not a build line, a binding of the edge above it, a comment or a blank line.
    Form,
    /// A path in the line is not valid. This is the error of the first one.
    BadPath(PathFault),
}

impl fmt::Display for LineCause {
    ghost output = { λ cause. Some (line_cause_text cause) };

    fn fmt<W: fmt::Write>(&self, f: &mut fmt::Formatter<W>) -> fmt::Result {
        match self {
            LineCause::LineTooLong => f.write_str("N5 LineTooLong"),
            LineCause::Truncated => f.write_str("N6 Truncated"),
            LineCause::Lexical(fault) => fmt::Display::fmt(fault, f),
            LineCause::Form => f.write_str("E3 Form"),
            LineCause::BadPath(fault) => write!(f, "E3 Path {fault}"),
        }
    }
}

/// E3: the first faulty line of an edge listing, or its end, and the cause. Lines are counted from
/// 1, and a line with continuations has the number of its first one.
#[derive(Clone, Copy, Debug, PartialEq, Eq, Error)]
pub struct LineFault {
    pub line: u64,
    pub cause: LineCause,
}

impl fmt::Display for LineFault {
    ghost output = { λ fault. Some (listing_line_fault_text fault) };

    fn fmt<W: fmt::Write>(&self, f: &mut fmt::Formatter<W>) -> fmt::Result {
        write!(f, "line {}: {}", self.line, self.cause)
    }
}

/// Why an edge listing gave no graph.
#[derive(Debug, Drop, Error)]
pub enum ListFault {
    /// E3: a line is faulty, or the listing ends within a line.
    AtLine(LineFault),
    /// E1, E2: the edges listed are not a graph.
    NoGraph(GraphFault),
}

impl fmt::Display for ListFault {
    ghost output = { λ fault. Some (listing_fault_text fault) };

    fn fmt<W: fmt::Write>(&self, f: &mut fmt::Formatter<W>) -> fmt::Result {
        match self {
            ListFault::AtLine(fault) => fmt::Display::fmt(fault, f),
            ListFault::NoGraph(fault) => fmt::Display::fmt(fault, f),
        }
    }
}

/// Why a graph was not written.
#[derive(Clone, Copy, Debug, PartialEq, Eq, Error)]
pub enum ListingWriteFault {
    /// E9: the build line of this edge has more than 1,048,576 bytes, its end included. The first
    /// such edge is reported.
    ListingTooLong { edge: usize },
    /// Y3: a call of the writer returned an error or took no byte. This many bytes of the text went
    /// out before.
    Io { written: u128 },
}

impl fmt::Display for ListingWriteFault {
    ghost output = { λ fault. Some (listing_write_fault_text fault) };

    fn fmt<W: fmt::Write>(&self, f: &mut fmt::Formatter<W>) -> fmt::Result {
        match self {
            ListingWriteFault::ListingTooLong { .. } => f.write_str("E9 ListingTooLong"),
            ListingWriteFault::Io { written } => write!(f, "Y3 Io written {written}"),
        }
    }
}
