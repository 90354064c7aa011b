//! Where an error is, and which error it is.

ghost use Rattle.std.specs.Prelude.{◌≡◌};
ghost use Rattle.commands.specs.Prelude.{at_place, coded, doc_location, edges_location};
ghost use Rattle.commands.specs.Prelude.{effect_location, line_cause_location, lex_location};
ghost use Rattle.commands.specs.Prelude.{line_location, nowhere, path_location, read_location};
ghost use Rattle.commands.specs.Prelude.{refusal_location, table_location, write_location};

use build_effect::{EffectFault, GraphFault, LineCause, ListFault};
use collate_core::Refusal;
use dyndep_file::{LineFault, ReadFault, WriteFault};
use module_maps::UnwritableMap;
use module_table::TableFault;
use ninja_text::{LexFault, PathFault};
use scan_docs::{DocFault, Place};

/// Where an error is, and which error it is: what there is of these.
#[derive(Clone, Copy)]
pub struct Location {
    /// The index of the target of a project.
    pub target: Option<usize>,
    pub document: Option<Document>,
    /// The line, from 1.
    pub line: Option<u64>,
    pub code: Option<Code>,
    /// The index of the rule of a scan document, the module of an info file, or the statement.
    pub item: Option<usize>,
    /// The entry of one of its lists.
    pub entry: Option<Entry>,
    /// The offset of the byte in the line.
    pub offset: Option<usize>,
}

/// What an error is in. A scan document and an info file have their index in the list of the target
/// document.
#[derive(Clone, Copy)]
pub enum Document {
    Target,
    Project,
    Scan(usize),
    Info(usize),
    Edges,
    /// The argument `name`.
    Name,
    Dyndep,
}

/// The code of an error, such as S6.
#[derive(Clone, Copy)]
pub struct Code {
    pub letter: u8,
    pub number: u8,
}

/// An entry of a list, by its index.
#[derive(Clone, Copy)]
pub enum Entry {
    Provides(usize),
    Requires(usize),
    /// A path of a statement.
    Path(usize),
}

impl Location {
    /// Returns that of an error of which nothing is known.
    pub(crate) fn nowhere() -> Location
        ensures { result ≡ nowhere }
    {
        Location {
            target: None,
            document: None,
            line: None,
            code: None,
            item: None,
            entry: None,
            offset: None,
        }
    }

    /// Returns that of an error with this code.
    pub(crate) fn coded(letter: u8, number: u8) -> Location
        ensures { result ≡ coded letter number }
    {
        let code = Some(Code { letter, number });
        Location {
            code,
            ..Location::nowhere()
        }
    }

    /// Returns this location at a place of a document.
    fn at(self, place: Place) -> Location
        ensures { result ≡ at_place place self }
    {
        let (item, entry) = match place {
            Place::Document => return self,
            Place::Rule { rule } => (rule, self.entry),
            Place::Provides { rule, entry } => (rule, Some(Entry::Provides(entry))),
            Place::Requires { rule, entry } => (rule, Some(Entry::Requires(entry))),
            Place::Module { number } => (number, self.entry),
            Place::ModuleRequires { number, entry } => (number, Some(Entry::Requires(entry))),
        };
        Location {
            item: Some(item),
            entry,
            ..self
        }
    }
}

/// A fault that has a location.
pub(crate) trait Located {
    ghost use Rattle.commands.specs.declared.location.Location.{Location};

    ghost location: { Self → Location };

    /// Returns where the fault is, and which it is.
    fn location(&self) -> Location
        ensures { result ≡ location self.now };
}

impl Located for DocFault {
    ghost location = { doc_location };

    fn location(&self) -> Location {
        let (number, place) = match self {
            DocFault::NotJson => (1, &Place::Document),
            DocFault::BadVersion => (2, &Place::Document),
            DocFault::BadShape { place, .. } => (3, place),
            DocFault::NoPrimaryOutput { place } => (4, place),
            DocFault::HeaderUnit { place } => (5, place),
            DocFault::BadName { place } => (6, place),
            DocFault::BadPath { place, .. } => (7, place),
            DocFault::TooLarge { place } => (8, place),
        };
        Location::coded(b'S', number).at(*place)
    }
}

impl Located for PathFault {
    ghost location = { path_location };

    fn location(&self) -> Location {
        let number = match self {
            PathFault::Empty => 1,
            PathFault::AboveRoot => 2,
            PathFault::Unwritable { .. } => 3,
            PathFault::TooLong => 4,
        };
        Location::coded(b'N', number)
    }
}

impl Located for LexFault {
    ghost location = { lex_location };

    fn location(&self) -> Location {
        let (number, place) = match self {
            LexFault::Nul { place } => (7, *place),
            LexFault::LoneCr { place } => (8, *place),
            LexFault::Variable { place } => (9, *place),
            LexFault::BadEscape { place } => (10, *place),
        };
        let offset = Some(place);
        Location {
            offset,
            ..Location::coded(b'N', number)
        }
    }
}

impl Located for LineFault {
    ghost location = { line_location };

    fn location(&self) -> Location {
        let (letter, number) = match self {
            LineFault::Lexical(fault) => return fault.location(),
            LineFault::LineTooLong => (b'N', 5),
            LineFault::Truncated => (b'N', 6),
            LineFault::NoVersion => (b'Y', 4),
            LineFault::BadVersion => (b'Y', 5),
            LineFault::SecondVersion => (b'Y', 6),
            LineFault::Indent => (b'Y', 7),
            LineFault::BadLine => (b'Y', 8),
            LineFault::NoOutput => (b'Y', 9),
            LineFault::SecondOutput => (b'Y', 10),
            LineFault::BadRule => (b'Y', 11),
            LineFault::ExplicitInput => (b'Y', 12),
            LineFault::OrderOnly => (b'Y', 13),
            LineFault::Validation => (b'Y', 14),
            LineFault::BadBinding => (b'Y', 15),
        };
        Location::coded(letter, number)
    }
}

impl Located for ReadFault {
    ghost location = { read_location };

    fn location(&self) -> Location {
        match self {
            ReadFault::AtLine { line, fault } => Location {
                document: Some(Document::Dyndep),
                line: Some(*line),
                ..fault.location()
            },
            ReadFault::Io => Location::coded(b'Y', 16),
        }
    }
}

impl Located for WriteFault {
    ghost location = { write_location };

    fn location(&self) -> Location {
        match self {
            WriteFault::Unwritable { statement, path } => Location {
                item: Some(*statement),
                entry: Some(Entry::Path(*path)),
                ..Location::coded(b'Y', 1)
            },
            WriteFault::StatementTooLong { statement } => Location {
                item: Some(*statement),
                ..Location::coded(b'Y', 2)
            },
            WriteFault::Io { .. } => Location::coded(b'Y', 3),
        }
    }
}

impl Located for TableFault {
    ghost location = { table_location };

    fn location(&self) -> Location {
        let number = match self {
            TableFault::ObjectTwice { .. } => 1,
            TableFault::InfoTwice { .. } => 2,
            TableFault::ProvidedTwice { .. } => 3,
            TableFault::BmiTwice { .. } => 4,
            TableFault::ModuleUnknown { .. } => 5,
            TableFault::InfoUnknown { .. } => 6,
            TableFault::InfoDisagrees { .. } => 7,
            TableFault::ImportCycle { .. } => 8,
            TableFault::ModulePrivate { .. } => 9,
            TableFault::PrivateUnknown { .. } => 10,
        };
        Location::coded(b'M', number)
    }
}

impl Located for Refusal {
    ghost location = { refusal_location };

    fn location(&self) -> Location {
        match self {
            Refusal::Scan { index, fault } => Location {
                document: Some(Document::Scan(*index)),
                ..fault.location()
            },
            Refusal::Info { index, fault } => Location {
                document: Some(Document::Info(*index)),
                ..fault.location()
            },
            Refusal::Table { fault } => fault.location(),
            Refusal::StatementTooLong { statement } => {
                let statement = *statement;
                WriteFault::StatementTooLong { statement }.location()
            }
            Refusal::Map { fault, .. } => match fault {
                UnwritableMap::MapPath { .. } => Location::coded(b'K', 1),
                UnwritableMap::TwoProvided => Location::coded(b'K', 2),
            },
            Refusal::LinkedLater => Location::coded(b'K', 3),
        }
    }
}

impl Located for LineCause {
    ghost location = { line_cause_location };

    fn location(&self) -> Location {
        match self {
            LineCause::LineTooLong => Location::coded(b'N', 5),
            LineCause::Truncated => Location::coded(b'N', 6),
            LineCause::Lexical(fault) => fault.location(),
            LineCause::Form | LineCause::BadPath(_) => Location::coded(b'E', 3),
        }
    }
}

impl Located for ListFault {
    ghost location = { edges_location };

    fn location(&self) -> Location {
        match self {
            ListFault::AtLine(fault) => Location {
                document: Some(Document::Edges),
                line: Some(fault.line),
                ..fault.cause.location()
            },
            ListFault::NoGraph(GraphFault::ProducedTwice { .. }) => Location::coded(b'E', 1),
            ListFault::NoGraph(GraphFault::DyndepNotInput { .. }) => Location::coded(b'E', 2),
        }
    }
}

impl Located for EffectFault {
    ghost location = { effect_location };

    fn location(&self) -> Location {
        let number = match self {
            EffectFault::BadPath {
                statement,
                path,
                ..
            } => {
                return Location {
                    item: Some(*statement),
                    entry: Some(Entry::Path(*path)),
                    ..Location::coded(b'E', 8)
                };
            }
            EffectFault::NotBound { .. } => 5,
            EffectFault::StatementTwice { .. } => 4,
            EffectFault::NotMentioned { .. } => 6,
            EffectFault::AddedTwice { .. } => 7,
        };
        Location::coded(b'E', number)
    }
}
