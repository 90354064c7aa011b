//! Why a document is rejected.

ghost use Rattle.std.specs.Prelude.{◌≡◌, Result, IfOk, IsUtf8};
ghost use Rattle.scan_docs.specs.Prelude.{Gives, PathText, PathFault, Tests, is_name, IsName, Some};
ghost use Rattle.scan_docs.specs.Prelude.{◌otherwise◌, AnswersPath, place_text, doc_fault_text};

use crate::member::Member;
use document_values::{Name, SharedNames};
use ninja_text::{Failure, Path, PathFault};
use std::alloc::Global;
use std::fmt;
use thiserror::Error;

/// The place of a fault in a document. Rules, modules and entries are given by their index.
#[derive(Clone, Copy, Debug, PartialEq, Eq)]
pub enum Place {
    /// The document itself.
    Document,
    /// A rule of a scan document.
    Rule { rule: usize },
    /// An entry of a rule's `provides`.
    Provides { rule: usize, entry: usize },
    /// An entry of a rule's `requires`.
    Requires { rule: usize, entry: usize },
    /// A module of an info document.
    Module { number: usize },
    /// An entry of a module's `requires`.
    ModuleRequires { number: usize, entry: usize },
}

impl fmt::Display for Place {
    ghost output = { λ place. Some (place_text place) };

    fn fmt<W: fmt::Write>(&self, f: &mut fmt::Formatter<W>) -> fmt::Result {
        match self {
            Place::Document => f.write_str("document"),
            Place::Rule { rule } => write!(f, "rule {rule}"),
            Place::Provides { rule, entry } => write!(f, "rule {rule} provides {entry}"),
            Place::Requires { rule, entry } => write!(f, "rule {rule} requires {entry}"),
            Place::Module { number } => write!(f, "module {number}"),
            Place::ModuleRequires { number, entry } => {
                write!(f, "module {number} requires {entry}")
            }
        }
    }
}

/// Why a document is rejected: the first check that fails. Each kind of document has a list of
/// checks. Their order is not the order of the codes.
#[derive(Clone, Copy, Debug, PartialEq, Eq, Error)]
pub enum DocFault {
    /// The bytes are not the UTF-8 text of a JSON value (RFC 8259) that `serde_json` reads. It
    /// rejects nesting deeper than 127 levels and numbers that no float can hold.
    NotJson,
    /// The member `version` is not a whole number that this kind of document may have.
    BadVersion,
    /// The value at the place, or a member of it, has the wrong type or is missing.
    BadShape { place: Place, member: Member },
    /// A rule has no `primary-output`.
    NoPrimaryOutput { place: Place },
    /// An entry is a header unit. Header units have no BMI by name.
    HeaderUnit { place: Place },
    /// A name is not valid.
    BadName { place: Place },
    /// A path is not valid.
    BadPath { place: Place, fault: PathFault },
    /// The document has too many bytes or rules, or a rule has too many entries in one list.
    TooLarge { place: Place },
}

impl fmt::Display for DocFault {
    ghost output = { λ fault. Some (doc_fault_text fault) };

    fn fmt<W: fmt::Write>(&self, f: &mut fmt::Formatter<W>) -> fmt::Result {
        let (name, place) = match self {
            DocFault::NotJson => return f.write_str("S1 NotJson document"),
            DocFault::BadVersion => return f.write_str("S2 BadVersion document"),
            DocFault::BadShape { place, member } => {
                return write!(f, "S3 BadShape {place} member {member}");
            }
            DocFault::NoPrimaryOutput { place } => ("S4 NoPrimaryOutput", place),
            DocFault::HeaderUnit { place } => ("S5 HeaderUnit", place),
            DocFault::BadName { place } => ("S6 BadName", place),
            DocFault::BadPath { place, fault } => return write!(f, "S7 BadPath {place} {fault}"),
            DocFault::TooLarge { place } => ("S8 TooLarge", place),
        };
        write!(f, "{name} {place}")
    }
}

/// What reading a part of a document returns.
pub(crate) type Read<T> = Result<T, Failure<DocFault>>;

/// Returns the fault of a value that has the wrong type or is missing.
pub(crate) fn bad_shape(place: Place, member: Member) -> Failure<DocFault>
    ensures { result ≡ Failure.Fault (DocFault.BadShape place member) }
{
    Failure::Fault(DocFault::BadShape { place, member })
}

/// Returns the path, or its fault at the place.
pub(crate) fn path_at(place: Place, read: Result<Path, Failure<PathFault>>) -> Read<Path>
    requires { IfOk read IsUtf8 }
    ensures { (outcome : Result PathText PathFault) → Gives (λ path. path) read outcome
        → AnswersPath place outcome result }
{
    read.map_err(|failure| failure.map(|fault| DocFault::BadPath { place, fault }))
}

/// Returns the name of a string of the document, or its fault at the place.
pub(crate) fn read_name(alloc: Global, names: &mut SharedNames, text: &str, at: Place) -> Read<Name>
    ensures { Tests (is_name text.now otherwise DocFault.BadName at)
        (λ name. (name ≡ text.now) × IsName name) result }
{
    let name = names.read(alloc, text)?;
    name.ok_or(Failure::Fault(DocFault::BadName { place: at }))
}
