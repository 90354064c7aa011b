//! Why a table cannot be built.
ghost use Rattle.std.specs.Prelude.{◌≡◌, Some};
ghost use Rattle.module_table.specs.Prelude.{fault_name, ForFault};

use document_values::{Info, Name, Rule, TargetName};
use ninja_text::{Failure, Path};
use std::alloc::Global;
use std::fmt;
use thiserror::Error;

/// The producer of a file: an object of the target or the target of an info file, by index.
#[derive(Clone, Copy, Debug, PartialEq, Eq)]
pub enum Maker {
    Object(usize),
    Info(usize),
}

/// The reason why a table cannot be built. If several apply, the one with the lowest code is
/// reported.
///
/// For M1 to M4 go through the objects' paths, then the modules that objects provide, then the
/// modules of info files. The first item that repeats an earlier one is reported, with the earliest
/// item that it repeats. For M5 to M7, M9 and M10 the first requirement is reported, by object or
/// by info file and module, or the first name.
#[derive(Debug, Drop, Error)]
pub enum TableFault {
    /// Two objects have the same path.
    ObjectTwice {
        path: Path,
        first: Maker,
        second: Maker,
    },
    /// Two info files have the same target name.
    InfoTwice {
        target: TargetName,
    },
    /// A name is provided twice.
    ProvidedTwice {
        name: Name,
        first: Maker,
        second: Maker,
    },
    /// Two provided modules have the same file, or a module's file is an object.
    BmiTwice {
        path: Path,
        first: Maker,
        second: Maker,
    },
    /// An object requires a name that neither an object nor an info file provides.
    ModuleUnknown {
        name: Name,
        object: usize,
    },
    /// A module of an info file requires a name that no info file provides.
    InfoUnknown {
        target: TargetName,
        module_name: Name,
        name: Name,
    },
    /// A module of an info file requires a name with another file than the info file that provides
    /// it.
    InfoDisagrees {
        target: TargetName,
        module_name: Name,
        name: Name,
    },
    /// Objects need each other's modules in a cycle: each needs the next, and the last needs the
    /// first. The list starts at the lowest index that is on any cycle. It is a shortest cycle
    /// through that object, and the lexicographically first list if several are as short.
    ImportCycle {
        objects: Vec<usize>,
    },
    /// An object, or a module of another info file, requires a module that is private to the target
    /// of an info file.
    ModulePrivate {
        name: Name,
        info: usize,
        user: Maker,
    },
    /// A name is declared private to the target, but no object provides it.
    PrivateUnknown {
        name: Name,
    },
}

/// The fault of a table that cannot be built, with the objects and info files that were passed in.
#[derive(Drop)]
pub struct RefusedTable {
    pub fault: TableFault,
    /// The target's objects, by index.
    pub objects: Vec<Rule>,
    /// The info files of the targets that it links, by index.
    pub infos: Vec<Info>,
}

impl TableFault {
    /// Returns the code and the name of the fault, for example `M3 ProvidedTwice`.
    pub fn name(&self) -> &'static str
        ensures { result.now ≡ fault_name self.now }
    {
        match self {
            TableFault::ObjectTwice { .. } => "M1 ObjectTwice",
            TableFault::InfoTwice { .. } => "M2 InfoTwice",
            TableFault::ProvidedTwice { .. } => "M3 ProvidedTwice",
            TableFault::BmiTwice { .. } => "M4 BmiTwice",
            TableFault::ModuleUnknown { .. } => "M5 ModuleUnknown",
            TableFault::InfoUnknown { .. } => "M6 InfoUnknown",
            TableFault::InfoDisagrees { .. } => "M7 InfoDisagrees",
            TableFault::ImportCycle { .. } => "M8 ImportCycle",
            TableFault::ModulePrivate { .. } => "M9 ModulePrivate",
            TableFault::PrivateUnknown { .. } => "M10 PrivateUnknown",
        }
    }
}

/// Returns the failure of a check that finds this fault. It is boxed to keep the result small.
pub(crate) fn failure_of(alloc: Global, fault: TableFault) -> Failure<Box<TableFault>>
    ensures { ForFault (λ boxed. boxed.value ≡ fault) result }
{
    match Box::new(alloc, fault) {
        Ok(boxed) => Failure::Fault(boxed),
        Err(failed) => Failure::from(failed),
    }
}

impl fmt::Display for TableFault {
    ghost output = { λ fault. Some (fault_name fault) };

    fn fmt<W: fmt::Write>(&self, f: &mut fmt::Formatter<W>) -> fmt::Result {
        f.write_str(self.name())
    }
}
