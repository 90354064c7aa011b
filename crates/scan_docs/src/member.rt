//! The members of the documents.

ghost use Rattle.std.specs.Prelude.{◌≡◌};
ghost use Rattle.scan_docs.specs.Prelude.{key, Some};

use std::fmt;

/// A member of a document's objects, or what is no member: the document, a rule, a list's entry.
#[derive(Clone, Copy, Debug, PartialEq, Eq)]
pub enum Member {
    Document,
    Rule,
    Entry,
    Version,
    Rules,
    PrimaryOutput,
    WorkDirectory,
    Provides,
    Requires,
    LogicalName,
    CompiledModulePath,
    UniqueOnSourcePath,
    IsInterface,
    LookupMethod,
    Target,
    Modules,
    Bmi,
    Name,
    Visibility,
    ModuleDir,
    ModuleExt,
    BuildDir,
    Scans,
    Linked,
    Private,
    Dyndep,
    Info,
    Map,
    Edges,
    Restat,
    Targets,
}

impl Member {
    /// Returns the member's key in a document, or a name for a value that is no member.
    #[tactic(auto, unfolding(crate::specs::Member::key))]
    pub fn key(self) -> &'static str
        ensures { result.now ≡ key self }
    {
        match self {
            Member::Document => "document",
            Member::Rule => "rule",
            Member::Entry => "entry",
            Member::Version => "version",
            Member::Rules => "rules",
            Member::PrimaryOutput => "primary-output",
            Member::WorkDirectory => "work-directory",
            Member::Provides => "provides",
            Member::Requires => "requires",
            Member::LogicalName => "logical-name",
            Member::CompiledModulePath => "compiled-module-path",
            Member::UniqueOnSourcePath => "unique-on-source-path",
            Member::IsInterface => "is-interface",
            Member::LookupMethod => "lookup-method",
            Member::Target => "target",
            Member::Modules => "modules",
            Member::Bmi => "bmi",
            Member::Name => "name",
            Member::Visibility => "visibility",
            Member::ModuleDir => "module-dir",
            Member::ModuleExt => "module-ext",
            Member::BuildDir => "build-dir",
            Member::Scans => "scans",
            Member::Linked => "linked",
            Member::Private => "private",
            Member::Dyndep => "dyndep",
            Member::Info => "info",
            Member::Map => "map",
            Member::Edges => "edges",
            Member::Restat => "restat",
            Member::Targets => "targets",
        }
    }
}

impl fmt::Display for Member {
    ghost output = { λ member. Some (key member) };

    fn fmt<W: fmt::Write>(&self, f: &mut fmt::Formatter<W>) -> fmt::Result {
        f.write_str(self.key())
    }
}
