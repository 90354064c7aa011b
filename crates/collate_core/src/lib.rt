//! From the documents of a target to the dyndep file of its objects, the info file for targets that
//! link it, and module maps; and what such a file does to a build.
//!
//! - [`collate`] takes the scan documents of a target and the info files of the targets that it
//!   links. It succeeds if and only if no error of [`Refusal`] is present (`specs/Collation.antt`,
//!   `Collates`), and otherwise returns the first in that order (`specs/Refusals.antt`,
//!   `IsRefusal`). By the law [`laws::a_target_has_one_outcome`] there are never both, nor two
//!   errors. [`collate_dyndep`] returns only the dyndep text (`specs/Headline.antt`,
//!   `IsDyndepOf`). An error has objects and info files by their indexes. [`collate_or_refused`]
//!   and its like also return what was read of the target (`specs/Refusals.antt`, `HasReadOf`).
//! - The result has the headline (`specs/Headline.antt`, `IsHeadline`): the dyndep text stands for
//!   one statement per object and for nothing else. On every build that names the file on exactly
//!   the objects it has exactly one effect, which adds to each object's edge exactly what the
//!   object provides and requires.
//! - [`rehearse`] reads any text in any pieces and applies it to a build, and [`check_edges`] puts
//!   the edges after the effect in order, or returns the least cycle (`specs/Rehearsal.antt`).
//! - [`project`] collates targets that link earlier ones (`specs/Projects.antt`). Their dyndep
//!   files may be applied in any order (`ProjectOrders.antt`), and the maps have what each object
//!   needs over the whole project (`ProjectNeeds.antt`).
//! - The laws [`laws::no_race`], [`laws::no_false_wait`], [`laws::no_false_rebuild`] and
//!   [`laws::no_false_cycle`] say what these files mean for a build (`specs/Builds.antt`,
//!   `specs/BuildLaws.antt`). In every order in which the edges can run, an edge of an object comes
//!   after the producers of the BMIs that the object requires. An edge needs what it needed before
//!   and what it imports, and nothing else, directly, in a chain or in a cycle.
//!
//! The definitions speak of one table, which is a function of the documents' bytes
//! (`specs/Documents.antt`, `table_of`). A target of a project is collated by the table of a part
//! of what it links, if that is enough (`src/projects.rt`). Definitions that only private clauses
//! use are in `specs/inner/`.
//!
//! A target has five types, by what is known of it: `TargetSpec` of `scan_docs` is what its target
//! document says, with the names of its files; a [`Target`] has the files' bytes; a
//! [`ProjectTarget`] links earlier targets of its project in place of info files; a [`Collated`] is
//! what either collates to, and [`CollatedParts`] are its texts, to be written. The styles of maps
//! are those of `module_maps`, which this crate offers by its own name also.
#![tactic(auto)]

mod collating;
mod fault;
pub mod laws;
mod projects;
mod reading;
mod rehearsal;
mod texts;

pub use collating::{
    Collated, CollatedParts, Target, collate, collate_dyndep, collate_dyndep_or_refused,
    collate_or_refused,
};
pub use fault::{Refusal, RefusedTarget, RehearseFault};
pub use module_maps::{Clang, Gcc, MapEntry, MapFault, MapStyle, ModuleMap, UnwritableMap};
pub use projects::{ProjectOut, ProjectTarget, project, project_or_refused};
pub use reading::{Listed, RULE_LIMIT};
pub use rehearsal::{check_edges, rehearse};
