//! The documents of a module collator: scan documents of P1689R5, the info and target documents of
//! targets, and the documents of projects.
//!
//! - [`scan`] reads the rules of a scan document, [`info_read`] what a target tells the targets
//!   that link it, [`spec_read`] what a target is made of, and [`project_read`] which target
//!   documents a project has. Each returns what the document means if all checks hold, and
//!   otherwise the fault of the first check that fails. The checks are lists,
//!   `specs/ScanChecks.antt` and so on; the meanings are in `specs/Scan.antt` and so on.
//!   `specs/Document.antt` puts them together, and `specs/Values.antt` gives the meaning as a
//!   function of the bytes. The types of rules, of what an info file has, and of names are those of
//!   the crate `document_values`.
//! - [`scan_with`] does what [`scan`] does for a [`ReducedSetting`], which is reduced once for all
//!   scan documents of a target. A rule's work directory is reduced once for all its paths.
//! - `shape` makes a tree of a document's bytes by `serde_json`, and returns members of the tree
//!   that have a type. The names of a scan document or an info document share one string
//!   (`SharedNames`), which is collected from the tree first. The tree is dropped at the end.
//! - [`info_write`] returns the one text of an info (`specs/InfoText.antt`), and
//!   [`lent_info_write`] does so for an info whose parts are borrowed. The text is read as the same
//!   info, which `proofs/InfoTexts.antt` proves over what `serde_json` says a text is read as.
//! - [`laws`] proves that all bytes have one result at most, that the value of an accepted document
//!   is the value of the function, and that the text of every sound info (`specs/Sound.antt`) is
//!   read as that info.
//!
//! `must-fail/` has a wrong body for each public function with these exceptions. Laws have no body.
//! [`LentInfo::to_info`] returns its view, which its clause names. [`Member::key`] and the texts of
//! [`DocFault`], [`Place`] and [`Member`] have an equation for each variant, which names the text.
//! `scan` calls `scan_with`, so one edit stands for both.
//! `first_module_written_for_each` shows the clauses of both functions that write an info file.
#![tactic(auto)]

mod fault;
mod info;
pub mod laws;
mod map_form;
mod member;
mod scan_document;
mod shape;
mod target_document;

pub use document_values::{Info, InfoModule, Name, Rule, TargetName};
pub use fault::{DocFault, Place};
pub use info::{LentInfo, LentModule, info_read, info_write, lent_info_write};
pub use map_form::MapForm;
pub use member::Member;
pub use scan_document::{COUNT_LIMIT, ReducedSetting, scan, scan_with};
pub use shape::DOCUMENT_LIMIT;
pub use target_document::{ProjectSpec, Setting, TargetSpec, project_read, spec_read};
