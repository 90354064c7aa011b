//! The values that scan documents and info files are read as. `scan_docs` reads them from JSON and
//! writes them, and `module_table` looks up their names.
//!
//! - [`Name`] and [`TargetName`] hold strings that are names (`specs/Name.antt`). The names of a
//!   document share one string ([`SharedNames`]).
//! - [`Rule`] is a rule of a scan document (`specs/Rule.antt`), and [`Info`] what a target tells
//!   the targets that link it (`specs/Info.antt`).
//!
//! `must-fail/` has a wrong body for each clause that is stated here, except for those of strings
//! and copies of names, which name the value. `name_limit_one_less` turns the test that
//! [`Name::of`] and [`SharedNames::read`] share. Names are compared as the texts that they hold
//! ([`ninja_text::SharedText`]). No clause says which names share the string of a [`SharedNames`],
//! because it decides only how much memory they take.
#![tactic(auto)]

mod name;
mod values;

pub use name::{NAME_LIMIT, Name, SharedNames, TargetName};
pub use values::{Info, InfoModule, Rule};
