//! The commands of `dyncollate` over files that are values: names and bytes that the caller has in
//! memory, and no directory.
//!
//! - [`one_run`], [`show_run`], [`effect_run`] and [`order_run`] return what the command does on
//!   the bytes of its files (`specs/Runs.antt`). [`collate_run`] and [`project_run`] also take the
//!   files that documents may name (`specs/Given.antt`).
//! - [`project_names`] returns the names of a project's target documents.
//! - [`one_into`] and the like write what a command returns into memory of the caller
//!   (`specs/Replies.antt`), also for files that lie in one text (`specs/Cuts.antt`).
//!   [`statements_into`] writes the statements of a dyndep file (`specs/Statements.antt`).
//! - `files` has the `Folder` of these files, and what proofs know of its calls.
#![tactic(auto)]

mod files;
mod reply;
mod runs;

pub use commands::Answer;
pub use files::File;
pub use reply::{Outcome, statements_into};
pub use runs::{
    collate_into, collate_run, effect_into, effect_run, one_into, one_run, order_into, order_run,
    project_into, project_names, project_run, show_into, show_run,
};
