//! The commands of the program `dyncollate`, from its arguments to what it leaves: its text for
//! standard output and the files to be written, or the exit status and the message of a failure;
//! and how that is written and printed. No function makes a call of the system: `main` passes a
//! [`Folder`] and two writers.
//!
//! - [`program_run`] is the whole program: the task of its arguments, the run, the writing and the
//!   printing (`specs/Program.antt`).
//! - [`task_run`] reads the files of a task and calls the command (`specs/Runs.antt`). No file is
//!   read further than its result needs: a document up to its limit, and a file of lines up to its
//!   first fault ([`Folder`], [`PieceReader`]).
//! - [`collate`], [`project`], [`one`], [`effect`], [`order`] and [`show`] are the commands of
//!   these names. The first two read the files that their document names, each once and in order
//!   (`specs/Files.antt`, `Folder.antt`). [`write_files`] writes the files of an [`Output`].
//! - [`Answer`] is what a run leaves as a value, with the line of a failure, and [`print`] writes
//!   its texts and returns the exit status (`specs/Answers.antt`, `Printing.antt`).
//! - [`Stop`] is why a run stops: memory ran out, or a [`Line`]. Every part of a run returns a
//!   `Result` with a [`Stop`], so `?` passes it on (`specs/Outcomes.antt`). `stop` makes the line,
//!   and `refusal` its text.
//!
//! The definitions that only private clauses speak of are in `specs/inner/`.
//!
//! `must-fail/` has a wrong body of each public function, except that of [`Answer::of`], whose
//! clause names each part of the answer. For [`order`] it is `order_of_no_edges` of `in_memory`.
//! `missing_file_reported_as_memory`, `file_read_twice` and `error_of_another_document` break what
//! any command reads and reports.
#![tactic(auto)]

mod answer;
mod edges;
mod first_indexes;
mod folder;
mod lists;
mod location;
mod projects;
mod read_targets;
mod refusal;
mod run;
mod shared_lists;
mod stop;
mod target;

pub use answer::{Answer, print};
pub use edges::{effect, order, show};
pub use folder::{Folder, PieceReader};
pub use location::{Code, Document, Entry, Location};
pub use projects::project;
pub use run::{program_run, task_run, write_files};
pub use stop::{Line, Output, OutputFile, Stop};
pub use target::{collate, one};
