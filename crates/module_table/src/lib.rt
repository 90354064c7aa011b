//! The modules of one target and of the targets that it links, by name, and the few linked modules
//! that a target of a project needs.
//!
//! [`Table::build`] makes a table of a target's rules and of the info files of the targets that it
//! links. It succeeds if and only if none of the faults M1 to M10 is present (`specs/Faults.antt`,
//! `IsFault`). Otherwise it reports a fault that is present, with its data and the lowest code
//! (`IsReported`). `specs/Building.antt` says this for both calls that build tables, and
//! `specs/Sound.antt` what holds of a table without faults. By the law [`laws::sound_is_faultless`]
//! this holds exactly if no fault is present, and by the law [`laws::one_fault_is_reported`] no
//! other fault is reported (`specs/Outcomes.antt`).
//!
//! Names, paths and targets are looked up in hash tables. Their key is the digest of all of them
//! (`specs/Entries.antt`, `table_entries`), so nobody can choose names that all hash alike. One key
//! may serve several tables ([`add_objects`]).
//!
//! Definitions are relations over rules and info files (`specs/Modules.antt`): what an object needs
//! (`specs/Needed.antt`), and what a sound table means for the files that are added to a build
//! (`specs/Added.antt`). Definitions that only private clauses use are in `specs/inner/`.
//!
//! A [`Pool`] has the info files of a project's targets. [`Pool::part`] returns the part of the
//! linked modules that a target's table needs (`specs/Pool.antt`, `specs/Parts.antt`), so that the
//! work for a target does not grow with all that it links. The law [`laws::sound_part_is_enough`]
//! says what holds of a table that has only such a part (`specs/EnoughParts.antt`).
//!
//! # How it works
//!
//! - `modules.rt` lists the provided modules. The index of a module in the list is the index of its
//!   name in a table of names. What the modules of info files require is looked up once.
//! - `checks.rt` makes the checks in the order of the codes and reports the fault of the first that
//!   fails. `checks/required.rt` has M5 to M10. M8 calls `order` of `dep_order`.
//! - `table.rt`: names and paths have numbers, their indexes in two hash tables. Names are numbered
//!   by first mention, those of provided modules first. By these numbers the table has the producer
//!   of each module and all requirements, as a graph. In the graph an object needs the modules that
//!   it requires, a module of an object needs the object, and a module of an info file needs the
//!   modules that it requires.
//! - `needed.rt` lists the modules that each object requires, with their files. [`Needs`] calls
//!   `Reaching` of `dep_order` in the graph, and sorts what it finds by the ranks of the names,
//!   which are computed once.
//! - `pool.rt`: a pool lists the modules of its info files by name and by file (`pool/rows.rt`),
//!   hashed under one key, which covers them (`specs/Pool.antt`, `pool_entries`). For each info
//!   file the pool has the sets of the others that it requires modules of, and of the earlier ones
//!   that have one of its names or files (`pool/sets.rt`). These sets and that of the links of a
//!   target tell whether a part of the linked modules is enough (`pool/links.rt`). Then the pool
//!   picks the part and copies it.
//!
//! `must-fail/` has wrong bodies for each public function and for the key of a table, with these
//! exceptions. Laws have no body. [`TableFault::name`] is a list of texts. [`Table::build`],
//! [`Table::objects`], [`Table::required`], [`Table::resolved`], [`Table::into_resolved`],
//! [`Table::needs`] and [`Table::needed`] pass on what other functions return. The clauses of
//! [`Resolved::objects`], [`Resolved::into_parts`], [`Table::provided`], [`Resolved::required`],
//! [`Pool::key`] and [`Pool::known`] name the field or entry that they return. [`Pool::new`] and
//! [`Scratch::new`] return an empty value.
#![tactic(auto)]

mod checks;
mod fault;
pub mod laws;
mod modules;
mod needed;
mod pool;
mod table;

pub use fault::{Maker, RefusedTable, TableFault};
pub use needed::Needs;
pub use pool::{Pool, Requirements, Scratch};
pub use table::{Resolved, Table, add_objects};
