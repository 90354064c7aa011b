//! Module maps: texts that tell a compiler, for one object, the files of the modules that the
//! object provides and needs.
//!
//! - [`ModuleMap`] borrows the modules that the object provides, in order of provision, and the
//!   modules that it needs, in byte order of names (`specs/Maps.antt`, `IsModuleMap`).
//! - [`Gcc`] and [`Clang`] are styles of maps. A caller can write another [`MapStyle`];
//!   [`map_lines`] has what the two share. The contract of a style says which text it writes for a
//!   map, and which entries it reads in a text (`specs/GccMaps.antt`, `specs/ClangMaps.antt`).
//! - Each style has three laws, which are part of the trait: a map that is not written fails with
//!   K1 or K2 ([`UnwritableMap`]), the text of a map is read as what the style keeps of the map,
//!   and what is kept are the map's paths in order, with names of their own pairs
//!   (`specs/Maps.antt`, `FaultsAreOfMaps`, `ReadsWritten`, `KeepsPairs`). [`Gcc`] and [`Clang`]
//!   also read no other texts than those that they write (`IsWrittenText`). The lemmas for the laws
//!   are in `specs/map_laws/`, because the proof of a trait's law is part of its `impl`, which can
//!   only use the crate's `specs/`.
//!
//! `must-fail/` has a wrong body of each public function with these exceptions.
//! [`ModuleMap::of_rising`], [`ModuleMap::provided`] and [`ModuleMap::needed`] fill or return
//! fields, and their clauses name the fields. In [`map_lines`], the clauses of `path_in`,
//! `pair_in`, `push_named` and `push_nameless` are equations for the result.
//! `gcc_map_without_the_needed`, `nothing_fits`, `clang_map_keeps_no_needed` and `nothing_read`
//! show the clauses of `write`, `fits`, `keeps` and `read`, which are the same for each style.
#![tactic(auto)]

mod fault;
pub mod map_lines;
mod module_map;
mod styles;

pub use fault::{MapFault, UnwritableMap};
pub use module_map::{MapEntry, MapStyle, ModuleMap};
pub use styles::{Clang, Gcc};
