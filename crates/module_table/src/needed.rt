//! The modules that objects require, directly and through others, with their files.
ghost use Rattle.std.specs.Prelude.{◌<◌, ◌≡◌, All, IfOk, length, map, slice_get, Some};
ghost use Rattle.module_table.specs.Prelude.{AreNeeds, ArePairs, AreRequired, AreRequiredIndexes};
ghost use Rattle.module_table.specs.Prelude.{IsModuleGraph, IsNamedAt, IsNeeded, IsSound, lent};
ghost use Rattle.module_table.specs.Prelude.{Name, origins_of, pairs_of, PathText, rows};
ghost use Rattle.module_table.specs.Prelude.{table_with, TableValue};

use crate::fault::Maker;
use crate::modules::{Modules, module_at};
use dep_order::{Digraph, Reaching};
use document_values::{Info, Name, Rule};
use ninja_text::Path;
use std::alloc::{AllocError, Global};
use std::marker::Model;

/// Finds the modules that the objects of a table need, for one object after another. It keeps its
/// workspace between objects, so the work for an object grows with what the object needs, and not
/// with the table. A contract sees it as the table.
pub struct Needs<'t> {
    objects: &'t [Rule],
    infos: &'t [Info],
    reaching: Reaching<'t>,
    /// The modules in byte order of names.
    modules: Vec<Numbered<'t>>,
    /// The index of each module among them, by its own index.
    ranks: Vec<usize>,
}

// Not derived: this saves the prover time (docs/DECISIONS.md, "Code").
impl Drop for Needs<'_> {
    fn drop(self) {
        let Needs {
            objects: _,
            infos: _,
            reaching: _,
            modules: _,
            ranks: _,
        } = self;
    }
}

/// A module and its index among all. Modules are ordered by name first.
#[derive(Clone, Copy, PartialEq, Eq, PartialOrd, Ord)]
struct Numbered<'t> {
    name: &'t Name,
    file: &'t Path,
    index: usize,
}

impl<'t> Model for Needs<'t> {
    ghost Value = { TableValue };

    ghost view = { λ needs. table_with needs.objects.now needs.infos.now };

    ghost invariant = { λ needs. AreNeeds (table_with needs.objects.now needs.infos.now)
        needs.reaching needs.ranks.items needs.modules.items };
}

impl<'t> Needs<'t> {
    /// Returns the needs of the table of these objects and info files.
    pub(crate) fn new(
        alloc: Global,
        graph: &'t Digraph,
        objects: &'t [Rule],
        infos: &'t [Info],
        origins: &[(Maker, usize)],
    ) -> Result<Needs<'t>, AllocError>
        requires sound { IsSound (table_with objects.now infos.now) }
        requires graph { IsModuleGraph (table_with objects.now infos.now) graph.now }
        requires origins { origins.now ≡ origins_of (table_with objects.now infos.now) }
        ensures { IfOk result (λ needs. needs ≡ table_with objects.now infos.now) }
    {
        let mut modules = Vec::with_capacity(alloc, origins.len())?;
        for (index, origin) in origins.iter().enumerate() {
            let (name, file) = named_at(objects, infos, *origin);
            modules.push(Numbered { name, file, index })?;
        }
        modules.sort_unstable();
        let mut ranks = vec![in alloc; 0; modules.len()]?;
        for (rank, numbered) in modules.iter().enumerate() {
            ranks[numbered.index] = rank;
        }
        Ok(Needs {
            objects,
            infos,
            reaching: Reaching::new(alloc, graph)?,
            modules,
            ranks,
        })
    }

    /// Returns all modules that the object requires, directly or through others, in byte order of
    /// names. After an error, which only a failed allocation causes, `of` may be called again.
    pub fn of(
        &mut self,
        alloc: Global,
        object: usize,
    ) -> Result<Vec<(&'t Name, &'t Path)>, AllocError>
        requires { object < length self.old.objects }
        ensures same { self.new ≡ self.old }
        ensures pairs { IfOk result
            (λ pairs. ArePairs (IsNeeded self.old object) (map lent pairs.items)) }
    {
        let nodes = self.reaching.from(alloc, self.ranks.len() + object)?;
        let mut ranks = Vec::with_capacity(alloc, nodes.len())?;
        for node in &nodes {
            // nodes after all modules are objects
            if let Some(rank) = self.ranks.get(*node) {
                ranks.push(*rank)?;
            }
        }
        ranks.sort_unstable();
        pairs_at(alloc, self.modules.as_slice(), ranks.as_slice())
    }
}

/// Returns the names and files of the modules at these indexes.
fn pairs_at<'t>(
    alloc: Global,
    modules: &[Numbered<'t>],
    indexes: &[usize],
) -> Result<Vec<(&'t Name, &'t Path)>, AllocError>
    requires { All (λ index. index < length modules.now) indexes.now }
    ensures { IfOk result (λ found. map (λ pair. Some pair) found.items
        ≡ map (slice_get (pairs_of modules.now)) indexes.now) }
{
    let mut found = Vec::with_capacity(alloc, indexes.len())?;
    for index in indexes {
        let module = modules[*index];
        found.push((module.name, module.file))?;
    }
    Ok(found)
}

/// Returns the name and the file of the module of this origin.
pub(crate) fn named_at<'t>(
    objects: &'t [Rule],
    infos: &'t [Info],
    origin: (Maker, usize),
) -> (&'t Name, &'t Path)
    requires { (name : Name) × (file : PathText)
        × IsNamedAt objects.now infos.now origin (name, file) }
    ensures { IsNamedAt objects.now infos.now origin (result.0.now, result.1.now) }
{
    match origin.0 {
        Maker::Object(object) => {
            let rule = &objects[object];
            let pair = &rule.provided[origin.1];
            (&pair.0, &pair.1)
        }
        Maker::Info(info) => {
            let info = &infos[info];
            let module = &info.modules[origin.1];
            (&module.name, &module.file)
        }
    }
}

/// Returns the modules that each object requires, each once, in order of first mention.
/// `required[i]` are the indexes of what object i requires.
pub(crate) fn all_pairs(
    alloc: Global,
    modules: &Modules,
    required: &[Vec<usize>],
) -> Result<Vec<Vec<(Name, Path)>>, AllocError>
    requires { AreRequiredIndexes modules.now (rows required.now) }
    ensures { IfOk result (λ all. AreRequired modules.now all.items) }
{
    let provided = modules.provided();
    // A module's mark is the number of the last object that mentioned it, counted from 1.
    let mut marks = vec![in alloc; 0; provided.len()]?;
    let mut all = Vec::with_capacity(alloc, required.len())?;
    for (object, row) in required.iter().enumerate() {
        let mut pairs = Vec::with_capacity(alloc, row.len())?;
        for index in row {
            if marks[*index] != object + 1 {
                marks[*index] = object + 1;
                let module = module_at(provided, *index);
                pairs.push(copy_pair(alloc, module.name, module.file)?)?;
            }
        }
        all.push(pairs)?;
    }
    Ok(all)
}

pub(crate) fn copy_pair(alloc: Global, name: &Name, file: &Path) -> Result<(Name, Path), AllocError>
    ensures name { IfOk result (λ pair. pair.0 ≡ name.now) }
    ensures file { IfOk result (λ pair. pair.1 ≡ file.now) }
{
    Ok((name.copy(alloc)?, file.copy(alloc)?))
}
