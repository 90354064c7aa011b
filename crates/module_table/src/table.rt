//! The table of the modules of one target, and its look-ups.
ghost use Rattle.std.specs.Prelude.{◌++◌, ◌<◌, ◌≡◌, flat_map, IfErr, IfNone, IfOk, slice_get, Some};
ghost use Rattle.module_table.specs.Prelude.{ArePairs, AreRequired, AreStored, Builds, Covers};
ghost use Rattle.module_table.specs.Prelude.{ForFault, ForSome, HasAdded, IfSome};
ghost use Rattle.module_table.specs.Prelude.{IsKeyOf, IsNeeded, IsProvidedBy, IsSound, IsUnknown};
ghost use Rattle.module_table.specs.Prelude.{length, object_entries, required_of, RuleValue};
ghost use Rattle.module_table.specs.Prelude.{table_entries, table_with, TableEntries, TableValue};
ghost use Rattle.indexmap.specs.IndexSet.{hasher_of};

use crate::checks::check_all;
use crate::fault::{Maker, RefusedTable, TableFault};
use crate::modules::index_of;
use crate::needed::{Needs, copy_pair, named_at};
use dep_order::Digraph;
use document_values::{Info, Name, Rule};
use indexmap::IndexSet;
use ninja_text::{Failure, Path};
use std::alloc::{AllocError, Global};
use std::marker::Model;
use table_keys::{KeyDigest, TableKey};

/// The modules of one target and of the targets that it links. It has none of the faults M1 to M10.
pub struct Table {
    resolved: Resolved,
    /// The names that the table mentions, in order of first mention: first those of the provided
    /// modules. Each required name is one of them, so a name's index is that of its module.
    names: IndexSet<Name, TableKey>,
    /// The paths of the objects, each at the index of its object, and after them the files of all
    /// provided modules, by module.
    paths: IndexSet<Path, TableKey>,
    /// The producer of each module, and the index of the module in what the producer provides.
    origins: Vec<(Maker, usize)>,
    /// The modules and objects that each module and each object needs, by index.
    graph: Digraph,
}

// Not derived: this saves the prover time (docs/DECISIONS.md, "Code").
impl Drop for Table {
    fn drop(self) {
        let Table {
            resolved: _,
            names: _,
            paths: _,
            origins: _,
            graph: _,
        } = self;
    }
}

impl Model for Table {
    ghost Value = { TableValue };

    ghost view = { λ t. t.resolved };

    ghost invariant = { λ t. AreStored t.resolved t.names.keys t.origins.items t.graph
        t.paths.keys (hasher_of t.names) (hasher_of t.paths) };
}

impl Table {
    /// Returns the table of a target's objects and of the info files of the targets that it links.
    /// `kept` has the names of the modules that are private to the target. If the modules have a
    /// fault, returns the one with the lowest code.
    pub fn build(
        alloc: Global,
        objects: Vec<Rule>,
        infos: Vec<Info>,
        kept: &[Name],
    ) -> Result<Table, Failure<TableFault>>
        ensures { Builds (λ fault. fault) objects.items infos.items kept.now result }
    {
        Table::build_or_refused(alloc, objects, infos, kept, None).map_err(|failure| failure.map(
            |refused| refused.fault,
        ))
    }

    /// Does the same as `build`, and returns the objects and the info files with a fault, because
    /// the fault has only their indexes. The table hashes under the key, which is made of all its
    /// names and paths and possibly others. Without one it makes a key of its names and paths.
    pub fn build_or_refused(
        alloc: Global,
        objects: Vec<Rule>,
        infos: Vec<Info>,
        kept: &[Name],
        key: Option<TableKey>,
    ) -> Result<Table, Failure<RefusedTable>>
        requires { ForSome key
            (λ key. Covers key (table_entries (table_with objects.items infos.items))) }
        ensures builds { Builds (λ refused. refused.fault)
            objects.items infos.items kept.now result }
        ensures given { IfErr result (ForFault (λ refused.
            table_with refused.objects.items refused.infos.items
            ≡ table_with objects.items infos.items)) }
    {
        let key = match key {
            Some(key) => key,
            None => table_key(&objects, &infos),
        };
        let mut paths = IndexSet::with_hasher(alloc, key);
        let checked = check_all(alloc, &objects, &infos, kept, &mut paths, key);
        match checked {
            Ok(index) => Ok(Table {
                resolved: Resolved {
                    objects,
                    infos,
                    required: index.required,
                },
                names: index.names,
                paths,
                origins: index.origins,
                graph: index.graph,
            }),
            Err(Failure::Memory) => Err(Failure::Memory),
            Err(Failure::Fault(fault)) => Err(Failure::Fault(RefusedTable {
                fault: Box::into_inner(fault),
                objects,
                infos,
            })),
        }
    }

    /// Returns the objects with what each requires, and frees what only look-ups need.
    pub fn into_resolved(self) -> Resolved
        ensures { result ≡ self }
    {
        let Table {
            resolved,
            names: _,
            paths: _,
            origins: _,
            graph: _,
        } = self;
        resolved
    }

    /// Returns the objects, by index.
    pub fn objects(&self) -> &[Rule]
        ensures objects { result.now ≡ self.now.objects }
        ensures sound { IsSound self.now }
    {
        self.resolved.objects()
    }

    /// Returns a reference to the objects with what each requires.
    pub fn resolved(&self) -> &Resolved
        ensures { result.now ≡ self.now }
    {
        &self.resolved
    }

    /// Returns the modules that an object provides, by index.
    pub fn provided(&self, object: usize) -> &[(Name, Path)]
        requires { object < length self.now.objects }
        ensures { (rule : RuleValue) → slice_get self.now.objects object ≡ Some rule
            → result.now ≡ rule.provided }
    {
        let rule = &self.resolved.objects()[object];
        &rule.provided
    }

    /// Returns the modules that an object requires, each once, in order of first mention.
    pub fn required(&self, object: usize) -> &[(Name, Path)]
        requires { object < length self.now.objects }
        ensures { (rule : RuleValue) → slice_get self.now.objects object ≡ Some rule
            → result.now ≡ required_of self.now rule }
    {
        self.resolved.required(object)
    }

    /// Returns the file of the module of that name and its producer, if somebody provides it.
    pub fn lookup(&self, name: &Name) -> Option<(&Path, Maker)>
        ensures found { IfSome result
            (λ found. IsProvidedBy self.now found.1 name.now found.0.now) }
        ensures none { IfNone result (IsUnknown self.now name.now) }
    {
        let index = index_of(&self.names, name)?;
        let origin = self.origins[index];
        let (_, file) = named_at(self.resolved.objects(), self.resolved.infos(), origin);
        Some((file, origin.0))
    }

    /// Returns all modules that the object requires, directly or through others, in byte order of
    /// names. For many objects `needs` takes less time.
    pub fn needed(&self, alloc: Global, object: usize) -> Result<Vec<(Name, Path)>, AllocError>
        requires { object < length self.now.objects }
        ensures { IfOk result (λ pairs. ArePairs (IsNeeded self.now object) pairs.items) }
    {
        let mut needs = self.needs(alloc)?;
        let pairs = needs.of(alloc, object)?;
        let mut copies = Vec::with_capacity(alloc, pairs.len())?;
        for pair in &pairs {
            copies.push(copy_pair(alloc, pair.0, pair.1)?)?;
        }
        Ok(copies)
    }

    /// Returns a value that does the same for one object after another. It sorts the names once, so
    /// the time for an object grows only with what the object needs.
    pub fn needs(&self, alloc: Global) -> Result<Needs<'_>, AllocError>
        ensures { IfOk result (λ needs. needs ≡ self.now) }
    {
        let (objects, infos) = (self.resolved.objects(), self.resolved.infos());
        Needs::new(alloc, &self.graph, objects, infos, &self.origins)
    }
}

/// The objects of a [`Table`], and the modules that each requires. It has no look-ups.
#[derive(Drop)]
pub struct Resolved {
    objects: Vec<Rule>,
    infos: Vec<Info>,
    /// The modules that each object requires, with their files.
    required: Vec<Vec<(Name, Path)>>,
}

impl Model for Resolved {
    ghost Value = { TableValue };

    ghost view = { λ r. table_with r.objects.items r.infos.items };

    ghost invariant = { λ r. IsSound (table_with r.objects.items r.infos.items)
        × AreRequired (table_with r.objects.items r.infos.items) r.required.items };
}

impl Resolved {
    /// Returns the objects, by index.
    pub fn objects(&self) -> &[Rule]
        ensures objects { result.now ≡ self.now.objects }
        ensures sound { IsSound self.now }
    {
        self.objects.as_slice()
    }

    /// Consumes the value and returns the objects and the info files, both by index.
    pub fn into_parts(self) -> (Vec<Rule>, Vec<Info>)
        ensures objects { result.0.items ≡ self.objects }
        ensures infos { result.1.items ≡ self.infos }
    {
        let Resolved { objects, infos, .. } = self;
        (objects, infos)
    }

    pub(crate) fn infos(&self) -> &[Info]
        ensures { result.now ≡ self.now.infos }
    {
        self.infos.as_slice()
    }

    /// Returns the modules that an object requires, each once, in order of first mention.
    pub fn required(&self, object: usize) -> &[(Name, Path)]
        requires { object < length self.now.objects }
        ensures { (rule : RuleValue) → slice_get self.now.objects object ≡ Some rule
            → result.now ≡ required_of self.now rule }
    {
        &self.required[object]
    }
}

pub(crate) fn table_key(objects: &[Rule], infos: &[Info]) -> TableKey
    ensures { IsKeyOf result (table_entries (table_with objects.now infos.now)) }
{
    let mut digest = KeyDigest::new();
    add_objects(&mut digest, objects);
    for info in infos {
        digest.add(info.target.text().as_bytes());
        for module in &info.modules {
            digest.add(module.name.bytes());
            digest.add(module.file.bytes());
        }
    }
    digest.key()
}

/// Adds to a digest what a table of these objects holds of them: their paths, and the names and
/// files of the modules that they provide. A project makes the key of all its tables with this.
pub fn add_objects(digest: &mut KeyDigest, objects: &[Rule])
    ensures { (entries : TableEntries) → HasAdded digest.old entries
        → HasAdded digest.new (entries ++ flat_map object_entries objects.now) }
{
    for rule in objects {
        digest.add(rule.object.bytes());
        for pair in &rule.provided {
            digest.add(pair.0.bytes());
            digest.add(pair.1.bytes());
        }
    }
}
