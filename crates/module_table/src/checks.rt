//! All checks of a table in the order of their codes, and what a table keeps for look-ups after
//! they have passed. M1 to M4 are here: what is twice among the paths of objects, the targets of
//! info files, the names of modules and the files. M5 to M10 are in `required.rt`.
ghost use Rattle.std.specs.Prelude.{◌≡◌, IfErr, IfOk, List, map, OnOk};
ghost use Rattle.module_table.specs.Prelude.{AllDiffer, AllZip, AreLookedUp, Covers, CoversTable};
ghost use Rattle.module_table.specs.Prelude.{flat_map, info_entries, provisions, table_with};
ghost use Rattle.module_table.specs.Prelude.{TableValue};
ghost use Rattle.module_table.specs.Prelude.{AreModuleRows, AreRequiredIndexes, Name, provision_of};
ghost use Rattle.module_table.specs.Prelude.{ForFault, HasEachOnce, HasNoFault, IsReported, rows};
ghost use Rattle.module_table.specs.Prelude.{IsEmpty, IsIndex, names_of, Passed, paths_of, Reports};
ghost use Rattle.indexmap.specs.IndexSet.{hasher_of};

use crate::fault::{Maker, TableFault, failure_of};
use crate::modules::{
    InfoRequired, Module, Modules, all_required, module_at, object_rows, provided_modules,
};
use crate::needed::all_pairs;
use dep_order::Digraph;
use document_values::{Info, Name, Rule, TargetName};
use indexmap::IndexSet;
use ninja_text::{Failure, Path};
use required::{
    check_infos_agree, check_infos_allowed, check_infos_known, check_kept, check_objects_allowed,
    check_objects_known, check_rings,
};
use std::alloc::{AllocError, Global};
use table_keys::TableKey;

mod required;

/// What a table keeps for look-ups besides its objects and info files.
#[derive(Drop)]
pub(crate) struct Index {
    /// The names of all provided modules. A name's index is that of its module.
    pub names: IndexSet<Name, TableKey>,
    /// The producer of each module, and the index of the module in what the producer provides.
    pub origins: Vec<(Maker, usize)>,
    /// The modules and objects that each module and each object needs, by index.
    pub graph: Digraph,
    /// The modules that each object requires, with their files.
    pub required: Vec<Vec<(Name, Path)>>,
}

impl Index {
    /// Returns the index of these modules. `needs` is what each module needs, and `indexes[i]` are
    /// the modules that object i requires.
    fn new(
        alloc: Global,
        modules: Modules<'_>,
        mut needs: Vec<Vec<usize>>,
        mut indexes: Vec<Vec<usize>>,
    ) -> Result<Index, AllocError>
        requires needs { AreModuleRows modules (rows needs.items) }
        requires indexes { AreRequiredIndexes modules (rows indexes.items) }
        ensures { IfOk result (IsIndex modules.entry) }
    {
        let required = all_pairs(alloc, &modules, indexes.as_slice())?;
        let origins = modules.provided().iter().map(|m| (m.maker, m.index));
        let origins: Vec<(Maker, usize)> = origins.collect(alloc)?;
        needs.append(&mut indexes)?;
        Ok(Index {
            names: modules.into_names(),
            origins,
            graph: Digraph::new(without_repetitions(needs)),
            required,
        })
    }
}

/// Drops the repetitions in each row and sorts it, so that a search of the graph takes no more time
/// if a name is required more than once.
fn without_repetitions(mut needs: Vec<Vec<usize>>) -> Vec<Vec<usize>>
    ensures { AllZip HasEachOnce (rows needs.items) (rows result.items) }
{
    for row in needs.iter_mut() {
        row.sort_unstable();
        row.dedup();
    }
    needs
}

/// Makes all checks, from the lowest code to the highest. Names, targets and files are hashed under
/// `key`. The paths of the objects are put into the empty set, and the modules' files after them.
pub(crate) fn check_all(
    alloc: Global,
    objects: &[Rule],
    infos: &[Info],
    kept: &[Name],
    paths: &mut IndexSet<Path, TableKey>,
    key: TableKey,
) -> Result<Index, Failure<Box<TableFault>>>
    requires paths { IsEmpty paths.old }
    requires hasher { hasher_of paths.old ≡ key }
    requires key { CoversTable key (table_with objects.now infos.now) }
    ensures no_fault { OnOk result (HasNoFault (table_with objects.now infos.now) kept.now) }
    ensures paths { OnOk result (paths.new.keys ≡ paths_of (table_with objects.now infos.now)) }
    ensures hasher { OnOk result (hasher_of paths.new ≡ key) }
    ensures index { IfOk result (IsIndex (table_with objects.now infos.now)) }
    ensures fault { IfErr result (ForFault (λ fault.
        IsReported (table_with objects.now infos.now) kept.now fault.value)) }
{
    check_objects(alloc, objects, paths)?;
    check_infos(alloc, infos, key)?;
    let modules = check_names(alloc, objects, infos, key)?;
    check_files(alloc, &modules, paths)?;
    check_requirements(alloc, modules, kept)
}

/// Checks M5 to M10.
fn check_requirements(
    alloc: Global,
    modules: Modules<'_>,
    kept: &[Name],
) -> Result<Index, Failure<Box<TableFault>>>
    requires { Passed 5 modules kept.now }
    ensures no_fault { OnOk result (HasNoFault modules.entry kept.now) }
    ensures index { IfOk result (IsIndex modules.entry) }
    ensures fault { IfErr result (ForFault (λ fault.
        IsReported modules.entry kept.now fault.value)) }
{
    let indexes = check_objects_known(alloc, &modules)?;
    let mut needs = object_rows(alloc, &modules)?;
    let required = all_required(alloc, &modules, &mut needs)?;
    check_looked_up(alloc, &modules, &indexes, &required, kept)?;
    drop(required);
    Ok(Index::new(alloc, modules, needs, indexes)?)
}

/// Checks M6 to M10. `indexes[i]` are the modules that object i requires, and `all` is what the
/// modules of info files require. (`check_requirements` would drop these lists at each `?`.)
fn check_looked_up(
    alloc: Global,
    modules: &Modules,
    indexes: &[Vec<usize>],
    all: &[InfoRequired],
    kept: &[Name],
) -> Result<(), Failure<Box<TableFault>>>
    requires passed { Passed 6 modules.now kept.now }
    requires indexes { AreRequiredIndexes modules.now (rows indexes.now) }
    requires all { AreLookedUp modules.now all.now }
    ensures no_fault { OnOk result (HasNoFault modules.now kept.now) }
    ensures fault { IfErr result (ForFault (λ fault.
        IsReported modules.now kept.now fault.value)) }
{
    check_infos_known(alloc, modules, all)?;
    check_infos_agree(alloc, modules, all)?;
    check_rings(alloc, modules, indexes)?;
    check_objects_allowed(alloc, modules, indexes)?;
    check_infos_allowed(alloc, modules, all)?;
    check_kept(alloc, modules, kept)
}

/// M1: no two objects have the same path. Puts the paths into the empty set, by object.
pub(crate) fn check_objects(
    alloc: Global,
    objects: &[Rule],
    paths: &mut IndexSet<Path, TableKey>,
) -> Result<(), Failure<Box<TableFault>>>
    requires { IsEmpty paths.old }
    ensures hasher { OnOk result (hasher_of paths.new ≡ hasher_of paths.old) }
    ensures paths { OnOk result (paths.new.keys ≡ map (λ rule. rule.object) objects.now) }
    ensures differ { OnOk result (AllDiffer (map (λ rule. rule.object) objects.now)) }
    ensures fault { IfErr result (ForFault (λ fault. (t : TableValue) (kept : List Name) →
        objects.now ≡ t.objects → Reports 1 t kept fault.value)) }
{
    paths.reserve(objects.len())?;
    for (index, rule) in objects.iter().enumerate() {
        let (first, is_new) = paths.insert_full(rule.object.copy(alloc)?)?;
        if !is_new {
            let fault = TableFault::ObjectTwice {
                path: rule.object.copy(alloc)?,
                first: Maker::Object(first),
                second: Maker::Object(index),
            };
            return Err(failure_of(alloc, fault));
        }
    }
    Ok(())
}

/// M2: no two info files have the same target name. The names are hashed under `key`.
pub(crate) fn check_infos(
    alloc: Global,
    infos: &[Info],
    key: TableKey,
) -> Result<(), Failure<Box<TableFault>>>
    requires { Covers key (flat_map info_entries infos.now) }
    ensures ok { OnOk result (AllDiffer (map (λ info. info.target) infos.now)) }
    ensures fault { IfErr result (ForFault (λ fault. (t : TableValue) (kept : List Name) →
        infos.now ≡ t.infos → Reports 2 t kept fault.value)) }
{
    let mut targets = IndexSet::with_capacity_and_hasher(alloc, infos.len(), key)?;
    put_targets(alloc, infos, &mut targets)
}

/// Puts the target names of the info files into the empty set.
fn put_targets<'t>(
    alloc: Global,
    infos: &'t [Info],
    targets: &mut IndexSet<&'t TargetName, TableKey>,
) -> Result<(), Failure<Box<TableFault>>>
    requires empty { IsEmpty targets.old }
    requires key { Covers (hasher_of targets.old) (flat_map info_entries infos.now) }
    ensures ok { OnOk result (AllDiffer (map (λ info. info.target) infos.now)) }
    ensures fault { IfErr result (ForFault (λ fault. (t : TableValue) (kept : List Name) →
        infos.now ≡ t.infos → Reports 2 t kept fault.value)) }
{
    for info in infos {
        let (_, is_new) = targets.insert_full(&info.target)?;
        if !is_new {
            let target = info.target.copy(alloc)?;
            return Err(failure_of(alloc, TableFault::InfoTwice { target }));
        }
    }
    Ok(())
}

/// M3: no name is provided twice. Returns all provided modules.
pub(crate) fn check_names<'t>(
    alloc: Global,
    objects: &'t [Rule],
    infos: &'t [Info],
    key: TableKey,
) -> Result<Modules<'t>, Failure<Box<TableFault>>>
    requires { CoversTable key (table_with objects.now infos.now) }
    ensures modules { IfOk result
        (λ modules. modules ≡ table_with objects.now infos.now) }
    ensures differ { IfOk result (λ modules. AllDiffer (names_of (provisions modules))) }
    ensures fault { IfErr result (ForFault (λ fault. (kept : List Name) →
        Reports 3 (table_with objects.now infos.now) kept fault.value)) }
{
    let provided = provided_modules(alloc, objects, infos)?;
    let mut names = IndexSet::with_hasher(alloc, key);
    put_names(alloc, &provided, &mut names)?;
    Ok(Modules::new(objects, infos, provided, names))
}

/// Puts the names of the modules into the empty set, by module. Apart from `check_names`, which
/// would drop the set at each `?`: this saves the prover 14 seconds.
fn put_names(
    alloc: Global,
    provided: &[Module],
    names: &mut IndexSet<Name, TableKey>,
) -> Result<(), Failure<Box<TableFault>>>
    requires { IsEmpty names.old }
    ensures hasher { OnOk result (hasher_of names.new ≡ hasher_of names.old) }
    ensures names { OnOk result (names.new.keys ≡ names_of (map provision_of provided.now)) }
    ensures differ { OnOk result (AllDiffer (names_of (map provision_of provided.now))) }
    ensures fault { IfErr result (ForFault (λ fault. (t : TableValue) (kept : List Name) →
        map provision_of provided.now ≡ provisions t → Reports 3 t kept fault.value)) }
{
    names.reserve(provided.len())?;
    for module in provided {
        let (first, is_new) = names.insert_full(module.name.copy(alloc)?)?;
        if !is_new {
            let fault = TableFault::ProvidedTwice {
                name: module.name.copy(alloc)?,
                first: provided[first].maker,
                second: module.maker,
            };
            return Err(failure_of(alloc, fault));
        }
    }
    Ok(())
}

/// M4: no two provided modules have the same file, and no module's file is an object. `files` has
/// the paths of the objects, which differ, and the modules' files are put after them.
pub(crate) fn check_files(
    alloc: Global,
    modules: &Modules,
    files: &mut IndexSet<Path, TableKey>,
) -> Result<(), Failure<Box<TableFault>>>
    requires paths { files.old.keys ≡ map (λ rule. rule.object) modules.now.objects }
    requires differ { AllDiffer (map (λ rule. rule.object) modules.now.objects) }
    ensures hasher { OnOk result (hasher_of files.new ≡ hasher_of files.old) }
    ensures files { OnOk result (files.new.keys ≡ paths_of modules.now) }
    ensures ok { OnOk result (AllDiffer (paths_of modules.now)) }
    ensures fault { IfErr result (ForFault
        (λ fault. (kept : List Name) → Reports 4 modules.now kept fault.value)) }
{
    let provided = modules.provided();
    let objects = modules.objects();
    files.reserve(provided.len())?;
    for module in provided {
        let (first, is_new) = files.insert_full(module.file.copy(alloc)?)?;
        if !is_new {
            let maker = if first < objects.len() {
                Maker::Object(first)
            } else {
                module_at(provided, first - objects.len()).maker
            };
            let fault = TableFault::BmiTwice {
                path: module.file.copy(alloc)?,
                first: maker,
                second: module.maker,
            };
            return Err(failure_of(alloc, fault));
        }
    }
    Ok(())
}
