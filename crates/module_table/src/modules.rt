//! Who provides which module, by index and by name, and what modules need: those of objects their
//! objects, and those of info files what they require, which is looked up once.
ghost use Rattle.std.specs.Prelude.{◌++◌, ◌<◌, ◌≡◌, filter_map, flat_map, map, option_map, Some, ℕ};
ghost use Rattle.module_table.specs.Prelude.{AreLookedUp, AreNamed, AreProvided, DoNamesDiffer};
ghost use Rattle.module_table.specs.Prelude.{CoversTable, enumerate_from, found, IfNone, IfOk};
ghost use Rattle.module_table.specs.Prelude.{IfSome, index_in};
ghost use Rattle.module_table.specs.Prelude.{indexes_in, info_rows, length, looked_up, lookups_of};
ghost use Rattle.module_table.specs.Prelude.{names_of, object_row, OnOk, origins_of, provision_of};
ghost use Rattle.module_table.specs.Prelude.{provisions, rows, slice_get, table_with, TableValue};
ghost use Rattle.indexmap.specs.IndexSet.{hasher_of};

use crate::fault::Maker;
use document_values::{Info, InfoModule, Name, Rule, TargetName};
use indexmap::IndexSet;
use ninja_text::Path;
use std::alloc::{AllocError, Global};
use std::marker::Model;
use table_keys::TableKey;

/// A provided module, and its index in what its producer provides. Those of objects are public.
#[derive(Clone, Copy)]
pub(crate) struct Module<'t> {
    pub maker: Maker,
    pub index: usize,
    pub name: &'t Name,
    pub file: &'t Path,
    pub is_private: bool,
}

/// The modules that objects and info files provide, by object, then by info file, in order of
/// provision. Their names differ. A contract sees it as the table of the objects and info files.
pub(crate) struct Modules<'t> {
    objects: &'t [Rule],
    infos: &'t [Info],
    provided: Vec<Module<'t>>,
    /// The names of the modules. A name's index is that of its module.
    names: IndexSet<Name, TableKey>,
}

// Not derived: this saves the prover time (docs/DECISIONS.md, "Code").
impl<'t> Drop for Modules<'t> {
    fn drop(self) {
        let Modules {
            objects: _,
            infos: _,
            provided: _,
            names: _,
        } = self;
    }
}

impl<'t> Model for Modules<'t> {
    ghost Value = { TableValue };

    ghost view = { λ m. table_with m.objects.now m.infos.now };

    ghost invariant = { λ m. AreNamed (table_with m.objects.now m.infos.now) m.provided.items
        m.names.keys (hasher_of m.names) };
}

impl<'t> Modules<'t> {
    /// Returns these modules of the objects and info files, with their names in the same order.
    pub(crate) fn new(
        objects: &'t [Rule],
        infos: &'t [Info],
        provided: Vec<Module<'t>>,
        names: IndexSet<Name, TableKey>,
    ) -> Modules<'t>
        requires { AreNamed (table_with objects.now infos.now) provided.items names.keys
            (hasher_of names) }
        ensures { result ≡ table_with objects.now infos.now }
    {
        Modules {
            objects,
            infos,
            provided,
            names,
        }
    }

    pub(crate) fn objects(&self) -> &'t [Rule]
        ensures { result.now ≡ self.now.objects }
    {
        self.objects
    }

    pub(crate) fn infos(&self) -> &'t [Info]
        ensures infos { result.now ≡ self.now.infos }
        ensures differ { DoNamesDiffer self.now }
    {
        self.infos
    }

    /// Returns all modules, by index. Their names differ.
    pub(crate) fn provided(&self) -> &[Module<'t>]
        ensures all { AreProvided self.now result.now }
        ensures differ { DoNamesDiffer self.now }
    {
        self.provided.as_slice()
    }

    /// Returns the module of that name and its index, if one is provided.
    pub(crate) fn find(&self, name: &Name) -> Option<(usize, &Module<'t>)>
        ensures module { option_map (λ m. provision_of m.1.now) result
            ≡ found (provisions self.now) name.now }
        ensures index { option_map (λ m. m.0) result
            ≡ index_in (names_of (provisions self.now)) name.now }
    {
        let index = index_of(&self.names, name)?;
        Some((index, module_at(&self.provided, index)))
    }

    /// Consumes the value and returns the names of all modules, by index.
    pub(crate) fn into_names(self) -> IndexSet<Name, TableKey>
        ensures names { result.keys ≡ names_of (provisions self.entry) }
        ensures key { CoversTable (hasher_of result) self.entry }
    {
        let Modules {
            objects: _,
            infos: _,
            provided: _,
            names,
        } = self;
        names
    }
}

/// Returns all provided modules: by object and index, then by info file and index.
pub(crate) fn provided_modules<'t>(
    alloc: Global,
    objects: &'t [Rule],
    infos: &'t [Info],
) -> Result<Vec<Module<'t>>, AllocError>
    ensures { IfOk result (λ all. AreProvided (table_with objects.now infos.now) all.items) }
{
    // most objects provide one module at most
    let mut all = Vec::with_capacity(alloc, objects.len())?;
    for (object, rule) in objects.iter().enumerate() {
        for (index, pair) in rule.provided.iter().enumerate() {
            all.push(Module {
                maker: Maker::Object(object),
                index,
                name: &pair.0,
                file: &pair.1,
                is_private: false,
            })?;
        }
    }
    for (info, value) in infos.iter().enumerate() {
        for (index, module) in value.modules.iter().enumerate() {
            all.push(Module {
                maker: Maker::Info(info),
                index,
                name: &module.name,
                file: &module.file,
                is_private: module.is_private,
            })?;
        }
    }
    Ok(all)
}

pub(crate) fn module_at<'p, 't>(provided: &'p [Module<'t>], index: usize) -> &'p Module<'t>
    requires { index < length provided.now }
    ensures { slice_get provided.now index ≡ Some result.now }
{
    &provided[index]
}

#[tactic(auto, using(crate::proofs::Lists::finds, crate::proofs::Lists::misses))]
pub(crate) fn index_of(names: &IndexSet<Name, TableKey>, name: &Name) -> Option<usize>
    ensures index { result ≡ index_in names.now.keys name.now }
    ensures found { IfSome result (λ index. slice_get names.now.keys index ≡ Some name.now) }
    ensures none { IfNone result
        ((index : ℕ) → slice_get names.now.keys index ≡ Some name.now → ⊥) }
{
    names.get_index_of(name)
}

/// A requirement of a module of an info file: the name, the file that the info file says, and the
/// module of that name.
#[derive(Clone, Copy)]
pub(crate) struct InfoRequired<'m, 't> {
    pub info: usize,
    pub target: &'t TargetName,
    pub module_name: &'t Name,
    pub name: &'t Name,
    pub file: &'t Path,
    /// The module of that name and its index, if one is provided.
    pub module: Option<(usize, &'m Module<'t>)>,
}

/// Returns what each module of an object needs: the object, whose index comes after those of all
/// modules.
pub(crate) fn object_rows(alloc: Global, modules: &Modules) -> Result<Vec<Vec<usize>>, AllocError>
    ensures { IfOk result (λ needs. rows needs.items
        ≡ filter_map (object_row (length (provisions modules.now))) (origins_of modules.now)) }
{
    let provided = modules.provided();
    let mut needs = Vec::with_capacity(alloc, provided.len() + modules.objects().len())?;
    for module in provided {
        if let Maker::Object(object) = module.maker {
            let row = vec![in alloc; provided.len() + object]?;
            needs.push(row)?;
        }
    }
    Ok(needs)
}

/// Returns all requirements of the modules of info files, by info file, module and index. Adds what
/// each of these modules needs: the modules of the names that it requires.
pub(crate) fn all_required<'m, 't>(
    alloc: Global,
    modules: &'m Modules<'t>,
    needs: &mut Vec<Vec<usize>>,
) -> Result<Vec<InfoRequired<'m, 't>>, AllocError>
    ensures required { IfOk result (λ all. AreLookedUp modules.now all.items) }
    ensures needs { OnOk result (rows needs.new.items ≡ rows needs.old.items
        ++ flat_map (info_rows (names_of (provisions modules.now)))
        (enumerate_from 0 modules.now.infos)) }
{
    let infos = modules.infos();
    let mut all = Vec::new(alloc);
    for (info, value) in infos.iter().enumerate() {
        for entry in &value.modules {
            let row = add_module(alloc, modules, info, &value.target, entry, &mut all)?;
            needs.push(row)?;
        }
    }
    Ok(all)
}

/// Adds the requirements of a module, and returns the modules of the names.
fn add_module<'m, 't>(
    alloc: Global,
    modules: &'m Modules<'t>,
    info: usize,
    target: &'t TargetName,
    entry: &'t InfoModule,
    all: &mut Vec<InfoRequired<'m, 't>>,
) -> Result<Vec<usize>, AllocError>
    ensures required { OnOk result (map looked_up all.new.items
        ≡ map looked_up all.old.items
        ++ lookups_of (provisions modules.now) info target.now entry.now) }
    ensures row { IfOk result (λ row. row.items
        ≡ indexes_in (names_of (provisions modules.now)) entry.now.required) }
{
    let mut row = Vec::with_capacity(alloc, entry.required.len())?;
    for pair in &entry.required {
        let module = modules.find(&pair.0);
        all.push(InfoRequired {
            info,
            target,
            module_name: &entry.name,
            name: &pair.0,
            file: &pair.1,
            module,
        })?;
        if let Some((index, _)) = module {
            row.push(index)?;
        }
    }
    Ok(row)
}
