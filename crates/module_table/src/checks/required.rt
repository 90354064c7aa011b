//! M5 to M10: what is required is provided, and not in a cycle, and what is private stays so. M5
//! and M8 are about objects, M6 and M7 about the modules of info files, and M9 about both.
ghost use Rattle.std.specs.Prelude.{◌≡◌, IfErr, IfOk, length, map, OnOk};
ghost use Rattle.module_table.specs.Prelude.{AreByObjects, AreInfosAllowed, AreInfosKnown};
ghost use Rattle.module_table.specs.Prelude.{AreLookedUp, AreObjectsAllowed, AreRequiredIndexes};
ghost use Rattle.module_table.specs.Prelude.{DependsOn, DoInfosAgree, DoNamesDiffer, FailsWith};
ghost use Rattle.module_table.specs.Prelude.{ForFault, IsOfInfo, IsOrderable, IsPrivateFault};
ghost use Rattle.module_table.specs.Prelude.{maker_at, provision_of, Reports, rows};

use crate::fault::{Maker, TableFault, failure_of};
use crate::modules::{InfoRequired, Module, Modules, module_at};
use dep_order::{Digraph, Sorting, order};
use document_values::{Name, TargetName};
use ninja_text::Failure;
use std::alloc::{AllocError, Global};

/// M5: each required name is provided. Returns the indexes of the modules that each object
/// requires.
pub(crate) fn check_objects_known(
    alloc: Global,
    modules: &Modules,
) -> Result<Vec<Vec<usize>>, Failure<Box<TableFault>>>
    ensures ok { IfOk result (λ required. AreRequiredIndexes modules.now (rows required.items)) }
    ensures fault { FailsWith 5 modules.now result }
{
    let objects = modules.objects();
    let mut indexes = Vec::with_capacity(alloc, objects.len())?;
    for (object, rule) in objects.iter().enumerate() {
        let mut row = Vec::with_capacity(alloc, rule.required.len())?;
        for required in &rule.required {
            let Some((index, _)) = modules.find(required) else {
                let name = required.copy(alloc)?;
                return Err(failure_of(alloc, TableFault::ModuleUnknown { name, object }));
            };
            row.push(index)?;
        }
        indexes.push(row)?;
    }
    Ok(indexes)
}

/// M6: info files provide what the modules of info files require.
pub(crate) fn check_infos_known(
    alloc: Global,
    modules: &Modules,
    all: &[InfoRequired],
) -> Result<(), Failure<Box<TableFault>>>
    requires { AreLookedUp modules.now all.now }
    ensures ok { OnOk result (AreInfosKnown modules.now) }
    ensures fault { FailsWith 6 modules.now result }
{
    for required in all {
        if let Some((_, module)) = required.module {
            if let Maker::Info(_) = module.maker {
                continue;
            }
        }
        let fault = TableFault::InfoUnknown {
            target: required.target.copy(alloc)?,
            module_name: required.module_name.copy(alloc)?,
            name: required.name.copy(alloc)?,
        };
        return Err(failure_of(alloc, fault));
    }
    Ok(())
}

/// M7: they provide it with the files that the requirements say.
pub(crate) fn check_infos_agree(
    alloc: Global,
    modules: &Modules,
    all: &[InfoRequired],
) -> Result<(), Failure<Box<TableFault>>>
    requires all { AreLookedUp modules.now all.now }
    requires known { AreInfosKnown modules.now }
    ensures ok { OnOk result (DoInfosAgree modules.now) }
    ensures fault { FailsWith 7 modules.now result }
{
    for required in all {
        let Some((_, module)) = required.module else {
            continue;
        };
        if *module.file != *required.file {
            let fault = TableFault::InfoDisagrees {
                target: required.target.copy(alloc)?,
                module_name: required.module_name.copy(alloc)?,
                name: required.name.copy(alloc)?,
            };
            return Err(failure_of(alloc, fault));
        }
    }
    Ok(())
}

/// M8: no objects need each other's modules in a cycle. `indexes[i]` are the modules that object i
/// requires.
pub(crate) fn check_rings(
    alloc: Global,
    modules: &Modules,
    required: &[Vec<usize>],
) -> Result<(), Failure<Box<TableFault>>>
    requires { AreRequiredIndexes modules.now (rows required.now) }
    ensures ok { OnOk result (IsOrderable (length modules.now.objects) (DependsOn modules.now)) }
    ensures fault { FailsWith 8 modules.now result }
{
    let provided = modules.provided();
    let mut needs = Vec::with_capacity(alloc, required.len())?;
    for row in required {
        let objects = row.iter().filter_map(|index| maker_at(provided, *index));
        needs.push(objects.collect(alloc)?)?;
    }
    match order(alloc, &Digraph::new(needs))? {
        Sorting::Order(_) => Ok(()),
        Sorting::Cycle(objects) => Err(failure_of(alloc, TableFault::ImportCycle { objects })),
    }
}

/// Returns the object that provides the module of that index, if an object does.
fn maker_at(provided: &[Module], index: usize) -> Option<usize>
    ensures { result ≡ maker_at (map provision_of provided.now) index }
{
    match provided.get(index)?.maker {
        Maker::Object(object) => Some(object),
        Maker::Info(_) => None,
    }
}

/// M9: no object requires a module that is private to an info file. `indexes[i]` are the modules
/// that object i requires.
pub(crate) fn check_objects_allowed(
    alloc: Global,
    modules: &Modules,
    required: &[Vec<usize>],
) -> Result<(), Failure<Box<TableFault>>>
    requires { AreRequiredIndexes modules.now (rows required.now) }
    ensures ok { OnOk result (AreObjectsAllowed modules.now) }
    ensures fault { FailsWith 9 modules.now result }
{
    let provided = modules.provided();
    for (object, row) in required.iter().enumerate() {
        for index in row {
            let module = module_at(provided, *index);
            if module.is_private {
                return Err(requires_private(alloc, module, Maker::Object(object)));
            }
        }
    }
    Ok(())
}

/// M9: no module of an info file requires a module that is private to another info file.
pub(crate) fn check_infos_allowed(
    alloc: Global,
    modules: &Modules,
    all: &[InfoRequired],
) -> Result<(), Failure<Box<TableFault>>>
    requires all { AreLookedUp modules.now all.now }
    requires public { AreObjectsAllowed modules.now }
    ensures ok { OnOk result (AreInfosAllowed modules.now) }
    ensures fault { FailsWith 9 modules.now result }
{
    for required in all {
        let Some((_, module)) = required.module else {
            continue;
        };
        let user = Maker::Info(required.info);
        if module.is_private && module.maker != user {
            return Err(requires_private(alloc, module, user));
        }
    }
    Ok(())
}

/// M10: an object provides each name that is declared private.
pub(crate) fn check_kept(
    alloc: Global,
    modules: &Modules,
    kept: &[Name],
) -> Result<(), Failure<Box<TableFault>>>
    requires { DoNamesDiffer modules.now }
    ensures ok { OnOk result (AreByObjects modules.now kept.now) }
    ensures fault { IfErr result (ForFault (λ fault. Reports 10 modules.now kept.now fault.value)) }
{
    for name in kept {
        if let Some((_, module)) = modules.find(name) {
            if let Maker::Object(_) = module.maker {
                continue;
            }
        }
        let name = name.copy(alloc)?;
        return Err(failure_of(alloc, TableFault::PrivateUnknown { name }));
    }
    Ok(())
}

/// Returns the failure that a module of an info file is private to it and is required.
fn requires_private(alloc: Global, required: &Module, user: Maker) -> Failure<Box<TableFault>>
    requires { IsOfInfo required.now.maker }
    ensures { ForFault (IsPrivateFault required.now user) result }
{
    let Maker::Info(info) = required.maker else {
        unreachable!()
    };
    match required.name.copy(alloc) {
        Ok(name) => failure_of(alloc, TableFault::ModulePrivate { name, info, user }),
        Err(_) => Failure::Memory,
    }
}
