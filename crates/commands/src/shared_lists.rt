//! The check of the targets of a project that name one edge list, all of them at once.

ghost use Rattle.std.specs.Prelude.{◌≡◌, All, length, IfOk, IfSome, IsTrue};
ghost use Rattle.commands.specs.Prelude.{ListsAgree, ArePassed, PassesAt, IsFileOf};

use crate::lists::pushed;
use crate::read_targets::ReadTarget;
use build_effect::{DyndepFile, orders_after_each};
use collate_core::Collated;
use dyndep_file::Dyndep;
use ninja_text::Failure;
use std::alloc::{AllocError, Global};
use std::collections::BTreeMap;

/// Marks the targets that pass, because their edge list has an order after the dyndep files of all
/// targets that name it, and so after that of each.
pub(crate) fn passed_together(
    alloc: Global,
    targets: &[ReadTarget],
    outs: &[Collated],
) -> Result<Vec<bool>, AllocError>
    requires each { length outs.now ≡ length targets.now }
    requires lists { ListsAgree targets.now }
    ensures { IfOk result (λ passed. ArePassed targets.now outs.now passed.items) }
{
    let mut passed = vec![in alloc; false; targets.len()]?;
    // the indexes of the targets that name each edge list
    let mut lists: BTreeMap<String, Vec<usize>> = BTreeMap::new(alloc);
    for (number, target) in targets.iter().enumerate() {
        let Some(edges) = &target.spec.edges else {
            continue;
        };
        if let Some(indexes) = lists.get_mut(edges.as_str()) {
            indexes.push(number)?;
        } else {
            let indexes = vec![in alloc; number; 1]?;
            lists.insert(String::from_str(alloc, edges)?, indexes)?;
        }
    }
    for indexes in lists.values() {
        if pass_together(alloc, targets, outs, indexes)? {
            for index in indexes {
                passed[*index] = true;
            }
        }
    }
    Ok(passed)
}

/// Returns whether the targets of these indexes, of which there are several, pass together.
fn pass_together(
    alloc: Global,
    targets: &[ReadTarget],
    outs: &[Collated],
    indexes: &[usize],
) -> Result<bool, AllocError>
    requires each { length outs.now ≡ length targets.now }
    requires lists { ListsAgree targets.now }
    ensures { IfOk result (λ pass. IsTrue pass → All (PassesAt targets.now outs.now) indexes.now) }
{
    // One target is checked by itself.
    let [first, _, ..] = indexes else {
        return Ok(false);
    };
    let Some(first) = targets.get(*first) else {
        return Ok(false);
    };
    let (Some(edges), Some(listing)) = (&first.spec.edges, &first.listing) else {
        return Ok(false);
    };
    let Ok(graph) = &**listing else {
        return Ok(false);
    };
    let mut files = Vec::with_capacity(alloc, indexes.len())?;
    for index in indexes {
        let Some(target) = targets.get(*index) else {
            return Ok(false);
        };
        let Some(file) = file_of(alloc, target, &outs[*index], edges)? else {
            return Ok(false);
        };
        files = pushed(files, file)?;
    }
    orders_after_each(alloc, graph, &files)
}

/// Returns the dyndep file of a target, if it has the edge list of this name.
fn file_of<'t>(
    alloc: Global,
    target: &'t ReadTarget,
    out: &Collated,
    edges: &str,
) -> Result<Option<DyndepFile<'t>>, AllocError>
    ensures { IfOk result (λ found. IfSome found (IsFileOf edges.now target.now out.now)) }
{
    let (Some(own), Some(_)) = (&target.spec.edges, &target.listing) else {
        return Ok(None);
    };
    if own.as_str() != edges {
        return Ok(None);
    }
    match Dyndep::of(alloc, out.dyndep()) {
        Ok(dyndep) => Ok(Some(DyndepFile {
            name: &target.spec.dyndep_path,
            dyndep,
        })),
        Err(Failure::Memory) => Err(AllocError),
        Err(Failure::Fault(_)) => Ok(None),
    }
}
