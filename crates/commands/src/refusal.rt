//! How it is reported that a target is rejected, and what is wrong with edges.

ghost use Rattle.std.specs.Prelude.{◌≡◌, ◌++◌, map, flat_map, IfOk, OnOk, codes};
ghost use Rattle.commands.specs.Prelude.{first_output, edges_fault_text, effect_text, cycle_text};
ghost use Rattle.commands.specs.Prelude.{fault_subject, object_path, target_name, maker_text};
ghost use Rattle.commands.specs.Prelude.{made_twice_text, ring_text, refusal_line, refused_line};

use crate::lists::pushed;
use build_effect::{Edge, EffectFault, ListFault};
use collate_core::{Refusal, RefusedTarget};
use document_values::{Name, Rule, TargetName};
use dyndep_file::WriteFault;
use module_maps::UnwritableMap;
use module_table::{Maker, TableFault};
use std::alloc::{AllocError, Global};

/// Returns what is reported of a rejected target. Info files are named by the names in them.
pub(crate) fn refused_text(alloc: Global, refused: &RefusedTarget) -> Result<Vec<u8>, AllocError>
    ensures { IfOk result (λ text. text.items ≡ refused_line refused.now) }
{
    let mut names = Vec::with_capacity(alloc, refused.infos.len())?;
    for info in &refused.infos {
        names = pushed(names, &info.target)?;
    }
    refusal_line(alloc, &refused.refusal, &refused.objects, &names)
}

/// Returns what is reported of a rejected target that has these objects and links these targets.
pub(crate) fn refusal_line(
    alloc: Global,
    refusal: &Refusal,
    objects: &[Rule],
    names: &[&TargetName],
) -> Result<Vec<u8>, AllocError>
    ensures { IfOk result (λ text. text.items ≡ refusal_line objects.now
        (map (λ name. name.now) names.now) refusal.now) }
{
    match refusal {
        Refusal::Scan { index, fault } => {
            Ok(format!(in alloc; "scan {index}: {fault}")?.into_bytes())
        }
        Refusal::Info { index, fault } => {
            Ok(format!(in alloc; "info {index}: {fault}")?.into_bytes())
        }
        Refusal::Table { fault } => {
            let subject = fault_subject(alloc, fault, Makers { objects, names })?;
            joined(alloc, &[fault.name().as_bytes(), b" ", &subject])
        }
        Refusal::StatementTooLong { statement } => {
            let statement = *statement;
            let fault = WriteFault::StatementTooLong { statement };
            Ok(format!(in alloc; "{fault}")?.into_bytes())
        }
        Refusal::Map { object, fault } => match fault {
            UnwritableMap::MapPath { path } => joined(alloc, &[b"K1 MapPath ", path.bytes()]),
            UnwritableMap::TwoProvided => {
                joined(alloc, &[b"K2 TwoProvided ", object_path(objects, *object)])
            }
        },
        Refusal::LinkedLater => Vec::from_slice(alloc, b"K3 LinkedLater"),
    }
}

/// The objects, and the names of the targets of info files, whose indexes a fault has.
#[derive(Clone, Copy)]
struct Makers<'t> {
    objects: &'t [Rule],
    names: &'t [&'t TargetName],
}

/// Returns what a fault is about: objects are named by their paths, info files by their targets.
fn fault_subject(alloc: Global, fault: &TableFault, makers: Makers) -> Result<Vec<u8>, AllocError>
    ensures { IfOk result (λ text. text.items ≡ fault_subject
        makers.entry.objects.now (map (λ n. n.now) makers.entry.names.now) fault.now) }
{
    match fault {
        TableFault::ObjectTwice { path, .. } => Vec::from_slice(alloc, path.bytes()),
        TableFault::InfoTwice { target } => Vec::from_slice(alloc, target.text().as_bytes()),
        TableFault::ProvidedTwice {
            name,
            first,
            second,
        } => made_twice_text(alloc, name.text().as_bytes(), *first, *second, makers),
        TableFault::BmiTwice {
            path,
            first,
            second,
        } => made_twice_text(alloc, path.bytes(), *first, *second, makers),
        TableFault::ModuleUnknown { name, object } => {
            let path = object_path(makers.objects, *object);
            joined(alloc, &[name.text().as_bytes(), b" in ", path])
        }
        TableFault::InfoUnknown {
            target,
            module_name,
            name,
        }
        | TableFault::InfoDisagrees {
            target,
            module_name,
            name,
        } => {
            let (target, module_name) = (target.text().as_bytes(), module_name.text().as_bytes());
            let name = name.text().as_bytes();
            joined(alloc, &[target, b" ", module_name, b" ", name])
        }
        TableFault::ImportCycle { objects } => ring_text(alloc, objects, makers.objects),
        TableFault::ModulePrivate { name, info, user } => {
            let (name, target) = (name.text().as_bytes(), target_name(makers.names, *info));
            let (kind, user) = kind_and_name(*user, makers);
            joined(alloc, &[name, b" of ", target, b" in ", kind, user])
        }
        TableFault::PrivateUnknown { name } => Vec::from_slice(alloc, name.text().as_bytes()),
    }
}

/// Returns what is reported of something that two provide.
fn made_twice_text(
    alloc: Global,
    made: &[u8],
    first: Maker,
    second: Maker,
    makers: Makers,
) -> Result<Vec<u8>, AllocError>
    ensures { IfOk result (λ text. text.items ≡ made_twice_text
        makers.entry.objects.now (map (λ n. n.now) makers.entry.names.now) made.now first second) }
{
    let (kind, name) = kind_and_name(first, makers);
    let (other_kind, other_name) = kind_and_name(second, makers);
    let parts = [made, b" by ", kind, name, b" and ", other_kind, other_name];
    joined(alloc, &parts)
}

/// Returns who provides a file: the word for its kind, and its name.
fn kind_and_name<'t>(maker: Maker, makers: Makers<'t>) -> (&'t [u8], &'t [u8])
    ensures { result.0.now ++ result.1.now ≡ maker_text
        makers.entry.objects.now (map (λ n. n.now) makers.entry.names.now) maker }
{
    match maker {
        Maker::Object(index) => (b"object ".as_slice(), object_path(makers.objects, index)),
        Maker::Info(index) => (b"info ".as_slice(), target_name(makers.names, index)),
    }
}

/// Returns the objects of a cycle, in its order.
fn ring_text(alloc: Global, ring: &[usize], objects: &[Rule]) -> Result<Vec<u8>, AllocError>
    ensures { IfOk result (λ text. text.items ≡ ring_text objects.now ring.now) }
{
    let [first, others @ ..] = ring else {
        return Ok(Vec::new(alloc));
    };
    let mut text = Vec::from_slice(alloc, object_path(objects, *first))?;
    for next in others {
        push_next(&mut text, object_path(objects, *next))?;
    }
    Ok(text)
}

/// Appends the next name of a cycle, after an arrow.
fn push_next(text: &mut Vec<u8>, name: &[u8]) -> Result<(), AllocError>
    ensures { OnOk result (text.new.items ≡ text.old.items ++ (codes " -> " ++ name.now)) }
{
    text.extend_from_slice(b" -> ")?;
    text.extend_from_slice(name)
}

/// Returns the path of the object of that index.
fn object_path(objects: &[Rule], index: usize) -> &[u8]
    ensures { result.now ≡ object_path objects.now index }
{
    objects.get(index).map_or(b"", |rule| rule.object.bytes())
}

/// Returns the name of the target of the info file of that index.
fn target_name<'t>(names: &[&'t TargetName], index: usize) -> &'t [u8]
    ensures { result.now ≡ target_name (map (λ n. n.now) names.now) index }
{
    names.get(index).map_or(b"", |name| name.text().as_bytes())
}

/// Returns the parts, one after the other.
pub(crate) fn joined(alloc: Global, parts: &[&[u8]]) -> Result<Vec<u8>, AllocError>
    ensures { IfOk result (λ text. text.items ≡ flat_map (λ part. part.now) parts.now) }
{
    parts.concat(alloc)
}

/// Returns what is reported of a listing that gives no graph.
pub(crate) fn edges_fault_text(alloc: Global, fault: &ListFault) -> Result<Vec<u8>, AllocError>
    ensures { IfOk result (λ text. text.items ≡ edges_fault_text fault.now) }
{
    match fault {
        ListFault::AtLine(fault) => Ok(format!(in alloc; "edges: {fault}")?.into_bytes()),
        ListFault::NoGraph(fault) => {
            let name = format!(in alloc; "{fault}")?;
            joined(alloc, &[name.as_bytes(), b" ", fault.path().bytes()])
        }
    }
}

/// Returns what is reported of statements that have no effect.
pub(crate) fn effect_text(alloc: Global, fault: &EffectFault) -> Result<Vec<u8>, AllocError>
    ensures { IfOk result (λ text. text.items ≡ effect_text fault.now) }
{
    let name = format!(in alloc; "{fault}")?;
    match fault.path() {
        Some(path) => joined(alloc, &[name.as_bytes(), b" ", path.bytes()]),
        None => Ok(name.into_bytes()),
    }
}

/// Returns what is reported of a cycle of edges: each needs the next, and the last needs the first.
pub(crate) fn cycle_text(
    alloc: Global,
    edges: &[Edge],
    cycle: &[usize],
) -> Result<Vec<u8>, AllocError>
    ensures { IfOk result (λ text. text.items ≡ cycle_text edges.now cycle.now) }
{
    let mut text = Vec::from_slice(alloc, b"cycle ")?;
    let [first, others @ ..] = cycle else {
        return Ok(text);
    };
    text.extend_from_slice(first_output(edges, *first))?;
    for next in others {
        push_next(&mut text, first_output(edges, *next))?;
    }
    Ok(text)
}

/// Returns the first output of the edge of that index.
pub(crate) fn first_output(edges: &[Edge], index: usize) -> &[u8]
    ensures { result.now ≡ first_output edges.now index }
{
    let output = edges.get(index).and_then(|edge| edge.outputs.first());
    output.map_or(b"", |output| output.bytes())
}
