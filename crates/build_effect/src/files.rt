//! Many dyndep files on one graph: whether the edges have an order after each of them.
ghost use Rattle.std.specs.Prelude.{◌≡◌, ◌≢◌, [], length, IfOk, OnOk, IfSome, IsTrue};
ghost use Rattle.build_effect.specs.Prelude.{All, DyndepFileValue, HasOrderAfter, HasEffectWithin};
ghost use Rattle.build_effect.specs.Prelude.{AreNames, AreJoined, AreMade, ListedHaveStatements};
ghost use Rattle.build_effect.specs.Prelude.{IsOrderable, EdgeNeeds, MadeOnce, MatchBool};
ghost use Rattle.build_effect.specs.Prelude.{NamesListed};

use crate::effect::{
    Addition, Checked, added_makers, canonical_statements, edges_of_statements, extended_edges,
    statements_of_edges,
};
use crate::fault::EffectFault;
use crate::graph::{Edge, Graph, MadeFiles, Makers, edge_order, first_output};
use dep_order::Sorting;
use dyndep_file::Dyndep;
use ninja_text::{Failure, Path};
use std::alloc::{AllocError, Global};
use std::marker::Model;
use std::slice;

/// A dyndep file: its name, and its statements.
#[derive(Drop)]
pub struct DyndepFile<'a> {
    pub name: &'a Path,
    pub dyndep: Dyndep,
}

impl<'a> Model for DyndepFile<'a> {
    ghost Value = { DyndepFileValue };

    ghost view = { λ f. record { name = f.name.now; statements = f.dyndep } };
}

/// Checks many dyndep files on one graph in one pass. `true` says that each of them, alone, has an
/// effect on the graph, after which the edges have an order.
///
/// The files are applied together, and the edges after all of them are put in order: each edge
/// then has all that it has after one of them. So `false` says nothing of a single file. It is
/// returned if a file has no effect, and also if two files have one name or add one output, or if
/// the edges after all files together have no order. [`apply`](crate::apply) and [`edge_order`]
/// then tell which file it is, if it is one.
pub fn orders_after_each(
    alloc: Global,
    graph: &Graph,
    files: &[DyndepFile<'_>],
) -> Result<bool, AllocError>
    ensures { IfOk result (λ passes. IsTrue passes → All (HasOrderAfter graph.now) files.now) }
{
    let Some(names) = names_of(alloc, files)? else {
        return Ok(false);
    };
    match union_of(alloc, graph, &names, files) {
        Ok(union) => has_order(alloc, &union),
        Err(Failure::Memory) => Err(AllocError),
        Err(Failure::Fault(_)) => Ok(false),
    }
}

fn has_order(alloc: Global, graph: &Graph) -> Result<bool, AllocError>
    ensures { IfOk result (λ has.
        IsTrue has → IsOrderable (length graph.now) (EdgeNeeds graph.now)) }
{
    match edge_order(alloc, graph)? {
        Sorting::Order(_) => Ok(true),
        Sorting::Cycle(_) => Ok(false),
    }
}

/// Returns a table of the names of the files, or `None` if two files have one name.
fn names_of(alloc: Global, files: &[DyndepFile<'_>]) -> Result<Option<Makers>, AllocError>
    ensures { IfOk result (λ found. IfSome found (AreNames files.now)) }
{
    let mut names = MadeFiles::new(alloc);
    for file in files {
        // Nothing reads the index: only the file is looked up.
        names.push(slice::from_ref(file.name), 0)?;
    }
    match Makers::new(alloc).with(alloc, names) {
        Ok(names) => Ok(Some(names)),
        Err(Failure::Memory) => Err(AllocError),
        Err(Failure::Fault(_)) => Ok(None),
    }
}

/// Returns the graph after all these files, which have these names, or a fault. Each edge then has
/// what it has after one of them alone.
fn union_of(
    alloc: Global,
    graph: &Graph,
    names: &Makers,
    files: &[DyndepFile<'_>],
) -> Checked<Graph>
    requires names { AreNames files.now names.now }
    ensures { IfOk result (λ union. All (HasEffectWithin graph.now union) files.now) }
{
    let old = graph.edges();
    let makers = graph.makers();
    let (canonical, edge_of) = additions_of_files(alloc, old, makers, files)?;
    let additions = canonical.as_slice();
    let statement_of = statements_of_edges(alloc, old.len(), &edge_of, additions)?;
    check_all_mentioned(alloc, old, names, &statement_of)?;
    let makers = added_makers(alloc, makers, additions, &edge_of)?;
    let edges = extended_edges(alloc, old, additions, &statement_of)?;
    Ok(Graph { edges, makers })
}

/// Returns the statements of all files, one file after another, and the edge of each.
fn additions_of_files(
    alloc: Global,
    edges: &[Edge],
    makers: &Makers,
    files: &[DyndepFile<'_>],
) -> Checked<(Vec<Addition>, Vec<usize>)>
    requires makers { AreMade edges.now makers.now }
    requires made_once { MadeOnce edges.now }
    ensures { IfOk result (λ joined. AreJoined edges.now files.now joined.0.items joined.1.items) }
{
    let mut additions = Vec::new(alloc);
    let mut edge_of = Vec::new(alloc);
    for file in files {
        let mut own = canonical_statements(alloc, &file.dyndep.statements)?;
        let mut own_edges = edges_of_statements(alloc, edges, file.name, makers, own.as_slice())?;
        additions.append(&mut own)?;
        edge_of.append(&mut own_edges)?;
    }
    Ok((additions, edge_of))
}

/// Checks that each edge that names a file of the table has a statement (E6).
fn check_all_mentioned(
    alloc: Global,
    edges: &[Edge],
    names: &Makers,
    statement_of: &[Option<usize>],
) -> Checked<()>
    requires outputs { All (λ e. e.outputs ≢ []) edges.now }
    requires each { length statement_of.now ≡ length edges.now }
    ensures { OnOk result (ListedHaveStatements edges.now names.now statement_of.now) }
{
    for (edge_index, edge) in edges.iter().enumerate() {
        if statement_of[edge_index].is_none() && names_one(edge, names) {
            let output = first_output(alloc, edge)?;
            return Err(Failure::Fault(EffectFault::NotMentioned { output }));
        }
    }
    Ok(())
}

/// Returns whether the edge names a file of the table.
fn names_one(edge: &Edge, names: &Makers) -> bool
    ensures { MatchBool result (NamesListed names.now edge.now)
        (NamesListed names.now edge.now → ⊥) }
{
    edge.dyndep
        .as_ref()
        .is_some_and(|file| names.maker_of(file).is_some())
}
