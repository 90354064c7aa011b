//! What a dyndep text does to a graph.
ghost use Rattle.collate_core.specs.Prelude.{length, HasEffect, IfOk, List, StandsFor};
ghost use Rattle.collate_core.specs.Prelude.{EdgeNeeds, EdgeValue, IfErr, IsSortingOf, LacksEffect};
ghost use Rattle.collate_core.specs.Prelude.{ForFault, IsOrderedAt, IsReadFaultOf, IsRehearseFault};

use crate::collating::Collated;
use crate::fault::RehearseFault;
use build_effect::{EffectFault, Graph, apply, edge_order};
use dep_order::Sorting;
use dyndep_file::{Dyndep, DyndepReader, ReadFault};
use ninja_text::{Failure, Path};
use std::alloc::Global;

/// Feeds a text to the reader of dyndep files in pieces of these lengths, and applies what it reads
/// to a graph as the dyndep file of that name (Ninja 1.11 manual, "Dynamic dependencies"). A length
/// may be zero, one past the end means the rest, and what remains is the last piece. The result is
/// the same for all lengths: the reader's fault if and only if the text stands for no statements,
/// and otherwise what [`apply`](build_effect::apply) returns for its statements.
pub fn rehearse(
    alloc: Global,
    text: &[u8],
    name: &Path,
    graph: &Graph,
    cuts: &[usize],
) -> Result<Graph, Failure<RehearseFault>>
    ensures effect { IfOk result (HasEffect text.now name.now graph.now) }
    ensures fault { IfErr result (ForFault (IsRehearseFault text.now name.now graph.now)) }
{
    dyndep_file::laws::a_text_stands_for_one_list();
    dyndep_file::laws::a_text_stands_for_a_list_or_has_a_fault();
    match read_pieces(alloc, text, cuts) {
        Ok(dyndep) => apply(alloc, graph, name, &dyndep).map_err(|failure| failure.map(
            |fault| RehearseFault::Effect(fault),
        )),
        Err(Failure::Memory) => Err(Failure::Memory),
        Err(Failure::Fault(fault)) => Err(Failure::Fault(RehearseFault::Read(fault))),
    }
}

/// Applies the dyndep file of a collated target, which has that name, to the graph. Returns an
/// order of the edges after the effect, or the least cycle, or why the file has no effect.
///
/// The result is an order if the graph meets the headline's premises and can be numbered, with the
/// added outputs alone, so that each needed edge has a smaller number than its user, the edges of
/// all objects have one number, and each edge that makes a linked file has a smaller one.
pub fn check_edges(
    alloc: Global,
    collated: &Collated,
    name: &Path,
    graph: &Graph,
) -> Result<Sorting, Failure<EffectFault>>
    ensures sorted { IfOk result (λ sorting.
        (new : List EdgeValue) × HasEffect collated.now.dyndep name.now graph.now new
        × IsSortingOf (length new) (EdgeNeeds new) sorting) }
    ensures ordered { IfOk result (IsOrderedAt collated.now name.now graph.now) }
    ensures fault { IfErr result (ForFault (LacksEffect collated.now.dyndep name.now graph.now)) }
{
    build_effect::laws::statements_have_one_effect();
    build_effect::laws::the_graph_after_a_file_can_be_ordered();
    // the reader accepts the text, because it stands for statements
    let new = match rehearse(alloc, collated.dyndep(), name, graph, &[]) {
        Ok(new) => new,
        Err(Failure::Memory) => return Err(Failure::Memory),
        Err(Failure::Fault(fault)) => match fault {
            RehearseFault::Effect(fault) => return Err(Failure::Fault(fault)),
            RehearseFault::Read(_) => unreachable!(),
        },
    };
    Ok(edge_order(alloc, &new)?)
}

/// Returns the statements of a text that is fed in pieces of these lengths.
fn read_pieces(alloc: Global, text: &[u8], cuts: &[usize]) -> Result<Dyndep, Failure<ReadFault>>
    ensures read { IfOk result (StandsFor text.now) }
    ensures refused { IfErr result (ForFault (IsReadFaultOf text.now)) }
{
    dyndep_file::laws::fault_stays();
    let mut reader = DyndepReader::new(alloc);
    let mut rest = text;
    for cut in cuts {
        let len = if *cut < rest.len() { *cut } else { rest.len() };
        let (piece, more) = rest.split_at(len);
        reader.feed(piece)?;
        rest = more;
    }
    reader.feed(rest)?;
    reader.finish()
}
