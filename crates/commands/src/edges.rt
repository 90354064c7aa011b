//! Dyndep files and edge lists: how they are read, the commands `show`, `effect` and `order`, and
//! the check of the edges that a target document names.

ghost use Rattle.std.specs.Prelude.{◌≡◌, Some};
ghost use Rattle.commands.specs.Prelude.{bytes_of, HasReadDyndep, HasReadListing, IsListingFaultIn};
ghost use Rattle.commands.specs.Prelude.{IsReadFaultIn, ListingTextOf, EffectOfRead, OrderOfRead};
ghost use Rattle.commands.specs.Prelude.{HasFailed, ShowOfRead, ListingOf, EffectRun, EdgesPass};
ghost use Rattle.commands.specs.Prelude.{[], seen, DyndepOf, ShowRun, EffectOf, OrderRun};
ghost use Rattle.commands.specs.Prelude.{IsDyndepRead, IsListingRead, StaysFailed, ForFault};
ghost use Rattle.commands.specs.Prelude.{cycle_error, refusal};
ghost use Rattle.build_effect.specs.ListingReaders.{line_failure};

use crate::answer::push_line;
use crate::folder::PieceReader;
use crate::location::{Document, Located, Location};
use crate::refusal::{cycle_text, edges_fault_text, first_output, joined};
use crate::stop::{self, Output, Stop};
use build_effect::{Graph, ListFault, ListingReader, ListingWriteFault, apply, edge_order};
use collate_core::{Collated, check_edges};
use dep_order::Sorting;
use dyndep_file::{Dyndep, DyndepReader, ReadFault};
use ninja_text::{Failure, Path};
use std::alloc::Global;

/// Runs `show DYNDEP` on the bytes of the dyndep file.
pub fn show(alloc: Global, text: &[u8]) -> Result<Output, Stop>
    ensures { ShowRun text.now [] result }
{
    show_of_read(alloc, Dyndep::of(alloc, text))
}

/// Runs `show` on a dyndep file that was read, of which a line can be too long to be written.
pub(crate) fn show_of_read(alloc: Global, dyndep: DyndepRead) -> Result<Output, Stop>
    ensures { ShowOfRead dyndep [] result }
{
    let dyndep = statements_of(alloc, dyndep)?;
    let text = stop::or_stop(alloc, "", None, dyndep.to_text(alloc))?;
    Ok(Output::text(alloc, text))
}

/// Runs `effect NAME EDGES DYNDEP` on the name and the bytes of the two files.
pub fn effect(alloc: Global, name: &str, edges: &[u8], dyndep: &[u8]) -> Result<Output, Stop>
    ensures { EffectRun name.now edges.now dyndep.now [] result }
{
    let listing = Graph::of(alloc, edges);
    let dyndep = Dyndep::of(alloc, dyndep);
    effect_of_read(alloc, name, &listing, dyndep)
}

/// Runs `effect` once its files were read. The name is checked first, and the dyndep file last.
pub(crate) fn effect_of_read(
    alloc: Global,
    name: &str,
    listing: &ListingRead,
    dyndep: DyndepRead,
) -> Result<Output, Stop>
    ensures { EffectOfRead name.now listing.now dyndep [] result }
{
    let name = stop::or_stop(
        alloc,
        "name: ",
        Some(Document::Name),
        Path::of(alloc, name.as_bytes()),
    )?;
    let old = graph_of(alloc, listing)?;
    let dyndep = statements_of(alloc, dyndep)?;
    let new = graph_after(alloc, old, &name, &dyndep)?;
    let text = listing_text(alloc, &new)?;
    Ok(Output::text(alloc, text))
}

/// Returns the graph after the effect of the dyndep file of this name.
fn graph_after(alloc: Global, old: &Graph, name: &Path, dyndep: &Dyndep) -> Result<Graph, Stop>
    ensures { EffectOf old.now name.now dyndep.now [] result }
{
    match apply(alloc, old, name, dyndep) {
        Ok(graph) => Ok(graph),
        Err(failure) => Err(stop::of_effect(alloc, failure)),
    }
}

/// Returns the edge list of a graph. An edge whose line is too long is named by its first output.
fn listing_text(alloc: Global, graph: &Graph) -> Result<Vec<u8>, Stop>
    ensures { ListingTextOf graph.now [] (seen bytes_of result) }
{
    match graph.to_text(alloc) {
        Ok(text) => Ok(text),
        Err(Failure::Fault(ListingWriteFault::ListingTooLong { edge })) => {
            let output = first_output(graph.edges(), edge);
            let message = joined(alloc, &[b"E9 ListingTooLong ", output]);
            Err(stop::stopped(1, message, Location::coded(b'E', 9)))
        }
        Err(_) => Err(Failure::Memory),
    }
}

/// Runs `order EDGES` on the bytes of the edge list. Each edge is named by its first output, in
/// which control bytes are printed as `?`.
pub fn order(alloc: Global, edges: &[u8]) -> Result<Output, Stop>
    ensures { OrderRun edges.now [] result }
{
    order_of_read(alloc, &Graph::of(alloc, edges))
}

/// Runs `order EDGES` on the edge list, once it was read.
pub(crate) fn order_of_read(alloc: Global, listing: &ListingRead) -> Result<Output, Stop>
    ensures { OrderOfRead listing.now [] result }
{
    let graph = graph_of(alloc, listing)?;
    match edge_order(alloc, graph)? {
        Sorting::Order(order) => {
            let mut text = Vec::new(alloc);
            for edge_index in &order {
                push_line(&mut text, first_output(graph.edges(), *edge_index))?;
            }
            Ok(Output::text(alloc, text))
        }
        Sorting::Cycle(cycle) => Err(of_cycle(alloc, graph, &cycle)),
    }
}

/// Checks that the edges of a list have an order after the effect of a dyndep file.
pub(crate) fn pass_list(
    alloc: Global,
    listing: &ListingRead,
    name: &Path,
    collated: &Collated,
) -> Result<(), Stop>
    ensures { EdgesPass (Some listing.now) name.now collated.now.dyndep [] result }
{
    let graph = graph_of(alloc, listing)?;
    match check_edges(alloc, collated, name, graph) {
        Ok(Sorting::Order(_)) => Ok(()),
        Ok(Sorting::Cycle(cycle)) => Err(of_cycle(alloc, graph, &cycle)),
        Err(failure) => Err(stop::of_effect(alloc, failure)),
    }
}

/// Stops the run at a cycle of edges.
fn of_cycle(alloc: Global, graph: &Graph, cycle: &[usize]) -> Stop
    ensures { ForFault (λ l. l ≡ refusal (cycle_error graph.now cycle.now)) result }
{
    stop::stopped(
        1,
        cycle_text(alloc, graph.edges(), cycle),
        Location::nowhere(),
    )
}

/// The result of reading a dyndep file.
pub(crate) type DyndepRead = Result<Dyndep, Failure<ReadFault>>;

impl PieceReader for DyndepReader {
    type Read = DyndepRead;

    ghost has_read = { HasReadDyndep };

    ghost has_failed = { HasFailed IsReadFaultIn };

    ghost follows = { IsDyndepRead };

    ghost stays = { StaysFailed (λ failure. failure) };

    fn feed(&mut self, piece: &[u8]) -> bool {
        self.feed(piece).is_ok()
    }

    fn finish(self) -> DyndepRead {
        DyndepReader::finish(self)
    }
}

/// Returns the statements of a dyndep file that was read.
pub(crate) fn statements_of(alloc: Global, dyndep: DyndepRead) -> Result<Dyndep, Stop>
    ensures { DyndepOf dyndep [] result }
{
    stop::or_stop(alloc, "", None, dyndep)
}

/// The result of reading an edge list.
pub(crate) type ListingRead = Result<Graph, Failure<ListFault>>;

impl PieceReader for ListingReader {
    type Read = ListingRead;

    ghost has_read = { HasReadListing };

    ghost has_failed = { HasFailed IsListingFaultIn };

    ghost follows = { IsListingRead };

    ghost stays = { StaysFailed line_failure };

    fn feed(&mut self, lines: &[u8]) -> bool {
        self.feed(lines).is_ok()
    }

    fn finish(self) -> ListingRead {
        ListingReader::finish(self)
    }
}

/// Returns the graph of an edge list that was read.
fn graph_of(alloc: Global, listing: &ListingRead) -> Result<&Graph, Stop>
    ensures { ListingOf listing.now [] (seen (λ graph. graph.now) result) }
{
    match listing {
        Ok(graph) => Ok(graph),
        Err(Failure::Memory) => Err(Failure::Memory),
        Err(Failure::Fault(fault)) => {
            let message = edges_fault_text(alloc, fault);
            Err(stop::stopped(1, message, fault.location()))
        }
    }
}
