//! A dyndep file is applied to the edges of a listing, which are then put in order.
use build_effect::{Graph, ListingReader, apply, edge_order};
use dep_order::Sorting;
use dyndep_file::{Dyndep, DyndepReader};
use ninja_text::Path;
use std::alloc::Global;
use std::test::Fail;

/// The edges of a listing.
fn graph(alloc: Global, listing: &[u8]) -> Result<Graph, Fail> {
    let mut reader = ListingReader::new(alloc);
    reader.feed(listing)?;
    Ok(reader.finish()?)
}

/// The statements of a dyndep file.
fn statements(alloc: Global, dyndep: &[u8]) -> Result<Dyndep, Fail> {
    let mut reader = DyndepReader::new(alloc);
    reader.feed(dyndep)?;
    Ok(reader.finish()?)
}

/// The edges after the effect of the dyndep file `t.dd`.
fn after(alloc: Global, graph: &Graph, dyndep: &Dyndep) -> Result<Graph, Fail> {
    let name = Path::of(alloc, b"t.dd")?;
    Ok(apply(alloc, graph, &name, dyndep)?)
}

#[test]
fn a_compilation_waits_for_the_module_that_it_imports(rt: HostRuntime) -> Result<(), Fail> {
    let listing = b"build a.o: cxx a.cpp || t.dd\n  dyndep = t.dd\nbuild B.bmi: cxx b.cpp\n";
    let dyndep = b"ninja_dyndep_version = 1\nbuild a.o: dyndep | B.bmi\n";
    let graph = graph(rt.alloc(), listing)?;
    let graph = after(rt.alloc(), &graph, &statements(rt.alloc(), dyndep)?)?;
    let order = Sorting::Order(vec![in rt.alloc(); 1, 0]?);
    assert!(rt; edge_order(rt.alloc(), &graph)? == order);
    Ok(())
}
