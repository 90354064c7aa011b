//! Dyndep files that are checked on a graph at once. Several of them: the rows of `project` with one
//! edge list.

use super::graph_of;
use crate::common::{path, value};
use build_effect::{DyndepFile, orders_after_each};
use dyndep_file::Dyndep;
use ninja_text::Path;
use std::alloc::Global;
use std::test::Fail;

/// Two compilations, each with a dyndep file of its own.
const EDGES: &[u8] =
    b"build a.o: cxx a.cpp || a.dd\n  dyndep = a.dd\nbuild b.o: cxx b.cpp || b.dd\n  dyndep = b.dd\n";

const A_NEEDS_B: &[u8] = b"ninja_dyndep_version = 1\nbuild a.o | A.bmi: dyndep | B.bmi\n";

const B_NEEDS_A: &[u8] = b"ninja_dyndep_version = 1\nbuild b.o | B.bmi: dyndep | A.bmi\n";

const NO_STATEMENT: &[u8] = b"ninja_dyndep_version = 1\n";

fn file<'a>(alloc: Global, name: &'a Path, text: &[u8]) -> Result<DyndepFile<'a>, Fail> {
    let dyndep = value(Dyndep::of(alloc, text))?;
    Ok(DyndepFile { name, dyndep })
}

/// Whether the edges pass with a dyndep file of this name and text.
fn pass_with(alloc: Global, name: &str, text: &[u8]) -> Result<bool, Fail> {
    let name = path(alloc, name)?;
    let files = vec![in alloc; file(alloc, &name, text)?]?;
    Ok(orders_after_each(alloc, &graph_of(alloc, EDGES)?, &files)?)
}

#[test]
fn edges_that_name_no_file_of_the_list(rt: HostRuntime) -> Result<(), Fail> {
    assert!(rt; pass_with(rt.alloc(), "a.dd", A_NEEDS_B)?);
    assert!(rt; pass_with(rt.alloc(), "b.dd", B_NEEDS_A)?);
    assert!(rt; pass_with(rt.alloc(), "c.dd", NO_STATEMENT)?);
    Ok(())
}

#[test]
fn a_statement_of_another_files_edge(rt: HostRuntime) -> Result<(), Fail> {
    assert!(rt; !pass_with(rt.alloc(), "b.dd", A_NEEDS_B)?);
    Ok(())
}
