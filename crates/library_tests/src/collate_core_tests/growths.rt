//! Targets, projects and rehearsals, while `tests/growths.py` fails each allocation in turn. A test
//! returns `AllocError` or `Failure::Memory` if and only if a call did. Every other result has to
//! be the example's.

use super::rehearsals::{bytewise, checked_order, rehearsed};
use super::{dyndep_alone, project_texts, texts_in_own_style};
use crate::build_effect_tests::{LIBRARY, LIBRARY_AFTER, graph_of, is_order};
use std::test::Fail;

#[test]
fn a_style_of_the_callers_own_is_collated_as_the_others(rt: HostRuntime) -> Result<(), Fail> {
    let wanted =
        "ninja_dyndep_version = 1\nbuild main.o: dyndep | lib/B.bmi\n{\"modules\":[],\"target\":\"t\",\"version\":2}\nmain.o\nlib/B.bmi\n";
    let found = texts_in_own_style(rt.alloc())?;
    assert!(rt; found.as_slice() == wanted.as_bytes());
    Ok(())
}

#[test]
fn the_dyndep_text_alone_has_the_files_of_linked_targets(rt: HostRuntime) -> Result<(), Fail> {
    let found = dyndep_alone(rt.alloc())?;
    let wanted = "ninja_dyndep_version = 1\nbuild main.o: dyndep | lib/B.bmi\n";
    assert!(rt; found.as_slice() == wanted.as_bytes());
    Ok(())
}

#[test]
fn each_target_sees_the_infos_of_those_that_it_links(rt: HostRuntime) -> Result<(), Fail> {
    let wanted =
        "ninja_dyndep_version = 1\nbuild b.o | mod/B.bmi: dyndep\n  restat = 1\n{\"modules\":[{\"bmi\":\"mod/B.bmi\",\"name\":\"B\",\"requires\":[],\"visibility\":\"public\"}],\"target\":\"t0\",\"version\":2}\nb.o\nB mod/B.bmi\nninja_dyndep_version = 1\nbuild main.o: dyndep | mod/B.bmi\n{\"modules\":[],\"target\":\"t1\",\"version\":2}\nmain.o\nB mod/B.bmi\n";
    let found = project_texts(rt.alloc())?;
    assert!(rt; found.as_slice() == wanted.as_bytes());
    Ok(())
}

/// Byte by byte.
#[test]
fn rehearsing(rt: HostRuntime) -> Result<(), Fail> {
    let graph = graph_of(rt.alloc(), LIBRARY)?;
    let cuts = bytewise(rt.alloc())?;
    let found = rehearsed(rt.alloc(), &graph, &cuts)?;
    assert!(rt; found.as_slice() == LIBRARY_AFTER);
    Ok(())
}

#[test]
fn edges_of_a_target(rt: HostRuntime) -> Result<(), Fail> {
    assert!(rt; is_order(&checked_order(rt.alloc())?, &[1, 0, 2]));
    Ok(())
}
