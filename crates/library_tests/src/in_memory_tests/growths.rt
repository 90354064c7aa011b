//! Runs over files that are values, with each allocation failing in turn.

use crate::in_memory_tests::{INFO_L, NEEDS_B, PROJECT, TARGET_FILES, collates, file};
use in_memory::project_names;
use std::test::Fail;

#[test]
fn a_target(rt: HostRuntime) -> Result<(), Fail> {
    let files = [file("l.json", INFO_L), file("m.ddi", NEEDS_B)];
    assert!(rt; collates(rt.alloc(), &files, TARGET_FILES)?);
    Ok(())
}

#[test]
fn names_of_target_documents(rt: HostRuntime) -> Result<(), Fail> {
    assert!(rt; project_names(rt.alloc(), PROJECT)?.len() == 2);
    Ok(())
}
