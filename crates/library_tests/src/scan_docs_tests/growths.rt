//! An info that is read and written, a scan document, and names, while `tests/growths.py` fails each allocation in
//! turn. A test returns `AllocError` or `Failure::Memory` if and only if a call did. Every other
//! result has to be the example's.

use crate::common::{name, setting, target_name};
use scan_docs::{Name, ReducedSetting, TargetName, info_read, info_write, scan_with};
use std::alloc::Global;
use std::test::Fail;

/// The info that is read in the document, as it is written.
fn written_again(alloc: Global, document: &[u8]) -> Result<Vec<u8>, Fail> {
    let info = info_read(alloc, document)?;
    Ok(info_write(alloc, &info)?)
}

#[test]
fn an_info_that_is_written(rt: HostRuntime) -> Result<(), Fail> {
    let document =
        br#"{"modules":[{"bmi":"./lib//A.bmi","name":"A","requires":[{"bmi":"b","name":"B"}],"visibility":"public"},{"bmi":"b","name":"B","requires":[],"visibility":"private"}],"target":"t","version":2}"#;
    let wanted =
        br#"{"modules":[{"bmi":"lib/A.bmi","name":"A","requires":[{"bmi":"b","name":"B"}],"visibility":"public"},{"bmi":"b","name":"B","requires":[],"visibility":"private"}],"target":"t","version":2}"#;
    let found = written_again(rt.alloc(), document)?;
    assert!(rt; found.as_slice() == wanted.as_slice());
    Ok(())
}

#[test]
fn a_document_for_a_reduced_setting(rt: HostRuntime) -> Result<(), Fail> {
    let setting = setting(rt.alloc())?;
    let reduced = ReducedSetting::of(rt.alloc(), &setting)?;
    let document = br#"{"version":1,"rules":[{"primary-output":"../b/a.o","work-directory":"/p/c/.",
        "provides":[{"logical-name":"M:x"}]}]}"#;
    let rules = scan_with(rt.alloc(), document, &reduced)?;
    assert!(rt; rules.len() == 1 && rules[0].object.bytes() == b"/p/b/a.o".as_slice());
    let provided = &rules[0].provided;
    assert!(rt; provided.len() == 1 && provided[0].1.bytes() == b"mod/M-x.bmi".as_slice());
    Ok(())
}

#[test]
fn a_name_is_cloned(rt: HostRuntime) -> Result<(), Fail> {
    let module: Name = name(rt.alloc(), "M:p")?;
    assert!(rt; module.clone()? == module);
    let target: TargetName = target_name(rt.alloc(), "t")?;
    assert!(rt; target.clone()? == target);
    Ok(())
}
