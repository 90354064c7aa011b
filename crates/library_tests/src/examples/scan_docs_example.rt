//! The rules of a scan document are read.
use scan_docs::{Rule, Setting, scan};
use std::alloc::Global;
use std::test::Fail;

/// The rules of a document. Module files are in `mod` and end in `.pcm`.
fn rules(alloc: Global, document: &[u8]) -> Result<Vec<Rule>, Fail> {
    let setting = Setting {
        module_dir: String::from_str(alloc, "mod")?,
        module_ext: String::from_str(alloc, ".pcm")?,
        build_dir: None,
    };
    Ok(scan(alloc, document, &setting)?)
}

#[test]
fn a_rule_has_its_object_and_its_modules(rt: HostRuntime) -> Result<(), Fail> {
    let document = br#"{"version":1,"rules":[{"primary-output":"./m.o",
        "provides":[{"logical-name":"M:part"}]}]}"#;
    let rules = rules(rt.alloc(), document)?;
    assert!(rt; rules.len() == 1 && rules[0].object.bytes() == b"m.o".as_slice());
    let provided = &rules[0].provided;
    assert!(rt; provided.len() == 1 && provided[0].0.text() == "M:part");
    assert!(rt; provided[0].1.bytes() == b"mod/M-part.pcm".as_slice());
    Ok(())
}
