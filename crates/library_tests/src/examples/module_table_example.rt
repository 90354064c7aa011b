//! The modules of two objects are put into a table, and looked up.
use module_table::Table;
use scan_docs::{Setting, scan};
use std::alloc::Global;
use std::test::Fail;

const DOCUMENT: &[u8] = br#"{"version":1,"rules":[
    {"primary-output":"a.o","requires":[{"logical-name":"B"}]},
    {"primary-output":"b.o","provides":[{"logical-name":"B"}]}]}"#;

/// The table of a target's objects, which links no other target and has no private modules.
fn table(alloc: Global, document: &[u8]) -> Result<Table, Fail> {
    let setting = Setting {
        module_dir: String::from_str(alloc, "mod")?,
        module_ext: String::from_str(alloc, ".pcm")?,
        build_dir: None,
    };
    let objects = scan(alloc, document, &setting)?;
    Ok(Table::build(alloc, objects, Vec::new(alloc), &[])?)
}

/// Whether the first object requires `B` alone, of this file.
fn requires_b_alone(table: &Table, file: &[u8]) -> bool {
    if table.objects().is_empty() {
        return false;
    }
    let required = table.required(0);
    required.len() == 1 && required[0].0.text() == "B" && required[0].1.bytes() == file
}

#[test]
fn a_required_module_has_a_file(rt: HostRuntime) -> Result<(), Fail> {
    let table = table(rt.alloc(), DOCUMENT)?;
    assert!(rt; requires_b_alone(&table, b"mod/B.pcm"));
    Ok(())
}
