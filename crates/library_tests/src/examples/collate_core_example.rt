//! The dyndep text of a target, and the maps of its objects.
use collate_core::{Collated, Gcc, Listed, MapStyle, Target, collate};
use scan_docs::{Setting, TargetName};
use std::alloc::Global;
use std::test::Fail;

/// What a target collates to that has one scan document and links no other target, with maps for GCC.
fn collated(alloc: Global, name: &TargetName, document: &[u8]) -> Result<Collated, Fail> {
    let setting = Setting {
        module_dir: String::from_str(alloc, "mod")?,
        module_ext: String::from_str(alloc, ".gcm")?,
        build_dir: None,
    };
    let target = Target {
        name,
        setting: &setting,
        scans: &[Listed::First(document)],
        infos: &[],
        kept: &[],
    };
    Ok(collate(alloc, &target, Some(&Gcc))?)
}

const DOCUMENT: &[u8] = br#"{"version":1,"rules":[
    {"primary-output":"a.o","requires":[{"logical-name":"B"}]},
    {"primary-output":"b.o","provides":[{"logical-name":"B"}]}]}"#;

const TEXT: &[u8] = b"ninja_dyndep_version = 1
build a.o: dyndep | mod/B.gcm
build b.o | mod/B.gcm: dyndep
  restat = 1
";

#[test]
fn an_imported_module_is_an_implicit_input_and_in_the_map(rt: HostRuntime) -> Result<(), Fail> {
    let Some(name) = TargetName::of(rt.alloc(), "app")? else {
        return Err(Fail::new("this is the name of no target"));
    };
    let collated = collated(rt.alloc(), &name, DOCUMENT)?;
    assert!(rt; collated.dyndep() == TEXT);
    assert!(rt; collated.maps().len() == 2);
    let entries = Gcc.read(rt.alloc(), &collated.maps()[0])?;
    assert!(rt; entries.len() == 1 && entries[0].path.bytes() == b"mod/B.gcm".as_slice());
    Ok(())
}
