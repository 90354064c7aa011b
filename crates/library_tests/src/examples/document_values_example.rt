//! A string becomes the name of a module's partition.
use document_values::Name;
use std::test::Fail;

#[test]
fn a_partition_has_one_colon(rt: HostRuntime) -> Result<(), Fail> {
    let partition = Name::of(rt.alloc(), "M:part")?;
    assert!(rt; partition.is_some_and(|name| name.text() == "M:part"));
    assert!(rt; Name::of(rt.alloc(), "M::part")?.is_none());
    Ok(())
}
