//! A path is made canonical, and escaped as Ninja reads it.
use ninja_text::{Failure, Path, PathFault, escape_into};
use std::alloc::Global;
use std::test::Fail;

/// The canonical path of the text, escaped for a build line.
fn spelled(alloc: Global, text: &[u8]) -> Result<Vec<u8>, Failure<PathFault>> {
    let path = Path::of(alloc, text)?;
    let mut line = Vec::new(alloc);
    escape_into(path.bytes(), &mut line)?;
    Ok(line)
}

#[test]
fn a_path_is_canonical_and_escaped(rt: HostRuntime) -> Result<(), Fail> {
    assert!(rt;
        spelled(rt.alloc(), b"./my mods//A.bmi")?.as_slice() == b"my$ mods/A.bmi".as_slice()
    );
    let empty = Err(Failure::Fault(PathFault::Empty));
    assert!(rt; spelled(rt.alloc(), b"a/..") == empty);
    Ok(())
}
