//! A module map is written for Clang.
use document_values::Name;
use module_maps::{Clang, MapStyle, ModuleMap};
use ninja_text::Path;
use std::alloc::Global;
use std::test::Fail;

/// One module and its file.
fn module(alloc: Global, name: &str, file: &str) -> Result<(Name, Path), Fail> {
    match Name::of(alloc, name)? {
        Some(name) => Ok((name, Path::of(alloc, file.as_bytes())?)),
        None => Err(Fail::new("this is the name of no module")),
    }
}

/// The map of an object that provides one module and needs another.
fn map_of<'p>(
    alloc: Global,
    provided: &'p (Name, Path),
    needed: &'p (Name, Path),
) -> Result<ModuleMap<'p>, Fail> {
    let mut first = Vec::new(alloc);
    first.push((&provided.0, &provided.1))?;
    let mut second = Vec::new(alloc);
    second.push((&needed.0, &needed.1))?;
    match ModuleMap::new(first, second) {
        Some(map) => Ok(map),
        None => Err(Fail::new("the needed names do not rise")),
    }
}

#[test]
fn an_object_that_provides_a_and_needs_b(rt: HostRuntime) -> Result<(), Fail> {
    let a = module(rt.alloc(), "A", "mod/A.pcm")?;
    let b = module(rt.alloc(), "B", "mod/B.pcm")?;
    let map = map_of(rt.alloc(), &a, &b)?;
    let text = b"-x c++-module\n-fmodule-output=mod/A.pcm\n-fmodule-file=B=mod/B.pcm\n".as_slice();
    assert!(rt; Clang.write(rt.alloc(), &map)?.as_slice() == text);
    Ok(())
}
