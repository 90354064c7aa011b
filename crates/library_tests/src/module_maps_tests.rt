//! What the styles of maps read, and the maps that there are not.

mod bare;
mod growths;

use crate::common::{name, path, push_line, some, value};
pub(crate) use bare::Bare;
use document_values::Name;
use module_maps::map_lines::{LineForm, pair_in, push_named};
use module_maps::{Clang, Gcc, MapEntry, MapFault, MapStyle, ModuleMap};
use ninja_text::{Failure, Path};
use std::alloc::{AllocError, Global};
use std::test::Fail;

/// A module with this name and this path.
fn pair(alloc: Global, texts: (&str, &str)) -> Result<(Name, Path), Fail> {
    let name = name(alloc, texts.0)?;
    Ok((name, path(alloc, texts.1)?))
}

/// Modules with these names and paths.
fn pairs(alloc: Global, texts: &[(&str, &str)]) -> Result<Vec<(Name, Path)>, Fail> {
    let mut pairs = Vec::new(alloc);
    for text in texts {
        pairs.push(pair(alloc, *text)?)?;
    }
    Ok(pairs)
}

/// References to the names and paths.
fn lent<'p>(
    alloc: Global,
    pairs: &'p [(Name, Path)],
) -> Result<Vec<(&'p Name, &'p Path)>, AllocError> {
    let mut lent = Vec::new(alloc);
    for pair in pairs {
        lent.push((&pair.0, &pair.1))?;
    }
    Ok(lent)
}

/// The map of these modules.
fn map_of<'p>(
    alloc: Global,
    provided: &'p [(Name, Path)],
    needed: &'p [(Name, Path)],
) -> Result<ModuleMap<'p>, Fail> {
    let provided = lent(alloc, provided)?;
    some(ModuleMap::new(provided, lent(alloc, needed)?))
}

/// Appends a line of the entry's name and path.
fn push_entry_text(out: &mut Vec<u8>, entry: &MapEntry) -> Result<(), AllocError> {
    match &entry.name {
        Some(name) => out.extend_from_slice(name.text().as_bytes())?,
        None => out.push(b'-')?,
    }
    out.push(b' ')?;
    push_line(out, entry.path.bytes())
}

/// The entries, one per line.
fn entries_text(alloc: Global, entries: &[MapEntry]) -> Result<Vec<u8>, AllocError> {
    let mut out = Vec::new(alloc);
    for entry in entries {
        push_entry_text(&mut out, entry)?;
    }
    Ok(out)
}

/// The entries of a line of GCC's form and of one of Clang's, which comes after it.
pub(crate) fn entries_of_lines(alloc: Global) -> Result<Vec<u8>, Fail> {
    let mut entries = Vec::new(alloc);
    let pair = some(pair_in(alloc, b' ', b"A mod/A.bmi")?)?;
    push_named(alloc, &mut entries, &[(&pair.0, &pair.1)])?;
    let entry = some(Clang.entry(alloc, &entries, b"-fmodule-file=B=mod/B.bmi")?)?;
    entries.push(entry)?;
    Ok(entries_text(alloc, &entries)?)
}

/// The entry with its name of this module.
fn named_text(alloc: Global, name: &Name, path: &Path) -> Result<Vec<u8>, AllocError> {
    let mut entries = Vec::new(alloc);
    push_named(alloc, &mut entries, &[(name, path)])?;
    entries_text(alloc, &entries)
}

/// The entry of a module that is in a text as a name, `=` and a path.
pub(crate) fn entry_of_pair(alloc: Global) -> Result<Vec<u8>, Fail> {
    let pair = some(pair_in(alloc, b'=', b"M:p=mod/M=p.bmi")?)?;
    Ok(named_text(alloc, &pair.0, &pair.1)?)
}

/// Whether the style writes this text of the map.
fn is_written<M: MapStyle>(
    alloc: Global,
    style: &M,
    map: &ModuleMap<'_>,
    text: &str,
) -> Result<bool, Fail> {
    Ok(value(style.write(alloc, map))?.as_slice() == text.as_bytes())
}

/// Whether the style keeps these entries of the map.
fn are_kept<M: MapStyle>(
    alloc: Global,
    style: &M,
    map: &ModuleMap<'_>,
    entries: &str,
) -> Result<bool, AllocError> {
    let kept = style.keeps(alloc, map)?;
    Ok(entries_text(alloc, &kept)?.as_slice() == entries.as_bytes())
}

/// The entries that the style reads in a text of its form.
fn entries_in<M: MapStyle>(alloc: Global, style: &M, text: &str) -> Result<Vec<u8>, Fail> {
    let entries = value(style.read(alloc, text.as_bytes()))?;
    Ok(entries_text(alloc, &entries)?)
}

/// Whether the style writes this text of the map, keeps these entries of it, and reads them in the
/// text.
fn has_text<M: MapStyle>(
    alloc: Global,
    style: &M,
    map: &ModuleMap<'_>,
    text: &str,
    entries: &str,
) -> Result<bool, Fail> {
    Ok(
        is_written(alloc, style, map, text)?
            && are_kept(alloc, style, map, entries)?
            && entries_in(alloc, style, text)?.as_slice() == entries.as_bytes(),
    )
}

/// The same of the map of an object that provides `A` and needs `B`.
pub(crate) fn is_read_back<M: MapStyle>(
    alloc: Global,
    style: &M,
    text: &str,
    entries: &str,
) -> Result<bool, Fail> {
    let provided = pairs(alloc, &[("A", "mod/A.bmi")])?;
    let needed = pairs(alloc, &[("B", "mod/B.bmi")])?;
    has_text(
        alloc,
        style,
        &map_of(alloc, &provided, &needed)?,
        text,
        entries,
    )
}

/// The number of the first line that the style can't read, if there is one.
fn bad_line<M: MapStyle>(alloc: Global, style: &M, text: &str) -> Result<Option<u64>, AllocError> {
    match style.read(alloc, text.as_bytes()) {
        Err(Failure::Memory) => Err(AllocError),
        Err(Failure::Fault(MapFault::BadMapLine { line })) => Ok(Some(line)),
        _ => Ok(None),
    }
}

/// Whether this is the number of the first line of each text that the style can't read.
fn are_refused<M: MapStyle>(
    alloc: Global,
    style: &M,
    rows: &[(&str, u64)],
) -> Result<bool, AllocError> {
    for (text, line) in rows {
        if bad_line(alloc, style, text)? != Some(*line) {
            return Ok(false);
        }
    }
    Ok(true)
}

/// Texts that are no maps for GCC, and the numbers of their first bad lines.
const NOT_FOR_GCC: &[(&str, u64)] = &[
    ("A mod/A.bmi", 1),
    ("A ./a\n", 1),
    ("A a\n a\n", 2),
    ("A a\n\n", 2),
    ("A a b\n", 1),
];

/// The same for Clang.
const NOT_FOR_CLANG: &[(&str, u64)] = &[
    ("-x c++-module\n", 2),
    ("-x c++-module\n-fmodule-output=a", 2),
    ("-x c++-module\n-fmodule-output=a\n-x c++-module\n", 3),
    ("-fmodule-output=a\n", 1),
    ("-fmodule-file=C=c\n-fmodule-file=B=b\n", 2),
];

#[test]
fn a_text_that_is_no_map_is_refused_at_its_first_bad_line(rt: HostRuntime) -> Result<(), Fail> {
    assert!(rt; are_refused(rt.alloc(), &Gcc, NOT_FOR_GCC)?);
    assert!(rt; are_refused(rt.alloc(), &Clang, NOT_FOR_CLANG)?);
    Ok(())
}

#[test]
fn a_map_can_be_empty(rt: HostRuntime) -> Result<(), Fail> {
    assert!(rt; entries_in(rt.alloc(), &Gcc, "")?.is_empty());
    assert!(rt; entries_in(rt.alloc(), &Clang, "")?.is_empty());
    Ok(())
}

#[test]
fn the_first_equals_sign_ends_a_name(rt: HostRuntime) -> Result<(), Fail> {
    let found = entries_in(rt.alloc(), &Clang, "-fmodule-file=B=a=b\n")?;
    assert!(rt; found.as_slice() == b"B a=b\n".as_slice());
    Ok(())
}

/// Whether the style does not write the map, since its text can't have this path.
fn is_unfit<M: MapStyle>(
    alloc: Global,
    style: &M,
    map: &ModuleMap<'_>,
    text: &str,
) -> Result<bool, AllocError> {
    match style.write(alloc, map) {
        Err(Failure::Memory) => Err(AllocError),
        Err(Failure::Fault(MapFault::MapPath { path })) => Ok(
            !style.fits(map) && path.bytes() == text.as_bytes(),
        ),
        _ => Ok(false),
    }
}

/// The same of every style.
fn fits_no_style(alloc: Global, map: &ModuleMap<'_>, text: &str) -> Result<bool, AllocError> {
    Ok(
        is_unfit(alloc, &Gcc, map, text)?
            && is_unfit(alloc, &Clang, map, text)?
            && is_unfit(alloc, &Bare, map, text)?,
    )
}

#[test]
fn a_path_that_a_map_cannot_have_fits_no_style(rt: HostRuntime) -> Result<(), Fail> {
    let alloc = rt.alloc();
    // two provided modules, which Clang's maps can't have, and two paths that no map can have
    let provided = pairs(alloc, &[("A", "a"), ("B", "b")])?;
    let needed = pairs(alloc, &[("C", "my mods/C"), ("D", "it's")])?;
    let map = map_of(alloc, &provided, &needed)?;
    assert!(rt; fits_no_style(alloc, &map, "my mods/C")?);
    Ok(())
}

/// Whether there is a map of these needed modules.
fn is_map(alloc: Global, needed: &[(&str, &str)]) -> Result<bool, Fail> {
    let needed = pairs(alloc, needed)?;
    Ok(is_rising(alloc, &needed)?)
}

fn is_rising(alloc: Global, needed: &[(Name, Path)]) -> Result<bool, AllocError> {
    let needed = lent(alloc, needed)?;
    Ok(ModuleMap::new(Vec::new(alloc), needed).is_some())
}

#[test]
fn needed_names_rise_strictly(rt: HostRuntime) -> Result<(), Fail> {
    assert!(rt; is_map(rt.alloc(), &[("B", "b"), ("C", "c")])?);
    assert!(rt; !is_map(rt.alloc(), &[("C", "c"), ("B", "b")])?);
    assert!(rt; !is_map(rt.alloc(), &[("B", "b"), ("B", "b")])?);
    Ok(())
}
