//! The styles of GCC and of Clang.

ghost use Rattle.std.specs.Prelude.{◌≡◌, ◌++◌, ◌-◌, length, slice_get, IfOk, OnOk, flat_map};
ghost use Rattle.module_maps.specs.Prelude.{Gives, lent_pairs, gcc_entries, clang_kept, clang_form};
ghost use Rattle.module_maps.specs.Prelude.{IsWrittenText, lines_of, read_provided, clang_written};
ghost use Rattle.module_maps.specs.Prelude.{output_text, rises_behind, gcc_written, clang_entries};
ghost use Rattle.module_maps.specs.Prelude.{gcc_kept};

use crate::fault::MapFault;
use crate::map_lines::{
    LineEntry, LineForm, cut_line, first_unfit, keep_marked, pair_in, path_in, push_lines,
    push_named, push_nameless, read_lines, read_marked, write_marked,
};
use crate::module_map::{MapEntry, MapStyle, ModuleMap};
use document_values::Name;
use ninja_text::{Failure, Path};
use std::alloc::{AllocError, Global};

/// The style of GCC's module mapper files (GCC manual, "C++ Module Mapper").
///
/// The map has a line with name, space and path for each module. All names are kept. A map fits if
/// no path has a byte below 33, 127, or one of `'`, `"`, `\`.
pub struct Gcc;

impl MapStyle for Gcc {
    ghost use Rattle.std.proofs.Common.{refl};
    ghost use Rattle.ninja_text.specs.Bytes.{space};
    ghost use Rattle.module_maps.specs.map_laws.MarkedLemmas.{marked-faults, marked-back};
    ghost use Rattle.module_maps.specs.map_laws.MarkedLemmas.{marked-pairs};

    ghost written = { λ _ m. gcc_written m };

    ghost kept = { λ _ m. gcc_kept m };

    ghost entries = { λ _ text. gcc_entries text };

    ghost faults_of_maps = { λ s m line is. marked-faults space m line };

    ghost reads_back = { λ s m text is e. marked-back space (refl, refl) m text is e };

    ghost keeps_pairs = { λ s m is. marked-pairs m };

    fn fits(&self, map: &ModuleMap<'_>) -> bool {
        first_unfit(map).is_none()
    }

    fn keeps(&self, alloc: Global, map: &ModuleMap<'_>) -> Result<Vec<MapEntry>, AllocError> {
        keep_marked(alloc, map)
    }

    fn write(&self, alloc: Global, map: &ModuleMap<'_>) -> Result<Vec<u8>, Failure<MapFault>> {
        write_marked(alloc, b' ', map)
    }

    /// Returns the entries of a text, or K4 with the first bad line if no map is written as it.
    fn read(&self, alloc: Global, text: &[u8]) -> Result<Vec<MapEntry>, Failure<MapFault>>
        ensures entries { Gives (λ found. found.items) result (gcc_entries text.now) }
        // The text was written for a map of which these entries are kept.
        ensures written { IfOk result (λ found.
            IsWrittenText gcc_written gcc_kept text.now found.items) }
    {
        read_marked(alloc, b' ', text)
    }
}

/// The style of Clang, for a response file (Clang documentation, "Standard C++ Modules").
///
/// If the object provides a module, the map has the lines `-x c++-module` and
/// `-fmodule-output=PATH`. For each needed module it has a line `-fmodule-file=NAME=PATH`. The name
/// of the provided module is not kept. A map fits if no path needs quotes and at most one module is
/// provided.
pub struct Clang;

impl MapStyle for Clang {
    ghost use Rattle.module_maps.specs.map_laws.ClangLemmas.{clang-faults, clang-back, clang-pairs};

    ghost written = { λ _ m. clang_written m };

    ghost kept = { λ _ m. clang_kept m };

    ghost entries = { λ _ text. clang_entries text };

    ghost faults_of_maps = { λ s m line is. clang-faults m line };

    ghost reads_back = { λ s m text is e. clang-back m text is e };

    ghost keeps_pairs = { λ s m is. clang-pairs m };

    fn fits(&self, map: &ModuleMap<'_>) -> bool {
        map.provided().len() <= 1 && first_unfit(map).is_none()
    }

    fn keeps(&self, alloc: Global, map: &ModuleMap<'_>) -> Result<Vec<MapEntry>, AllocError> {
        let mut kept = Vec::new(alloc);
        push_nameless(alloc, &mut kept, map.provided())?;
        push_named(alloc, &mut kept, map.needed())?;
        Ok(kept)
    }

    fn write(&self, alloc: Global, map: &ModuleMap<'_>) -> Result<Vec<u8>, Failure<MapFault>> {
        if let Some(path) = first_unfit(map) {
            let path = path.copy(alloc)?;
            return Err(Failure::Fault(MapFault::MapPath { path }));
        }
        if map.provided().len() > 1 {
            return Err(Failure::Fault(MapFault::TwoProvided));
        }
        let len = map.text_len(b"-x c++-module\n-fmodule-output=\n", b"-fmodule-file==\n");
        let mut text = Vec::with_capacity(alloc, len)?;
        if let Some(pair) = map.provided().first() {
            text.extend_from_slice(b"-x c++-module\n-fmodule-output=")?;
            text.extend_from_slice(pair.1.bytes())?;
            text.push(b'\n')?;
        }
        push_lines(&mut text, b"-fmodule-file=", b'=', map.needed())?;
        Ok(text)
    }

    /// Returns the entries of a text, or K4 with the first bad line if no map is written as it.
    fn read(&self, alloc: Global, text: &[u8]) -> Result<Vec<MapEntry>, Failure<MapFault>>
        ensures entries { Gives (λ found. found.items) result (clang_entries text.now) }
        // The text was written for a map of which these entries are kept.
        ensures written { IfOk result (λ found.
            IsWrittenText clang_written clang_kept text.now found.items) }
    {
        if let Some((first, rest)) = cut_line(text)
            && first == b"-x c++-module".as_slice()
        {
            return read_provided(alloc, rest);
        }
        read_lines(alloc, &Clang, Vec::new(alloc), 1, text)
    }
}

/// The form of the lines of needed modules.
impl LineForm for Clang {
    ghost form = { λ _. clang_form };

    fn entry(&self, alloc: Global, entries: &[MapEntry], line: &[u8]) -> LineEntry {
        let Some(rest) = line.strip_prefix(b"-fmodule-file=") else {
            return Ok(None);
        };
        match pair_in(alloc, b'=', rest)? {
            Some((name, path)) if rises_behind(entries, &name) => Ok(Some(MapEntry {
                name: Some(name),
                path,
            })),
            _ => Ok(None),
        }
    }
}

/// Reads the lines after `-x c++-module`.
fn read_provided(alloc: Global, text: &[u8]) -> Result<Vec<MapEntry>, Failure<MapFault>>
    ensures { Gives (λ found. found.items) result (read_provided (lines_of text.now)) }
{
    if let Some((line, rest)) = cut_line(text)
        && let Some(output) = line.strip_prefix(b"-fmodule-output=")
        && let Some(path) = path_in(alloc, output)?
    {
        let mut entries = Vec::new(alloc);
        entries.push(MapEntry { name: None, path })?;
        return read_lines(alloc, &Clang, entries, 3, rest);
    }
    Err(Failure::Fault(MapFault::BadMapLine { line: 2 }))
}

/// Returns whether a name comes after the name of the last entry, if it has one.
fn rises_behind(entries: &[MapEntry], name: &Name) -> bool
    ensures { result ≡ rises_behind (slice_get entries.now (length entries.now - 1)) name.now }
{
    let last = entries.last().and_then(|entry| entry.name.as_ref());
    last.is_none_or(|before| before < name)
}
