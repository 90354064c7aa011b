//! A style of a caller's own: a path per line, and no names.
ghost use Rattle.std.specs.Prelude.{◌≡◌, ◌++◌, map, IfOk, OnOk};
ghost use Rattle.std.specs.List.{flat_map};
ghost use Rattle.module_maps.specs.Maps.{pairs_of, lent_pairs};
ghost use Rattle.module_maps.specs.MapLines.{ended_line, nameless};

use document_values::Name;
use module_maps::map_lines::{LineForm, first_unfit, path_in, push_nameless, read_lines};
use module_maps::{MapEntry, MapFault, MapStyle, ModuleMap};
use ninja_text::{Failure, Path};
use std::alloc::{AllocError, Global};

pub struct Bare;

impl MapStyle for Bare {
    ghost use Rattle.library_tests.specs.BareMaps.{bare_written, bare_kept, bare_entries};
    ghost use Rattle.library_tests.specs.BareLemmas.{bare-faults, bare-back, bare-pairs};

    ghost written = { λ _ m. bare_written m };

    ghost kept = { λ _ m. bare_kept m };

    ghost entries = { λ _ text. bare_entries text };

    ghost faults_of_maps = { λ s m line is. bare-faults m line };

    ghost reads_back = { λ s m text is e. bare-back m text is e };

    ghost keeps_pairs = { λ s m is. bare-pairs m };

    fn fits(&self, map: &ModuleMap<'_>) -> bool {
        first_unfit(map).is_none()
    }

    fn keeps(&self, alloc: Global, map: &ModuleMap<'_>) -> Result<Vec<MapEntry>, AllocError> {
        let mut entries = Vec::new(alloc);
        push_nameless(alloc, &mut entries, map.provided())?;
        push_nameless(alloc, &mut entries, map.needed())?;
        Ok(entries)
    }

    fn write(&self, alloc: Global, map: &ModuleMap<'_>) -> Result<Vec<u8>, Failure<MapFault>> {
        match first_unfit(map) {
            Some(path) => {
                let path = path.copy(alloc)?;
                Err(Failure::Fault(MapFault::MapPath { path }))
            }
            None => {
                let text = text_of(alloc, map)?;
                Ok(text)
            }
        }
    }

    fn read(&self, alloc: Global, text: &[u8]) -> Result<Vec<MapEntry>, Failure<MapFault>> {
        read_lines(alloc, self, Vec::new(alloc), 1, text)
    }
}

impl LineForm for Bare {
    ghost use Rattle.library_tests.specs.BareMaps.{bare_form};

    ghost form = { λ _. bare_form };

    fn entry(
        &self,
        alloc: Global,
        _entries: &[MapEntry],
        line: &[u8],
    ) -> Result<Option<MapEntry>, AllocError> {
        match path_in(alloc, line)? {
            Some(path) => Ok(Some(MapEntry { name: None, path })),
            None => Ok(None),
        }
    }
}

fn text_of(alloc: Global, map: &ModuleMap<'_>) -> Result<Vec<u8>, AllocError>
    ensures { IfOk result
        (λ text. text.items ≡ flat_map (λ pair. ended_line pair.1) (pairs_of map.now)) }
{
    let mut text = Vec::new(alloc);
    push_paths(&mut text, map.provided())?;
    push_paths(&mut text, map.needed())?;
    Ok(text)
}

fn push_paths(text: &mut Vec<u8>, pairs: &[(&Name, &Path)]) -> Result<(), AllocError>
    ensures { OnOk result
        (text.new.items ≡ text.old.items ++ flat_map (λ pair. ended_line pair.1) (lent_pairs pairs.now)) }
{
    for pair in pairs {
        text.extend_from_slice(pair.1.bytes())?;
        text.push(b'\n')?;
    }
    Ok(())
}
