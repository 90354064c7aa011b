//! Module maps, and styles of them.

ghost use Rattle.std.specs.Prelude.{◌≡◌, ◌↔◌, All, IsTrue, IsOk, IfOk, IsSome, IfSome};
ghost use Rattle.module_maps.specs.Prelude.{lent_pairs, IsModuleMap, ReadsWritten, KeepsPairs};
ghost use Rattle.module_maps.specs.Prelude.{lent_map, IsRising, Gives, MapEntry, MapFault, List};
ghost use Rattle.module_maps.specs.Prelude.{IsModulePair, ModuleMapValue, Result, FaultsAreOfMaps};
ghost use Rattle.module_maps.specs.Prelude.{Text};

use crate::fault::MapFault;
use document_values::Name;
use ninja_text::{Failure, Path};
use std::alloc::{AllocError, Global};
use std::marker::Model;

/// A module that was read from a map: its path, and its name if the style keeps it.
#[derive(Drop)]
pub struct MapEntry {
    pub name: Option<Name>,
    pub path: Path,
}

/// The modules that an object provides and needs, with borrowed names and paths. The names of the
/// needed modules rise.
#[derive(Drop)]
pub struct ModuleMap<'m> {
    provided: Vec<(&'m Name, &'m Path)>,
    needed: Vec<(&'m Name, &'m Path)>,
    /// The number of bytes of all names and paths.
    len: usize,
}

impl<'m> Model for ModuleMap<'m> {
    ghost Value = { ModuleMapValue };

    ghost view = { λ m. lent_map m.provided.items m.needed.items };

    ghost invariant = { λ m. IsModuleMap (lent_map m.provided.items m.needed.items) };
}

impl<'m> ModuleMap<'m> {
    /// Returns the map of these modules, or `None` if the names of the needed modules do not rise
    /// strictly in byte order.
    pub fn new(
        provided: Vec<(&'m Name, &'m Path)>,
        needed: Vec<(&'m Name, &'m Path)>,
    ) -> Option<ModuleMap<'m>>
        ensures map { IfSome result
            (λ map. map ≡ lent_map provided.entry.items needed.entry.items) }
        ensures rising { IsSome result ↔ IsRising (lent_pairs needed.entry.items) }
        ensures is_map { IfSome result IsModuleMap }
    {
        if !is_rising(&needed) {
            return None;
        }
        Some(ModuleMap::of_rising(provided, needed))
    }

    /// Returns the map of these modules. The names of the needed modules have to rise.
    pub fn of_rising(provided: Vec<(&'m Name, &'m Path)>, needed: Vec<(&'m Name, &'m Path)>) -> Self
        requires { IsRising (lent_pairs needed.items) }
        ensures map { result ≡ lent_map provided.entry.items needed.entry.items }
        ensures is_map { IsModuleMap result }
    {
        let len = bytes_in(&provided).saturating_add(bytes_in(&needed));
        ModuleMap {
            provided,
            needed,
            len,
        }
    }

    /// Returns the modules that the object provides, in order of provision.
    pub fn provided(&self) -> &[(&'m Name, &'m Path)]
        ensures pairs { lent_pairs result.now ≡ self.now.provided }
        ensures map { IsModuleMap self.now }
    {
        &self.provided
    }

    /// Returns the modules that the object needs, in byte order of names.
    pub fn needed(&self) -> &[(&'m Name, &'m Path)]
        ensures pairs { lent_pairs result.now ≡ self.now.needed }
        ensures map { IsModuleMap self.now }
    {
        &self.needed
    }

    /// Returns the length of all names and paths, and of a text for each provided or needed module.
    pub(crate) fn text_len(&self, for_provided: &[u8], for_needed: &[u8]) -> usize {
        let provided = self.provided.len().saturating_mul(for_provided.len());
        let needed = self.needed.len().saturating_mul(for_needed.len());
        self.len.saturating_add(provided).saturating_add(needed)
    }
}

/// A style of module maps: how a text tells a compiler the files of modules.
pub trait MapStyle {
    /// The text that the style writes for a map, or why it cannot.
    ghost written: { Self → ModuleMapValue → Result Text MapFault };

    /// What a text of the style keeps of a map.
    ghost kept: { Self → ModuleMapValue → List MapEntry };

    /// The entries that the style reads in a text, or the error of its first bad line.
    ghost entries: { Self → Text → Result (List MapEntry) MapFault };

    /// Returns whether the style can write the map.
    fn fits(&self, map: &ModuleMap<'_>) -> bool
        ensures { IsTrue result ↔ IsOk (written self.now map.now) };

    /// Returns what is left of the map once written and read, or an error if an allocation fails.
    fn keeps(&self, alloc: Global, map: &ModuleMap<'_>) -> Result<Vec<MapEntry>, AllocError>
        ensures { IfOk result (λ found. found.items ≡ kept self.now map.now) };

    /// Returns the text of the map.
    ///
    /// # Errors
    ///
    /// Returns K1 or K2 if and only if the map does not fit, or [`Failure::Memory`] if an
    /// allocation fails.
    fn write(&self, alloc: Global, map: &ModuleMap<'_>) -> Result<Vec<u8>, Failure<MapFault>>
        ensures { Gives (λ text. text.items) result (written self.now map.now) };

    /// Returns the entries of a text.
    ///
    /// # Errors
    ///
    /// Returns the error of the first bad line, or [`Failure::Memory`] if an allocation fails.
    fn read(&self, alloc: Global, text: &[u8]) -> Result<Vec<MapEntry>, Failure<MapFault>>
        ensures { Gives (λ found. found.items) result (entries self.now text.now) };

    /// A map that is not written fails with K1 or K2.
    ghost faults_of_maps: { (s : Self) → FaultsAreOfMaps (written s) };

    /// The text written for a map is read as what the style keeps of the map.
    ghost reads_back: { (s : Self) → ReadsWritten (written s) (kept s) (entries s) };

    /// What the style keeps are the map's paths in order, and each name is that of its pair.
    ghost keeps_pairs: { (s : Self) → KeepsPairs (kept s) };
}

/// Returns the number of bytes of the names and paths. Each of them has been looked at then, so it
/// is known to be a name or a path.
fn bytes_in(pairs: &[(&Name, &Path)]) -> usize
    ensures { All IsModulePair (lent_pairs pairs.now) }
{
    let mut len: usize = 0;
    for pair in pairs {
        let name = pair.0.bytes();
        let path = pair.1.bytes();
        len = len.saturating_add(name.len()).saturating_add(path.len());
    }
    len
}

/// Returns whether the names rise strictly in byte order.
fn is_rising(pairs: &[(&Name, &Path)]) -> bool
    ensures { IsTrue result ↔ IsRising (lent_pairs pairs.now) }
{
    pairs.is_sorted_by(|before, after| before.0 < after.0)
}
