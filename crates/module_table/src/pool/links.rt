//! The links of a target, and whether a part of the linked info files is enough for its table.
ghost use Rattle.std.specs.Prelude.{◌≡◌, false, IfNone, IfOk, IfSome, IsTrue, List, slice_get, ℕ};
ghost use Rattle.module_table.specs.Prelude.{AreFit, AreIndexes, AreLinked, AreWords, Has};
ghost use Rattle.module_table.specs.Prelude.{InfoValue, InWord, IsAlike, IsApart, IsClosedAt};
ghost use Rattle.module_table.specs.Prelude.{IsPartOf, IsProvidedFor, IsRowUnlinked, IsSparse};
ghost use Rattle.module_table.specs.Prelude.{IsUnused};
ghost use Rattle.module_table.specs.Prelude.{KeepsRequired, Kept, OnOk, RuleValue, true};

use crate::needed::copy_pair;
use crate::pool::requirements::Requirements;
use crate::pool::rows::{Listed, ModuleAt, Related, Row};
use crate::pool::sets::{Word, put, word_of};
use document_values::{Info, InfoModule, Name, Rule};
use ninja_text::Path;
use std::alloc::{AllocError, Global};

/// The info files that a target links.
#[derive(Clone, Copy)]
pub(crate) struct Links<'a> {
    /// Their indexes in the pool.
    pub linked: &'a [usize],
    /// The index in `linked` of each of them, by its index in the pool. The other indexes are of
    /// earlier targets.
    pub indexes: &'a [usize],
    /// The set of them.
    pub words: &'a [u64],
    ghost are: { AreIndexes linked.now indexes.now },
    ghost have: { AreWords linked.now indexes.now words.now },
}

/// Puts the index in `linked` of each linked info file into `indexes`, by the index of the info
/// file. Returns false if an index is too high or if an info file is linked twice.
pub(crate) fn put_links(linked: &[usize], indexes: &mut Vec<usize>) -> bool
    ensures { IsTrue result → AreIndexes linked.now indexes.new.items }
{
    for (index, info) in linked.iter().enumerate() {
        if *info < indexes.len() {
            indexes[*info] = index;
        }
    }
    for (index, info) in linked.iter().enumerate() {
        if *info >= indexes.len() || indexes[*info] != index {
            return false;
        }
    }
    true
}

/// Makes `words` the set of the linked info files.
pub(crate) fn put_words(
    linked: &[usize],
    indexes: &[usize],
    words: &mut Vec<u64>,
) -> Result<(), AllocError>
    requires { AreIndexes linked.now indexes.now }
    ensures { OnOk result (AreWords linked.now indexes.now words.new.items) }
{
    words.clear();
    for info in linked {
        put(words, word_of(*info))?;
    }
    Ok(())
}

impl Links<'_> {
    /// Returns whether the info file of that index is linked.
    pub(crate) fn has(&self, info: usize) -> bool
        ensures linked { result ≡ true → Has self.now.linked.now info }
        ensures unlinked { result ≡ false → Has self.now.linked.now info → ⊥ }
    {
        match self.indexes.get(info) {
            Some(index) => self.linked.get(*index) == Some(&info),
            None => false,
        }
    }

    /// Returns whether all info files of the word are linked.
    pub(crate) fn has_all(&self, word: Word) -> bool
        ensures { result ≡ true → (k : ℕ) → InWord word k → Has self.now.linked.now k }
    {
        match self.words.get(word.index) {
            Some(bits) => word.bits & *bits == word.bits,
            None => false,
        }
    }

    /// Returns a linked info file of the word, if there is one.
    fn one_of(&self, word: Word) -> Option<usize>
        ensures { IfNone result ((k : ℕ) → InWord word k → Has self.now.linked.now k → ⊥) }
    {
        let both = word.bits & *self.words.get(word.index)?;
        if both == 0 {
            return None;
        }
        let bit = both.trailing_zeros() as usize;
        Some(word.index.saturating_mul(64).saturating_add(bit))
    }

    /// Returns the linked module of a row, if there is one.
    pub(crate) fn module_of(&self, row: Option<&Row>) -> Option<ModuleAt>
        ensures { IfNone result
            (IfSome row.entry (λ row. IsRowUnlinked self.now.linked.now row.now)) }
    {
        let row = row?;
        if self.has(row.first.info) {
            return Some(row.first);
        }
        if self.has(row.last.info) {
            return Some(row.last);
        }
        let Some(middle) = &row.middle else {
            return None;
        };
        for word in &middle.infos {
            if let Some(info) = self.one_of(*word) {
                let found = middle.modules.binary_search_by_key(&info, |at| at.info);
                return Some(match found {
                    Ok(index) => middle.modules[index],
                    Err(_) => row.first,
                });
            }
        }
        None
    }

    /// Returns whether a linked module has this name and file, and this info file may require it.
    fn provides(
        &self,
        infos: &[Option<Info>],
        listed: &Listed,
        info: usize,
        pair: &(Name, Path),
    ) -> bool
        ensures { IsTrue result → IsProvidedFor self.now.linked.now infos.now info pair.now }
    {
        let Some(at) = self.module_of(listed.files.get(&pair.1)) else {
            return false;
        };
        let Some(Some(provider)) = infos.get(at.info) else {
            return false;
        };
        let Some(module) = provider.modules.get(at.module) else {
            return false;
        };
        if !self.has(at.info) {
            return false;
        }
        let is_own = at.info == info;
        if module.name == pair.0 && module.file == pair.1 && (is_own || !module.is_private) {
            return true;
        }
        false
    }

    /// Returns whether linked modules are what the modules of this info file require. If one is not
    /// in a source, another target may have a module with the same name and file.
    fn is_closed(
        &self,
        infos: &[Option<Info>],
        listed: &Listed,
        relations: &Related,
        info: usize,
    ) -> bool
        ensures { IsTrue result → IsClosedAt self.now.linked.now infos.now relations.now info }
    {
        if relations.sources.iter().all(|word| self.has_all(*word)) {
            return true;
        }
        let Some(Some(requiring)) = infos.get(info) else {
            return false;
        };
        for module in &requiring.modules {
            for pair in &module.required {
                if !self.provides(infos, listed, info, pair) {
                    return false;
                }
            }
        }
        true
    }

    /// Returns whether the linked modules require only linked modules and share no name or file.
    pub(crate) fn are_fit(
        &self,
        infos: &[Option<Info>],
        listed: &Listed,
        related: &[Option<Related>],
    ) -> bool
        ensures { IsTrue result → AreFit self.now.linked.now infos.now related.now }
    {
        for info in self.linked {
            let Some(Some(relations)) = related.get(*info) else {
                return false;
            };
            let is_fit = self.is_closed(infos, listed, relations, *info)
                && relations
                    .shared
                    .iter()
                    .all(|word| self.one_of(*word).is_none());
            if !is_fit {
                return false;
            }
        }
        true
    }

    /// Returns whether no linked module has the path, a name or a file of an object.
    pub(crate) fn are_apart(&self, listed: &Listed, objects: &[Rule]) -> bool
        ensures { IsTrue result → (o : ℕ) (rule : RuleValue) → slice_get objects.now o ≡ Some rule
            → IsApart self.now.linked.now listed.now rule }
    {
        for rule in objects {
            if self.module_of(listed.files.get(&rule.object)).is_some() {
                return false;
            }
            for pair in &rule.provided {
                if self.module_of(listed.names.get(&pair.0)).is_some()
                    || self.module_of(listed.files.get(&pair.1)).is_some()
                {
                    return false;
                }
            }
        }
        true
    }
}

/// What [`crate::Pool::part`] keeps from one target to the next, so that its work for a target does
/// not grow with the project. Indexes are never cleared: one counts only if the entry at that index
/// is the one that was looked up.
#[derive(Drop)]
pub struct Scratch {
    /// The index of an info file in the list of links.
    pub(crate) indexes: Vec<usize>,
    /// The set of linked info files, which is put anew for each target.
    pub(crate) words: Vec<u64>,
    pub(crate) picked: Picked,
}

impl Scratch {
    /// Returns an empty scratch.
    pub fn new(alloc: Global) -> Scratch
        ensures { IsUnused result }
    {
        Scratch {
            indexes: Vec::new(alloc),
            words: Vec::new(alloc),
            picked: Picked {
                modules: Vec::new(alloc),
                indexes: Vec::new(alloc),
            },
        }
    }
}

/// The modules that are picked for a target, each once: a sparse set.
#[derive(Drop)]
pub(crate) struct Picked {
    pub(crate) modules: Vec<ModuleAt>,
    /// The index of each of them in `modules`, by info file and by module.
    indexes: Vec<Vec<usize>>,
}

impl Picked {
    /// Picks the linked modules that the objects require, in place of what was picked before. If
    /// `requirements` are kept, also picks what these require, directly or through others.
    pub(crate) fn pick(
        &mut self,
        alloc: Global,
        objects: &[Rule],
        links: &Links<'_>,
        listed: &Listed,
        infos: &[Option<Info>],
        related: &[Option<Related>],
        requirements: Requirements,
    ) -> Result<(), AllocError>
        ensures { OnOk result (IsSparse self.new) }
    {
        self.modules.clear();
        self.indexes.resize_with(infos.len(), || Vec::new(alloc))?;
        for rule in objects {
            for name in &rule.required {
                if let Some(at) = links.module_of(listed.names.get(name)) {
                    self.add(at, infos)?;
                }
            }
        }
        if requirements == Requirements::Omitted {
            return Ok(());
        }
        for next in 0..usize::MAX {
            let Some(at) = self.modules.get(next).copied() else {
                break;
            };
            if let Some(Some(relations)) = related.get(at.info)
                && let Some(required) = relations.required.get(at.module)
                && let Some(Some(info)) = infos.get(at.info)
                && let Some(module) = info.modules.get(at.module)
            {
                for (source, pair) in required.iter().zip(&module.required) {
                    // a source that is not linked has the file of a linked module
                    let linked = if links.has(source.info) {
                        Some(*source)
                    } else {
                        links.module_of(listed.files.get(&pair.1))
                    };
                    if let Some(other) = linked {
                        self.add(other, infos)?;
                    }
                }
            }
        }
        Ok(())
    }

    /// Adds a module of a known info file, if it is not picked.
    fn add(&mut self, at: ModuleAt, infos: &[Option<Info>]) -> Result<(), AllocError>
        requires { IsSparse self.old }
        ensures { OnOk result (IsSparse self.new) }
    {
        let Some(Some(info)) = infos.get(at.info) else {
            return Ok(());
        };
        if at.info >= self.indexes.len() || at.module >= info.modules.len() {
            return Ok(());
        }
        let indexes = &mut self.indexes[at.info];
        if indexes.len() < info.modules.len() {
            indexes.resize(info.modules.len(), 0)?;
        }
        if self.modules.get(indexes[at.module]) == Some(&at) {
            return Ok(());
        }
        indexes[at.module] = self.modules.len();
        self.modules.push(at)?;
        Ok(())
    }
}

/// Returns the linked info files with only the picked modules. Each module has what it requires if
/// that is kept. Returns `None` if a linked info file is not known.
pub(crate) fn part_of(
    alloc: Global,
    infos: &[Option<Info>],
    links: &Links<'_>,
    picked: &[ModuleAt],
    requirements: Requirements,
) -> Result<Option<Vec<Info>>, AllocError>
    ensures { IfOk result (λ found. IfSome found (λ part. (known : List InfoValue)
        × AreLinked infos.now links.now.linked.now known × IsPartOf part.items known
        × (requirements ≡ Kept → KeepsRequired part.items known))) }
{
    let mut part = Vec::with_capacity(alloc, links.linked.len())?;
    for number in links.linked {
        let Some(Some(info)) = infos.get(*number) else {
            return Ok(None);
        };
        part.push(Info {
            target: info.target.copy(alloc)?,
            modules: Vec::new(alloc),
        })?;
    }
    for at in picked {
        if let Some(index) = links.indexes.get(at.info)
            && links.linked.get(*index) == Some(&at.info)
            && let Some(Some(info)) = infos.get(at.info)
            && let Some(module) = info.modules.get(at.module)
        {
            let copy = copy_module(alloc, module, requirements)?;
            part[*index].modules.push(copy)?;
        }
    }
    Ok(Some(part))
}

/// Returns a copy of the module, with what it requires or without.
fn copy_module(
    alloc: Global,
    source: &InfoModule,
    requirements: Requirements,
) -> Result<InfoModule, AllocError>
    ensures alike { IfOk result (λ copy. IsAlike copy source.now) }
    ensures kept { requirements ≡ Kept → IfOk result (λ copy. copy ≡ source.now) }
{
    let mut required = Vec::new(alloc);
    if requirements == Requirements::Kept {
        for pair in &source.required {
            required.push(copy_pair(alloc, &pair.0, &pair.1)?)?;
        }
    }
    Ok(InfoModule {
        name: source.name.copy(alloc)?,
        file: source.file.copy(alloc)?,
        required,
        is_private: source.is_private,
    })
}
