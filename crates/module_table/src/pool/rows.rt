//! The modules of all info files, by name and by file.
ghost use Rattle.std.specs.Prelude.{◌++◌, ◌∷◌, ◌≡◌, [], IfOk, IfSome, length, OnOk, Some, ℕ};
ghost use Rattle.module_table.specs.Prelude.{AreListed, AreShared, By, get, HasBit, hasher_of};
ghost use Rattle.module_table.specs.Prelude.{InMiddle, InRow, InWords, IsKeyed, IsPut, IsRelated};
ghost use Rattle.module_table.specs.Prelude.{IsSource, key_of, rows_of, StillKeyed, StillListed};

use crate::needed::copy_pair;
use crate::pool::sets::{Word, put, word_of, words_of};
use document_values::{Info, InfoModule, Name};
use indexmap::IndexMap;
use indexmap::map::Entry;
use ninja_text::Path;
use std::alloc::{AllocError, Global};
use std::hash::Hash;
use table_keys::TableKey;

/// A module of an info file: the index of the info file, and the index of the module in it.
#[derive(Clone, Copy, PartialEq, Eq)]
pub(crate) struct ModuleAt {
    pub info: usize,
    pub module: usize,
}

/// The modules of one name, or of one file.
pub(crate) struct Row {
    pub first: ModuleAt,
    pub last: ModuleAt,
    /// Those between the first and the last, if there are any.
    pub middle: Option<Box<Middle>>,
}

// Not derived: this saves the prover time (docs/DECISIONS.md, "Code").
impl Drop for Row {
    fn drop(self) {
        let Row {
            first: _,
            last: _,
            middle: _,
        } = self;
    }
}

/// Modules of a row, by rising index of their info files.
#[derive(Drop)]
pub(crate) struct Middle {
    pub modules: Vec<ModuleAt>,
    /// The set of their info files.
    pub infos: Vec<Word>,
}

pub(crate) struct Listed {
    pub names: IndexMap<Name, Row, TableKey>,
    pub files: IndexMap<Path, Row, TableKey>,
    /// The public modules that share their file with an earlier module, by name and file.
    pub sharing: IndexMap<(Name, Path), ModuleAt, TableKey>,
}

// Not derived: this saves the prover time (docs/DECISIONS.md, "Code").
impl Drop for Listed {
    fn drop(self) {
        let Listed {
            names: _,
            files: _,
            sharing: _,
        } = self;
    }
}

impl Listed {
    pub(crate) fn new(alloc: Global, key: TableKey) -> Listed
        ensures { IsKeyed key result }
    {
        Listed {
            names: IndexMap::with_hasher(alloc, key),
            files: IndexMap::with_hasher(alloc, key),
            sharing: IndexMap::with_hasher(alloc, key),
        }
    }
}

/// Lists the modules of the next info file, which has this index. Adds to `shared` the info files
/// that have one of their names or files, this one too if it has one twice.
pub(crate) fn list_modules(
    alloc: Global,
    info: usize,
    modules: &[InfoModule],
    listed: &mut Listed,
    shared: &mut Vec<u64>,
) -> Result<(), AllocError>
    ensures still { OnOk result (StillListed listed.old listed.new) }
    ensures key { OnOk result (StillKeyed listed.old listed.new) }
    ensures listed { OnOk result ((by : By) → AreListed (key_of by)
        info modules.now (rows_of listed.new by)) }
    ensures shared { OnOk result ((by : By) → AreShared (key_of by)
        info modules.now (rows_of listed.old by) (HasBit shared.new.items)) }
{
    for (module, entry) in modules.iter().enumerate() {
        let at = ModuleAt { info, module };
        let name = entry.name.copy(alloc)?;
        add(alloc, &mut listed.names, name, at, shared)?;
        let file = entry.file.copy(alloc)?;
        let is_shared = add(alloc, &mut listed.files, file, at, shared)?;
        if is_shared && !entry.is_private {
            let pair = copy_pair(alloc, &entry.name, &entry.file)?;
            let _ = listed.sharing.insert(pair, at)?;
        }
    }
    Ok(())
}

/// Adds a module to the row of a key. Returns whether the row has an earlier module. The info files
/// of these are put into `shared`.
fn add<K: Eq + Hash + Drop>(
    alloc: Global,
    rows: &mut IndexMap<K, Row, TableKey>,
    key: K,
    at: ModuleAt,
    shared: &mut Vec<u64>,
) -> Result<bool, AllocError>
    ensures put { OnOk result (IsPut K.eq (get K.eq rows.old) (get K.eq rows.new) key at.info
        (HasBit shared.new.items)) }
    ensures still { OnOk result
        ((k : ℕ) → HasBit shared.old.items k → HasBit shared.new.items k) }
    ensures key { OnOk result (hasher_of rows.new ≡ hasher_of rows.old) }
{
    let entry = rows.entry(key)?;
    let is_new = match &entry {
        Entry::Vacant(_) => true,
        Entry::Occupied(_) => false,
    };
    let row = entry.or_insert(Row {
        first: at,
        last: at,
        middle: None,
    });
    if is_new {
        return Ok(false);
    }
    put_infos(row, shared)?;
    if row.last != row.first {
        let middle = row.middle.take();
        row.middle = Some(with_module(alloc, middle, row.last)?);
    }
    row.last = at;
    Ok(true)
}

/// Puts the info files of a row into a set.
fn put_infos(row: &Row, set: &mut Vec<u64>) -> Result<(), AllocError>
    ensures put { OnOk result ((k : ℕ) → InRow row.now k → HasBit set.new.items k) }
    ensures kept { OnOk result ((k : ℕ) → HasBit set.old.items k → HasBit set.new.items k) }
{
    put(set, word_of(row.first.info))?;
    put(set, word_of(row.last.info))?;
    if let Some(middle) = &row.middle {
        for word in &middle.infos {
            put(set, *word)?;
        }
    }
    Ok(())
}

/// Returns the modules between the first and the last of a row, with one more.
fn with_module(
    alloc: Global,
    middle: Option<Box<Middle>>,
    at: ModuleAt,
) -> Result<Box<Middle>, AllocError>
    ensures added { IfOk result (λ new. InWords new.value.infos.items at.info) }
    ensures kept { IfOk result (λ new. (k : ℕ) → InMiddle middle k
        → InWords new.value.infos.items k) }
{
    let mut middle = match middle {
        Some(middle) => middle,
        None => Box::new(
            alloc,
            Middle {
                modules: Vec::new(alloc),
                infos: Vec::new(alloc),
            },
        )?,
    };
    middle.modules.push(at)?;
    add_info(&mut middle.infos, at.info)?;
    Ok(middle)
}

/// Adds an info file to a set. If it comes after the others, the set has each word once.
fn add_info(set: &mut Vec<Word>, info: usize) -> Result<(), AllocError>
    ensures added { OnOk result (InWords set.new.items info) }
    ensures kept { OnOk result ((k : ℕ) → InWords set.old.items k → InWords set.new.items k) }
{
    let word = word_of(info);
    if let Some(last) = set.last_mut()
        && last.index == word.index
    {
        last.bits = last.bits | word.bits;
        return Ok(());
    }
    set.push(word)?;
    Ok(())
}

/// How an info file is related to the others.
pub(crate) struct Related {
    /// The modules that each of its modules requires.
    pub required: Vec<Vec<ModuleAt>>,
    /// The info files with the modules that it requires, as bits.
    pub sources: Vec<Word>,
    /// The info files before it that have one of its names or files, as bits.
    pub shared: Vec<Word>,
}

// Not derived: this saves the prover time (docs/DECISIONS.md, "Code").
impl Drop for Related {
    fn drop(self) {
        let Related {
            required: _,
            sources: _,
            shared: _,
        } = self;
    }
}

impl Related {
    /// Lists the modules of an info file and returns its relations. Returns `None` if it finds no
    /// info file with a module that is required.
    pub(crate) fn of(
        alloc: Global,
        infos: &[Option<Info>],
        info: &Info,
        listed: &mut Listed,
    ) -> Result<Option<Related>, AllocError>
        ensures still { OnOk result (StillListed listed.old listed.new) }
        ensures key { OnOk result (StillKeyed listed.old listed.new) }
        ensures related { IfOk result (λ found. IfSome found
            (IsRelated infos.now info.now listed.old listed.new)) }
    {
        let mut shared = Vec::new(alloc);
        list_modules(alloc, infos.len(), &info.modules, listed, &mut shared)?;
        let mut required = Vec::with_capacity(alloc, info.modules.len())?;
        let mut sources = Vec::new(alloc);
        for module in &info.modules {
            let mut row = Vec::with_capacity(alloc, module.required.len())?;
            for pair in &module.required {
                let Some(at) = source_of(infos, info, listed, pair) else {
                    return Ok(None);
                };
                put(&mut sources, word_of(at.info))?;
                row.push(at)?;
            }
            required.push(row)?;
        }
        Ok(Some(Related {
            required,
            sources: words_of(alloc, &sources)?,
            shared: words_of(alloc, &shared)?,
        }))
    }
}

/// Returns the module of this name and this file that the info file may require: it is public, or
/// of the info file itself, whose modules come last in their rows.
fn source_of(
    infos: &[Option<Info>],
    info: &Info,
    listed: &Listed,
    pair: &(Name, Path),
) -> Option<ModuleAt>
    ensures { IfSome result (λ at.
        IsSource (infos.now ++ Some info.now ∷ []) (length infos.now) pair.now at.info) }
{
    let row = listed.files.get(&pair.1)?;
    let sharing = listed.sharing.get(pair).copied().unwrap_or(row.last);
    for at in [row.last, row.first, sharing] {
        // the info file comes after the known ones
        let is_own = at.info == infos.len();
        let other = match infos.get(at.info) {
            Some(Some(other)) => other,
            None if is_own => info,
            _ => continue,
        };
        if let Some(module) = other.modules.get(at.module) {
            if module.name == pair.0 && module.file == pair.1 && (is_own || !module.is_private) {
                return Some(at);
            }
        }
    }
    None
}
