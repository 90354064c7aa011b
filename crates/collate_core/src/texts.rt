//! What is written of a table: the dyndep text of its objects, the info file, and the module maps.
ghost use Rattle.std.specs.Prelude.{◌++◌, ◌<◌, ◌∷◌, ◌≡◌, length, option_copied, option_map};
ghost use Rattle.collate_core.specs.Prelude.{[], All, IfErr, IfOk, IsTrue, List, Ok, OnOk, Some};
ghost use Rattle.collate_core.specs.Prelude.{hasher_of, modules_of, HasSpelled, IfSome};
ghost use Rattle.collate_core.specs.Prelude.{info_of_table, statements_of, AreMaps, StatementValue};
ghost use Rattle.collate_core.specs.Prelude.{is_private_name, map, IsObjectRefusal, IsWriteRefusal};
ghost use Rattle.collate_core.specs.Prelude.{lent_files, module_files, IsTableText, StandsForOnly};
ghost use Rattle.collate_core.specs.Prelude.{IsMapText, IsSpelled, ReadsBack, RuleValue};
ghost use Rattle.collate_core.specs.Prelude.{slice_get, IsKeyOf, IsMapOf, IsReadAs, IsTextOf, Name};
ghost use Rattle.collate_core.specs.Prelude.{text_or_fault, ForFault, IsLineRefusal, IsMapsRefusal};

use crate::fault::Refusal;
use document_values::{Info, Name, Rule, TargetName};
use dyndep_file::{DyndepText, LentStatement, WriteFault, laws};
use indexmap::IndexSet;
use module_maps::{MapFault, MapStyle, ModuleMap, UnwritableMap};
use module_table::{Needs, Resolved, Table};
use ninja_text::{Failure, Path};
use scan_docs::{DOCUMENT_LIMIT, LentInfo, LentModule};
use std::alloc::{AllocError, Global};
use table_keys::{KeyDigest, TableKey};

/// Returns the text of one statement per object, in the order of the objects, or the first
/// statement whose build line is too long. A statement has the files of the modules that the object
/// provides, in order of provision, those that it requires, in order of first mention, and `restat`
/// if it provides any.
pub(crate) fn dyndep_text(alloc: Global, table: &Resolved) -> Result<Vec<u8>, Failure<Refusal>>
    ensures text { IfOk result (λ text. text_or_fault (statements_of table.now) ≡ Ok text.items) }
    ensures meaning { IfOk result (λ text. StandsForOnly text.items (statements_of table.now)) }
    ensures spelled { OnOk result (All HasSpelled (statements_of table.now)) }
    ensures refused { IfErr result (ForFault (IsWriteRefusal (statements_of table.now))) }
{
    laws::the_first_fault_counts();
    let mut text = DyndepText::new(alloc)?;
    let mut outputs = Vec::new(alloc);
    let mut inputs = Vec::new(alloc);
    for (index, rule) in table.objects().iter().enumerate() {
        lend_files(&rule.provided, &mut outputs)?;
        lend_files(table.required(index), &mut inputs)?;
        let statement = LentStatement {
            output: rule.object.bytes(),
            implicit_outputs: &outputs,
            implicit_inputs: &inputs,
            restat: !rule.provided.is_empty(),
        };
        add(&mut text, &statement)?;
    }
    Ok(text.finish())
}

/// Replaces what is in the list with the files of these modules.
fn lend_files<'m>(modules: &'m [(Name, Path)], files: &mut Vec<&'m [u8]>) -> Result<(), AllocError>
    ensures files { OnOk result (lent_files files.new.items ≡ module_files modules.now) }
    ensures spelled { OnOk result (All IsSpelled (lent_files files.new.items)) }
{
    files.clear();
    for module in modules {
        files.push(module.1.bytes())?;
    }
    Ok(())
}

/// Adds a statement to the text. Its paths can be escaped, so only its build line can be too long.
fn add(text: &mut DyndepText, statement: &LentStatement<'_>) -> Result<(), Failure<Refusal>>
    requires { HasSpelled statement.now }
    ensures added { OnOk result ((statements : List StatementValue) →
        IsTextOf statements text.old → IsTextOf (statements ++ statement.now ∷ []) text.new) }
    ensures refused { IfErr result (ForFault (IsLineRefusal text.old.count statement.now)) }
{
    laws::writable_statements_can_only_be_too_long();
    match text.add_writable(statement) {
        Ok(()) => Ok(()),
        Err(Failure::Memory) => Err(Failure::Memory),
        Err(Failure::Fault(WriteFault::StatementTooLong { statement })) => {
            Err(Failure::Fault(Refusal::StatementTooLong { statement }))
        }
        Err(Failure::Fault(_)) => unreachable!(),
    }
}

/// Returns the info file that this text is read as. It is made from the table, so the text is not
/// parsed. Returns `None` if it is not to be read, or if the text is longer than a document may be.
pub(crate) fn info_again(
    alloc: Global,
    name: &TargetName,
    kept: &[Name],
    table: &Table,
    text: &[u8],
    is_read: bool,
) -> Result<Option<Info>, AllocError>
    requires table { IsTableText table.now }
    requires text { ReadsBack (info_of_table name.now kept.now table.now) text.now }
    ensures { IfOk result (λ info. IfSome info
        (λ info. IsTrue is_read × IsReadAs text.now info)) }
{
    module_table::laws::added_files_can_be_ordered();
    scan_docs::laws::bytes_determine_the_value();
    if !is_read || text.len() > DOCUMENT_LIMIT {
        return Ok(None);
    }
    let info = lent_info(alloc, name, kept, table)?;
    Ok(Some(info.to_info(alloc)?))
}

/// Returns the info file of a target of this name, with all parts borrowed. The names in `kept` are
/// private.
pub(crate) fn lent_info<'t>(
    alloc: Global,
    name: &'t TargetName,
    kept: &[Name],
    table: &'t Table,
) -> Result<LentInfo<'t>, AllocError>
    ensures { IfOk result (λ info. info ≡ info_of_table name.now kept.now table.now) }
{
    let private_names = set_of(alloc, kept)?;
    let mut modules = Vec::new(alloc);
    for (index, rule) in table.objects().iter().enumerate() {
        add_modules(
            &private_names.names,
            rule,
            table.required(index),
            &mut modules,
        )?;
    }
    Ok(LentInfo {
        target: name,
        modules,
    })
}

/// A set of names.
struct NameSet {
    names: IndexSet<Name, TableKey>,
}

// Not derived: this saves the prover time (docs/DECISIONS.md, "Code").
impl Drop for NameSet {
    fn drop(self) {
        let NameSet { names: _ } = self;
    }
}

/// Returns the set of these names, with a key that is made of them.
fn set_of(alloc: Global, names: &[Name]) -> Result<NameSet, AllocError>
    ensures names { IfOk result (λ set. (name : Name) →
        is_private_name set.names.keys name ≡ is_private_name names.now name) }
    ensures key { IfOk result (λ set. IsKeyOf (hasher_of set.names) names.now) }
{
    let mut digest = KeyDigest::new();
    for entry in names {
        digest.add(entry.bytes());
    }
    let mut set = NameSet {
        names: IndexSet::with_hasher(alloc, digest.key()),
    };
    for name in names {
        set.names.insert(name.copy(alloc)?)?;
    }
    Ok(set)
}

/// Appends the modules that an object provides. The object requires these modules.
fn add_modules<'t>(
    private_names: &IndexSet<Name, TableKey>,
    rule: &'t Rule,
    required: &'t [(Name, Path)],
    modules: &mut Vec<LentModule<'t>>,
) -> Result<(), AllocError>
    ensures { OnOk result (modules.new.items ≡ modules.old.items
        ++ modules_of private_names.now.keys (rule.now, required.now)) }
{
    for pair in &rule.provided {
        modules.push(LentModule {
            name: &pair.0,
            file: &pair.1,
            required,
            is_private: private_names.contains(&pair.0),
        })?;
    }
    Ok(())
}

/// Returns the text of each object's map, or the fault of the first that has one. Without a style
/// the list is empty.
pub(crate) fn maps_of<M: MapStyle>(
    alloc: Global,
    table: &Table,
    style: Option<&M>,
) -> Result<Vec<Vec<u8>>, Failure<Refusal>>
    ensures maps { IfOk result (λ maps.
        AreMaps table.now (option_map M.written (option_copied style.entry))
        (map (λ m. m.items) maps.items)) }
    ensures refused { IfErr result (ForFault (IsMapsRefusal table.now
        (option_map M.written (option_copied style.entry)))) }
{
    let Some(style) = style else {
        return Ok(Vec::new(alloc));
    };
    let mut needs = table.needs(alloc)?;
    let mut texts = Vec::with_capacity(alloc, table.objects().len())?;
    for object in 0..table.objects().len() {
        texts.push(map_text(alloc, table, &mut needs, object, style)?)?;
    }
    Ok(texts)
}

fn map_text<'t, M: MapStyle>(
    alloc: Global,
    table: &'t Table,
    needs: &mut Needs<'t>,
    object: usize,
    style: &M,
) -> Result<Vec<u8>, Failure<Refusal>>
    requires object { object < length table.now.objects }
    requires needs { needs.old ≡ table.now }
    ensures same { needs.new ≡ needs.old }
    ensures text { IfOk result
        (λ text. (rule : RuleValue) → slice_get table.now.objects object ≡ Some rule →
        IsMapText table.now (M.written style.now) object rule text.items) }
    ensures refused { IfErr result
        (ForFault (IsObjectRefusal table.now (M.written style.now) object)) }
{
    let map = map_of(alloc, table, needs, object)?;
    let fault = match style.write(alloc, &map) {
        Ok(text) => return Ok(text),
        Err(Failure::Memory) => return Err(Failure::Memory),
        Err(Failure::Fault(MapFault::MapPath { path })) => UnwritableMap::MapPath { path },
        Err(Failure::Fault(MapFault::TwoProvided)) => UnwritableMap::TwoProvided,
        // (K4 is what only reading a map finds)
        Err(Failure::Fault(MapFault::BadMapLine { .. })) => unreachable!(),
    };
    Err(Failure::Fault(Refusal::Map { object, fault }))
}

/// Returns the map of an object: the modules that it provides, and all that it needs.
fn map_of<'t>(
    alloc: Global,
    table: &'t Table,
    needs: &mut Needs<'t>,
    object: usize,
) -> Result<ModuleMap<'t>, AllocError>
    requires object { object < length table.now.objects }
    requires needs { needs.old ≡ table.now }
    ensures same { needs.new ≡ needs.old }
    ensures map { IfOk result
        (λ map. (rule : RuleValue) → slice_get table.now.objects object ≡ Some rule →
        IsMapOf table.now object rule map) }
{
    let provided = table.provided(object).iter();
    let provided = provided.map(|pair| (&pair.0, &pair.1)).collect(alloc)?;
    let needed = needs.of(alloc, object)?;
    Ok(ModuleMap::of_rising(provided, needed))
}
