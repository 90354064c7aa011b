//! Collating a target: its documents make a table, and the objects of the table what is written.
ghost use Rattle.std.specs.Prelude.{◌≡◌, map, option_copied, option_map, IfErr, IfOk, None, Option};
ghost use Rattle.collate_core.specs.Prelude.{lent_texts, table_of, Collates, ForFault, HasReadOf};
ghost use Rattle.collate_core.specs.Prelude.{HasStatements, IsDyndepOf, IsHeadline, IsOfTable};
ghost use Rattle.collate_core.specs.Prelude.{IsRefusal, IsResolved, IsSound, IsTableText};
ghost use Rattle.collate_core.specs.Prelude.{IsTextsRefusal, IsWrittenOf, Ok, OnOk, TargetValue};
ghost use Rattle.collate_core.specs.Prelude.{Turns, Written};

use crate::fault::{Refusal, RefusedTarget, nothing_read, refusal_alone};
use crate::reading::{Listed, infos_of_all, rules_of_all};
use crate::texts::{dyndep_text, lent_info, maps_of};
use document_values::{Name, TargetName};
use module_maps::MapStyle;
use module_table::{RefusedTable, Table};
use ninja_text::{Failure, Path};
use scan_docs::{Setting, lent_info_write};
use std::alloc::{AllocError, Global};
use std::marker::Model;

/// A target to collate: what its target document names (`scan_docs::TargetSpec`), with its
/// documents as bytes. It borrows all its parts, since other targets may have the same info files.
#[derive(Drop)]
pub struct Target<'a> {
    pub name: &'a TargetName,
    pub setting: &'a Setting,
    /// The scan documents of its sources.
    pub scans: &'a [Listed<&'a [u8]>],
    /// The info files of the targets that it links.
    pub infos: &'a [Listed<&'a [u8]>],
    /// The names of the modules that it keeps to itself. A name may be listed twice.
    pub kept: &'a [Name],
}

impl<'a> Model for Target<'a> {
    ghost Value = { TargetValue };

    ghost view = { λ t. record {
      name = t.name.now;
      setting = t.setting.now;
      scans = lent_texts t.scans.now;
      infos = lent_texts t.infos.now;
      kept = t.kept.now;
    } };
}

/// Collates a target: its documents make a table, and the objects of the table make the dyndep
/// file, the info file and, with a style, a map for each object (P1689R5 for the scan documents,
/// the Ninja 1.11 manual, "Dynamic dependencies", for the dyndep file). In every build that names
/// the dyndep file on exactly the objects, the file adds to each object's edge exactly what the
/// object provides and requires: the headline.
///
/// Otherwise returns the first [`Refusal`] of the target, in the order of that type. Unless an
/// allocation fails, there is a result if and only if there is none ([`laws`](crate::laws)).
pub fn collate<M: MapStyle>(
    alloc: Global,
    target: &Target<'_>,
    style: Option<&M>,
) -> Result<Collated, Failure<Refusal>>
    ensures collated { IfOk result
        (Collates target.now (option_map M.written (option_copied style.entry))) }
    ensures headline { IfOk result (IsHeadline target.now) }
    ensures refused { IfErr result (ForFault (IsRefusal target.now
        (option_map M.written (option_copied style.entry)))) }
{
    collate_or_refused(alloc, target, style).map_err(refusal_alone)
}

/// Does the same as [`collate`], and returns what was read of the target with an error, so that a
/// caller who names the objects and info files of the error reads no document twice.
pub fn collate_or_refused<M: MapStyle>(
    alloc: Global,
    target: &Target<'_>,
    style: Option<&M>,
) -> Result<Collated, Failure<RefusedTarget>>
    ensures collated { IfOk result
        (Collates target.now (option_map M.written (option_copied style.entry))) }
    ensures headline { IfOk result (IsHeadline target.now) }
    ensures refused { IfErr result (ForFault (λ refused. IsRefusal target.now
        (option_map M.written (option_copied style.entry)) refused.refusal)) }
    ensures read { IfErr result (ForFault (HasReadOf target.now)) }
{
    crate::laws::headline();
    let table = table_of(alloc, target)?;
    match written_of(alloc, target, &table, style) {
        Ok(collated) => Ok(collated),
        Err(failure) => Err(failure.map(|refusal| {
            let (objects, infos) = table.into_resolved().into_parts();
            RefusedTarget {
                refusal,
                objects,
                infos,
            }
        })),
    }
}

/// Returns what is written for a target whose table is sound.
pub(crate) fn written_of<M: MapStyle>(
    alloc: Global,
    target: &Target<'_>,
    table: &Table,
    style: Option<&M>,
) -> Result<Collated, Failure<Refusal>>
    requires sound { IsSound table.now }
    requires text { IsTableText table.now }
    ensures written { IfOk result (IsWrittenOf target.now
        (option_map M.written (option_copied style.entry)) table.now) }
    ensures refused { IfErr result (ForFault (IsTextsRefusal table.now
        (option_map M.written (option_copied style.entry)))) }
{
    module_table::laws::added_files_can_be_ordered();
    let text = dyndep_text(alloc, table.resolved())?;
    let maps = maps_of(alloc, table, style)?;
    let info = lent_info(alloc, target.name, target.kept, table)?;
    let parts = CollatedParts {
        dyndep: text,
        info: lent_info_write(alloc, &info)?,
        objects: objects_of(alloc, table)?,
        maps,
    };
    Ok(Collated { parts })
}

/// Collates a target to its dyndep text alone: the text that [`collate`] without a style returns,
/// or its [`Refusal`]. It writes no info file, so it takes less time and less memory.
pub fn collate_dyndep(alloc: Global, target: &Target<'_>) -> Result<Vec<u8>, Failure<Refusal>>
    ensures dyndep { IfOk result (λ text. IsDyndepOf target.now text.items) }
    ensures refused { IfErr result (ForFault (IsRefusal target.now None)) }
{
    collate_dyndep_or_refused(alloc, target).map_err(refusal_alone)
}

/// Does the same as [`collate_dyndep`], and returns what [`collate_or_refused`] does with an error.
pub fn collate_dyndep_or_refused(
    alloc: Global,
    target: &Target<'_>,
) -> Result<Vec<u8>, Failure<RefusedTarget>>
    ensures dyndep { IfOk result (λ text. IsDyndepOf target.now text.items) }
    ensures refused { IfErr result
        (ForFault (λ refused. IsRefusal target.now None refused.refusal)) }
    ensures read { IfErr result (ForFault (HasReadOf target.now)) }
{
    crate::laws::headline();
    module_table::laws::added_files_can_be_ordered();
    // The contract is also about the info file, which is not written.
    scan_docs::laws::info_reads_back();
    scan_docs::laws::target_names_are_valid(target.name);
    let table = table_of(alloc, target)?;
    let resolved = table.into_resolved();
    match dyndep_text(alloc, &resolved) {
        Ok(dyndep) => Ok(dyndep),
        Err(failure) => Err(nothing_read(alloc, failure)),
    }
}

/// Returns copies of the paths of a table's objects.
fn objects_of(alloc: Global, table: &Table) -> Result<Vec<Path>, AllocError>
    ensures { IfOk result (λ objects. objects.items ≡ map (λ rule. rule.object) table.now.objects) }
{
    let mut objects = Vec::new(alloc);
    for rule in table.objects() {
        objects.push(rule.object.copy(alloc)?)?;
    }
    Ok(objects)
}

/// The files of a target. The headline theorem holds for its dyndep text. Only
/// [`collate`](crate::collate) and [`project`](crate::project) make one.
pub struct Collated {
    parts: CollatedParts,
}

// Not derived: this saves the prover time (docs/DECISIONS.md, "Code").
impl Drop for Collated {
    fn drop(self) {
        let Collated { parts: _ } = self;
    }
}

/// The parts of a [`Collated`] by value, so that the texts are written without a copy.
#[derive(Drop)]
pub struct CollatedParts {
    /// The text of the dyndep file.
    pub dyndep: Vec<u8>,
    /// The text of the info file.
    pub info: Vec<u8>,
    /// The objects, by index.
    pub objects: Vec<Path>,
    /// The text of each object's map. Without a style the list is empty.
    pub maps: Vec<Vec<u8>>,
}

impl Model for Collated {
    ghost use Rattle.collate_core.specs.Values.{CollatedValue, collated_of};
    ghost use Rattle.collate_core.specs.Headline.{HasStatements};

    ghost Value = { CollatedValue };

    ghost view = { λ c. collated_of c.parts };

    ghost invariant = { λ c. HasStatements (collated_of c.parts) };
}

impl Collated {
    /// Returns the text of the dyndep file.
    pub fn dyndep(&self) -> &[u8]
        ensures bytes { result.now ≡ self.now.dyndep }
        ensures statements { HasStatements self.now }
    {
        &self.parts.dyndep
    }

    /// The text of the info file.
    pub fn info(&self) -> &[u8]
        ensures { result.now ≡ self.now.info }
    {
        &self.parts.info
    }

    /// Returns the objects, by index.
    pub fn objects(&self) -> &[Path]
        ensures { result.now ≡ self.now.objects }
    {
        &self.parts.objects
    }

    /// The text of each object's map. Without a style the list is empty.
    pub fn maps(&self) -> &[Vec<u8>]
        ensures { map (λ m. m.items) result.now ≡ self.now.maps }
    {
        &self.parts.maps
    }

    /// Consumes the value and returns its parts.
    pub fn into_parts(self) -> CollatedParts
        ensures dyndep { result.dyndep.items ≡ self.dyndep }
        ensures info { result.info.items ≡ self.info }
        ensures objects { result.objects.items ≡ self.objects }
        ensures maps { map (λ m. m.items) result.maps.items ≡ self.maps }
    {
        let Collated { parts } = self;
        parts
    }
}

/// Returns the table of the target's documents, or the fault of the first document that has one, or
/// of the table.
pub(crate) fn table_of(alloc: Global, target: &Target<'_>) -> Result<Table, Failure<RefusedTarget>>
    ensures table { IfOk result (λ table. table ≡ table_of target.now) }
    ensures resolved { OnOk result (IsResolved target.now) }
    ensures text { IfOk result IsTableText }
    // whatever the style, since maps come later
    ensures refused { IfErr result (ForFault (λ refused.
        (style : Option Written) → IsRefusal target.now style refused.refusal)) }
    ensures read { IfErr result (ForFault (HasReadOf target.now)) }
{
    module_table::laws::a_repetition_is_reported();
    let read = match rules_of_all(alloc, target.setting, target.scans) {
        Ok(read) => read,
        Err(failure) => return Err(nothing_read(alloc, failure)),
    };
    let infos = match infos_of_all(alloc, target.infos) {
        Ok(infos) => infos,
        Err(failure) => return Err(nothing_read(alloc, failure)),
    };
    Table::build_or_refused(alloc, read.rules, infos, target.kept, None).map_err(of_table)
}

/// Returns the failure of a target whose table has a fault.
fn of_table(failure: Failure<RefusedTable>) -> Failure<RefusedTarget>
    ensures { Turns IsOfTable failure result }
{
    failure.map(|refused| RefusedTarget {
        refusal: Refusal::Table {
            fault: refused.fault,
        },
        objects: refused.objects,
        infos: refused.infos,
    })
}
