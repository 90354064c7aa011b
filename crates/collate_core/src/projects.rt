//! Projects: targets that link earlier ones.
ghost use Rattle.std.specs.Prelude.{◌<◌, ◌≡◌, length, option_copied, option_map, take, MatchOption};
ghost use Rattle.collate_core.specs.Prelude.{lent_texts, linked_infos, project_entries, target_of};
ghost use Rattle.collate_core.specs.Prelude.{table_with, All, AreKnown, AreLinkedInfos, AreRulesOf};
ghost use Rattle.collate_core.specs.Prelude.{AreRulesOfEach, CollatesAndReads, CollatesLinked};
ghost use Rattle.collate_core.specs.Prelude.{CoversLinked, ForFault, HasReadOf, IfErr, IfOk};
ghost use Rattle.collate_core.specs.Prelude.{IfSome, IsKeyOf, IsLinkedRefusal, IsProjectOutcome};
ghost use Rattle.collate_core.specs.Prelude.{IsReadAs, IsTrue, ProjectTargetValue, WasReadAt};

use crate::collating::{Collated, Target, collate_or_refused, written_of};
use crate::fault::{Refusal, RefusedTarget, unless_faulty, without_table};
use crate::reading::{Listed, rules_of_all};
use crate::texts::info_again;
use document_values::{Info, Name, Rule, TargetName};
use module_maps::MapStyle;
use module_table::{Pool, Requirements, Scratch, Table, add_objects, laws};
use ninja_text::Failure;
use scan_docs::{Setting, info_read};
use std::alloc::{AllocError, Global};
use std::collections::BTreeMap;
use std::marker::Model;
use table_keys::{KeyDigest, TableKey};

/// A target of a project to collate: a [`Target`](crate::Target) that links earlier ones by index
/// in place of the info files, which the project writes. It borrows all its parts.
#[derive(Drop)]
pub struct ProjectTarget<'a> {
    pub name: &'a TargetName,
    pub setting: &'a Setting,
    /// The scan documents of its sources.
    pub scans: &'a [Listed<&'a [u8]>],
    /// The indexes of the targets that it links, all of which are to be earlier.
    pub linked: &'a [usize],
    /// The names of the modules that it keeps to itself. A name may be listed twice.
    pub kept: &'a [Name],
}

impl<'a> Model for ProjectTarget<'a> {
    ghost Value = { ProjectTargetValue };

    ghost view = { λ t. record {
      name = t.name.now;
      setting = t.setting.now;
      scans = lent_texts t.scans.now;
      linked = t.linked.now;
      kept = t.kept.now;
    } };
}

/// The collated targets of a project, in order.
#[derive(Drop)]
pub struct ProjectOut {
    pub targets: Vec<Collated>,
}

/// Collates the targets of a project in order, each with the info files of the targets that it
/// links, in the order of `linked`. Otherwise returns the rejection of the first target that has
/// one, with its index: [`Refusal::LinkedLater`], or what [`collate`](crate::collate) reports.
pub fn project<M: MapStyle>(
    alloc: Global,
    targets: &[ProjectTarget<'_>],
    style: Option<&M>,
) -> Result<ProjectOut, Failure<(usize, Refusal)>>
    ensures { IsProjectOutcome M.written M.entries (option_copied style.entry)
        (λ refused. refused) targets.now result }
{
    match project_or_refused(alloc, targets, style) {
        Ok(out) => Ok(out),
        Err(Failure::Memory) => Err(Failure::Memory),
        Err(Failure::Fault((index, target))) => Err(Failure::Fault((index, target.refusal))),
    }
}

/// Does the same as [`project`], and returns what was read of the target with an error, as
/// [`collate_or_refused`](crate::collate_or_refused) does.
pub fn project_or_refused<M: MapStyle>(
    alloc: Global,
    targets: &[ProjectTarget<'_>],
    style: Option<&M>,
) -> Result<ProjectOut, Failure<(usize, RefusedTarget)>>
    ensures outcome { IsProjectOutcome M.written M.entries (option_copied style.entry)
        (λ refused. (refused.0, refused.1.refusal)) targets.now result }
    ensures read { IfErr result (ForFault (λ refused.
        WasReadAt (option_map M.written (option_copied style.entry))
        targets.now refused.0 refused.1.refusal
        (table_with refused.1.objects.items refused.1.infos.items))) }
{
    crate::laws::files_of_a_project_apply_in_any_order();
    crate::laws::maps_have_what_a_project_needs();
    scan_docs::laws::bytes_determine_the_value();
    let linked = linked_targets(alloc, targets)?;
    let mut outs = Vec::new(alloc);
    let read = read_targets(alloc, targets)?;
    let mut pool = Pool::new(alloc, read.key);
    let mut rules = read.rules.into_iter();
    let mut space = Scratch::new(alloc);
    for (index, target) in targets.iter().enumerate() {
        let own = rules.next();
        let is_read = own.is_some() && linked.get(index) == Some(&true);
        match collate_linked(alloc, target, own, is_read, &outs, &pool, &mut space, style) {
            Ok((out, info)) => {
                pool = pool.push(alloc, info)?;
                outs.push(out)?;
            }
            Err(failure) => return Err(failure.map(|refused| (index, refused))),
        }
    }
    Ok(ProjectOut { targets: outs })
}

/// Returns for each target whether another one links it.
fn linked_targets(alloc: Global, targets: &[ProjectTarget<'_>]) -> Result<Vec<bool>, AllocError> {
    let mut is_linked = vec![in alloc; false; targets.len()]?;
    for target in targets {
        for index in target.linked {
            if *index < is_linked.len() {
                is_linked[*index] = true;
            }
        }
    }
    Ok(is_linked)
}

/// The rules of the targets of a project, and the key of all their tables.
#[derive(Drop)]
pub(crate) struct ReadTargets {
    /// The rules of each target before the first whose scan documents are rejected or repeat rules.
    pub rules: Vec<Vec<Rule>>,
    /// Made of all that their tables hold, so that whoever chooses names cannot choose the key.
    pub key: TableKey,
}

/// Reads the scan documents of the targets, up to the first target whose documents are faulty or
/// repeat rules.
pub(crate) fn read_targets(
    alloc: Global,
    targets: &[ProjectTarget<'_>],
) -> Result<ReadTargets, AllocError>
    ensures rules { IfOk result (λ read. AreRulesOfEach targets.now read.rules.items) }
    ensures key { IfOk result (λ read.
        IsKeyOf read.key (project_entries (take (length read.rules.items) targets.now))) }
{
    let mut digest = KeyDigest::new();
    let mut all = Vec::new(alloc);
    for target in targets {
        let read = rules_of_all(alloc, target.setting, target.scans);
        let Some(read) = unless_faulty(read)? else {
            break;
        };
        if read.is_cut {
            break;
        }
        digest.add(target.name.text().as_bytes());
        add_objects(&mut digest, &read.rules);
        all.push(read.rules)?;
    }
    Ok(ReadTargets {
        rules: all,
        key: digest.key(),
    })
}

/// Collates a target with the info files of the targets that it links, all of which have to be
/// earlier. `rules` has its rules, unless its scan documents are rejected. Also returns its own
/// info file as it is read, if it `is_read` later and it is known.
pub(crate) fn collate_linked<M: MapStyle>(
    alloc: Global,
    target: &ProjectTarget<'_>,
    rules: Option<Vec<Rule>>,
    is_read: bool,
    outs: &[Collated],
    pool: &Pool,
    space: &mut Scratch,
    style: Option<&M>,
) -> Result<(Collated, Option<Info>), Failure<RefusedTarget>>
    requires known { AreKnown outs.now pool.now.infos }
    requires rules { IfSome rules
        (λ rules. AreRulesOf target.now.setting target.now.scans rules.items) }
    requires key { IfSome rules (λ rules. CoversLinked pool.now rules.items) }
    ensures collated { IfOk result (λ found. CollatesLinked
        (option_map M.written (option_copied style.entry)) outs.now target.now found.0) }
    ensures known { IfOk result (λ found. IfSome found.1
        (λ info. IsTrue is_read × IsReadAs found.0.info info)) }
    ensures refused { IfErr result (ForFault (λ refused. IsLinkedRefusal
        (option_map M.written (option_copied style.entry))
        outs.now (length outs.now) target.now refused.refusal)) }
    ensures read { IfErr result (ForFault (HasReadOf (target_of outs.now target.now))) }
{
    let Some(infos) = infos_of(alloc, target.linked, outs)? else {
        return Err(Failure::Fault(without_table(alloc, Refusal::LinkedLater)));
    };
    let whole = Target {
        name: target.name,
        setting: target.setting,
        scans: target.scans,
        infos: &infos,
        kept: target.kept,
    };
    let linked = target.linked;
    let found = collate_by_part(alloc, &whole, rules, linked, is_read, pool, space, style)?;
    if let Some(found) = found {
        return Ok(found);
    }
    let infos = infos_once(alloc, linked, outs)?;
    let whole = Target {
        infos: &infos,
        ..whole
    };
    let out = collate_or_refused(alloc, &whole, style)?;
    if !is_read {
        return Ok((out, None));
    }
    let info = unless_faulty(info_read(alloc, out.info()))?;
    Ok((out, info))
}

/// Returns the info files that the targets of these indexes wrote, or `None` if one of them is not
/// earlier.
fn infos_of<'a>(
    alloc: Global,
    linked: &[usize],
    outs: &'a [Collated],
) -> Result<Option<Vec<Listed<&'a [u8]>>>, AllocError>
    ensures { IfOk result (λ found. MatchOption found
        (All (λ k. k < length outs.now) linked.now → ⊥)
        (λ infos. All (λ k. k < length outs.now) linked.now
        × (lent_texts infos.items ≡ linked_infos outs.now linked.now))) }
{
    let mut infos = Vec::new(alloc);
    for target in linked {
        let Some(out) = outs.get(*target) else {
            return Ok(None);
        };
        infos.push(Listed::First(out.info()))?;
    }
    Ok(Some(infos))
}

/// Returns the info files that the targets of these indexes wrote. One that is linked again is
/// listed again, and so is parsed once.
fn infos_once<'a>(
    alloc: Global,
    linked: &[usize],
    outs: &'a [Collated],
) -> Result<Vec<Listed<&'a [u8]>>, AllocError>
    requires { All (λ k. k < length outs.now) linked.now }
    ensures { IfOk result (λ infos. lent_texts infos.items ≡ linked_infos outs.now linked.now) }
{
    let mut infos = Vec::new(alloc);
    let mut known = BTreeMap::new(alloc);
    for (index, target) in linked.iter().enumerate() {
        let info = match known.insert(*target, index)? {
            None => Listed::First(outs[*target].info()),
            Some(first) => {
                known.insert(*target, first)?;
                Listed::Again(first)
            }
        };
        infos.push(info)?;
    }
    Ok(infos)
}

/// Collates a target, which has these rules, by a table of few of the modules that it links.
/// Returns `None` if there are no rules, or if the table of all has to be built, because the target
/// may have a fault.
fn collate_by_part<M: MapStyle>(
    alloc: Global,
    target: &Target<'_>,
    rules: Option<Vec<Rule>>,
    linked: &[usize],
    is_read: bool,
    pool: &Pool,
    space: &mut Scratch,
    style: Option<&M>,
) -> Result<Option<(Collated, Option<Info>)>, AllocError>
    requires infos { AreLinkedInfos pool.now.infos linked.now target.now.infos }
    requires rules { IfSome rules
        (λ rules. AreRulesOf target.now.setting target.now.scans rules.items) }
    requires key { IfSome rules (λ rules. CoversLinked pool.now rules.items) }
    ensures { IfOk result (λ found. IfSome found
        (CollatesAndReads target.now (option_map M.written (option_copied style.entry)) is_read)) }
{
    laws::sound_is_faultless();
    laws::sound_part_is_enough();
    let Some(objects) = rules else {
        return Ok(None);
    };
    // only maps list what linked modules require
    let requirements = match style {
        Some(_) => Requirements::Kept,
        None => Requirements::Omitted,
    };
    let Some(part) = pool.part(alloc, &objects, linked, requirements, space)? else {
        return Ok(None);
    };
    let built = Table::build_or_refused(alloc, objects, part, target.kept, Some(pool.key()));
    let Some(table) = unless_faulty(built)? else {
        return Ok(None);
    };
    let Some(out) = unless_faulty(written_of(alloc, target, &table, style))? else {
        return Ok(None);
    };
    let info = info_again(alloc, target.name, target.kept, &table, out.info(), is_read)?;
    Ok(Some((out, info)))
}
