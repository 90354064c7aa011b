//! Reading the documents that a target lists. A document that it lists again is not parsed again.
ghost use Rattle.std.specs.Prelude.{◌<◌, ◌≡◌, ◌≤◌, ◌⊎◌, ◌+◌, ℕ, length, slice_get, IfErr, IfOk};
ghost use Rattle.std.specs.Prelude.{false, true, All, IfSome, MatchOption, MatchResult, OnOk, Some};
ghost use Rattle.collate_core.specs.Prelude.{all_rules, lent_texts, rule_limit, AreInfosRead};
ghost use Rattle.collate_core.specs.Prelude.{AreScansAccepted, ForFault, ForInfo, ForScan};
ghost use Rattle.collate_core.specs.Prelude.{IsBeginning, IsInfoRefusal, IsRuleText};
ghost use Rattle.collate_core.specs.Prelude.{IsScanRefusal, IsTooLarge};

use crate::fault::Refusal;
use document_values::{Info, Rule};
use ninja_text::Failure;
use scan_docs::{DocFault, Place, ReducedSetting, Setting, info_read, scan_with};
use std::alloc::Global;

/// A document that a target lists.
#[derive(Drop)]
pub enum Listed<B> {
    /// It is listed first here, and these are its bytes.
    First(B),
    /// It is the document that is listed first at this index.
    Again(usize),
}

/// Returns the bytes of the document at this index, and the index at which it was listed before.
fn document_at<'a>(documents: &[Listed<&'a [u8]>], index: usize) -> (&'a [u8], Option<usize>)
    requires { index < length documents.now }
    ensures bytes { slice_get (lent_texts documents.now) index ≡ Some result.0.now }
    ensures before { IfSome result.1 (λ first. (first < index)
        × (slice_get (lent_texts documents.now) first ≡ Some result.0.now)) }
{
    match &documents[index] {
        Listed::First(bytes) => (bytes, None),
        Listed::Again(first) => match documents.get(*first) {
            Some(Listed::First(bytes)) if *first < index => (bytes, Some(*first)),
            Some(Listed::First(bytes)) => (bytes, None),
            Some(Listed::Again(_)) => (b"", None),
            None => (b"", None),
        },
    }
}

/// The maximum number of rules of a target.
pub const RULE_LIMIT: usize = 65536;

/// The rules of scan documents, one document after another.
#[derive(Drop)]
pub(crate) struct ReadRules {
    pub rules: Vec<Rule>,
    /// Whether rules are left out after some that repeat others, which is a fault (M1).
    pub is_cut: bool,
}

/// Returns the rules of all scan documents, up to the first document that repeats rules.
pub(crate) fn rules_of_all(
    alloc: Global,
    setting: &Setting,
    scans: &[Listed<&[u8]>],
) -> Result<ReadRules, Failure<Refusal>>
    ensures accepted { OnOk result (AreScansAccepted setting.now (lent_texts scans.now)) }
    ensures rules { IfOk result (λ read. IsBeginning (λ rule. rule.object)
        read.rules.items (all_rules setting.now (lent_texts scans.now))) }
    ensures whole { IfOk result (λ read. read.is_cut ≡ false →
        read.rules.items ≡ all_rules setting.now (lent_texts scans.now)) }
    ensures text { IfOk result (λ read. All IsRuleText read.rules.items) }
    ensures refused { IfErr result
        (ForFault (ForScan (IsScanRefusal setting.now (lent_texts scans.now)))) }
{
    let reduced = ReducedSetting::of(alloc, setting)?;
    let mut rules = Vec::new(alloc);
    let mut counts = Vec::with_capacity(alloc, scans.len())?;
    let (mut total, mut is_cut) = (0, false);
    for index in 0..scans.len() {
        let (document, before) = document_at(scans, index);
        if let Some(first) = unread(before, &counts, is_cut) {
            let count = counts[first];
            total = raised(total, count, index)?;
            counts.push(count)?;
            continue;
        }
        match scan_with(alloc, document, &reduced) {
            Ok(mut more) => {
                total = raised(total, more.len(), index)?;
                counts.push(more.len())?;
                if is_cut {
                    continue;
                }
                rules.append(&mut more)?;
                is_cut = before.is_some();
            }
            Err(Failure::Memory) => return Err(Failure::Memory),
            Err(Failure::Fault(fault)) => {
                return Err(Failure::Fault(Refusal::Scan { index, fault }));
            }
        }
    }
    Ok(ReadRules { rules, is_cut })
}

/// Returns the index at which a document was listed before, if it is not parsed again: it has no
/// rules, by the numbers of rules of the documents so far, or others are repeated already.
fn unread(before: Option<usize>, counts: &[usize], is_cut: bool) -> Option<usize>
    ensures { MatchOption result (IfSome before (λ first.
        (is_cut ≡ false) × (slice_get counts.now first ≡ Some 0 → ⊥)))
        (λ first. (before ≡ Some first)
        × ((is_cut ≡ true) ⊎ (slice_get counts.now first ≡ Some 0))) }
{
    let first = before?;
    if is_cut || counts.get(first) == Some(&0) {
        Some(first)
    } else {
        None
    }
}

/// Returns the number of rules with those of the document of this index.
fn raised(total: usize, more: usize, index: usize) -> Result<usize, Failure<Refusal>>
    requires { total ≤ rule_limit }
    ensures { MatchResult result (λ sum. (sum ≡ total + more) × (sum ≤ rule_limit))
        (λ failure. (rule_limit < total + more) × IsTooLarge index failure) }
{
    if more > RULE_LIMIT - total {
        let fault = DocFault::TooLarge {
            place: Place::Document,
        };
        return Err(Failure::Fault(Refusal::Scan { index, fault }));
    }
    Ok(total + more)
}

/// Returns the info files of all info documents, up to the first that is listed again.
pub(crate) fn infos_of_all(
    alloc: Global,
    documents: &[Listed<&[u8]>],
) -> Result<Vec<Info>, Failure<Refusal>>
    ensures read { IfOk result (λ infos. AreInfosRead (lent_texts documents.now) infos.items) }
    ensures refused { IfErr result
        (ForFault (ForInfo (IsInfoRefusal (lent_texts documents.now)))) }
{
    let mut infos = Vec::new(alloc);
    let mut is_cut = false;
    for index in 0..documents.len() {
        let (document, before) = document_at(documents, index);
        // It was accepted, and a target name is repeated already, which is a fault (M2).
        if unread(before, &[], is_cut).is_some() {
            continue;
        }
        match info_read(alloc, document) {
            Ok(_) if is_cut => continue,
            Ok(info) => infos.push(info)?,
            Err(Failure::Memory) => return Err(Failure::Memory),
            Err(Failure::Fault(fault)) => {
                return Err(Failure::Fault(Refusal::Info { index, fault }));
            }
        }
        is_cut = before.is_some();
    }
    Ok(infos)
}
