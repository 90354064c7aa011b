//! Scan documents (P1689R5), and the paths of the files of their rules and modules.

ghost use Rattle.std.specs.Prelude.{◌≡◌, ◌||◌, true, Some, IfOk, IfErr, map, option_copied, IsUtf8};
ghost use Rattle.scan_docs.specs.Prelude.{All, AnswersPath, scan_checks, rule_checks, HasOneAnswer};
ghost use Rattle.scan_docs.specs.Prelude.{SettingValue, all_provided_checks, all_required_checks};
ghost use Rattle.scan_docs.specs.Prelude.{AllZip, placed, IsRule, dashed, Option, Answers};
ghost use Rattle.scan_docs.specs.Prelude.{ForSome, ForFault, is_name, rules_of, AreRules, PathText};
ghost use Rattle.scan_docs.specs.Prelude.{view, IsProvidedModule, provided_checks, required_checks};
ghost use Rattle.scan_docs.specs.Prelude.{IsAccepted, IsRefused, IsRuleText, IsRequired, made_file};

use crate::fault::{DocFault, Place, Read, bad_shape, path_at, read_name};
use crate::member::Member;
use crate::shape::{self, read_tree, read_version};
use crate::target_document::Setting;
use document_values::{Name, Rule, SharedNames};
use ninja_text::{Failure, NameEnding, Path, WorkDirectory, place};
use serde_json::Value;
use std::alloc::{AllocError, Global};
use std::marker::Model;

/// The maximum number of rules in a document, and of entries in each list of a rule.
pub const COUNT_LIMIT: usize = 65536;

/// Returns the rules of a scan document (P1689R5), in its order.
///
/// `version` has to be 1 or 0, which some scanners write. The path of a rule's object file, and of
/// a BMI that the document names, is relative to the rule's work directory. If the document does
/// not name the BMI of a module, its path is made of the setting and the module's name. All other
/// members are ignored, among them `revision`, `outputs` and every `source-path`.
///
/// # Errors
///
/// Returns the fault of the first check that fails, or [`Failure::Memory`] if an allocation fails.
pub fn scan(alloc: Global, bytes: &[u8], setting: &Setting) -> Result<Vec<Rule>, Failure<DocFault>>
    ensures accepted { IfOk result (λ rules.
        IsAccepted (scan_checks setting.now) (AreRules setting.now) bytes.now rules.items) }
    ensures refused { IfErr result (ForFault (IsRefused (scan_checks setting.now) bytes.now)) }
    ensures value { IfOk result (λ rules. rules.items ≡ rules_of setting.now bytes.now) }
    ensures text { IfOk result (λ rules. All IsRuleText rules.items) }
    ensures one_answer { HasOneAnswer (scan_checks setting.now) (AreRules setting.now) bytes.now }
{
    let setting = ReducedSetting::of(alloc, setting)?;
    scan_with(alloc, bytes, &setting)
}

/// Does what [`scan`] does, with its errors, for a setting that is reduced once for all scan
/// documents of a target.
pub fn scan_with(
    alloc: Global,
    bytes: &[u8],
    setting: &ReducedSetting,
) -> Result<Vec<Rule>, Failure<DocFault>>
    ensures accepted { IfOk result (λ rules.
        IsAccepted (scan_checks setting.now) (AreRules setting.now) bytes.now rules.items) }
    ensures refused { IfErr result (ForFault (IsRefused (scan_checks setting.now) bytes.now)) }
    ensures value { IfOk result (λ rules. rules.items ≡ rules_of setting.now bytes.now) }
    ensures text { IfOk result (λ rules. All IsRuleText rules.items) }
    ensures one_answer { HasOneAnswer (scan_checks setting.now) (AreRules setting.now) bytes.now }
{
    let tree = read_tree(alloc, bytes)?;
    read_rules(alloc, setting, &tree)
}

#[tactic(auto, unfolding(crate::specs::ScanChecks::scan_checks), using(crate::proofs::Each::both))]
fn read_rules(alloc: Global, setting: &ReducedSetting, tree: &Value) -> Read<Vec<Rule>>
    ensures { Answers (scan_checks setting.now (view tree.now))
        (λ rules. AreRules setting.now (view tree.now) rules.items) result }
{
    let place = Place::Document;
    read_version(tree, &[0, 1])?;
    let rules = shape::required_entries(tree, Member::Rules, place)?;
    if rules.len() > COUNT_LIMIT {
        return Err(Failure::Fault(DocFault::TooLarge { place }));
    }
    let mut names = SharedNames::new(names_of_rules(alloc, rules)?)?;
    let mut found = Vec::with_capacity(alloc, rules.len())?;
    for (index, value) in rules.iter().enumerate() {
        let rule = read_rule(alloc, &mut names, setting, index, value)?;
        found.push(rule)?;
    }
    Ok(found)
}

/// Returns the names of the modules that rules provide and require, in the order of the document.
fn names_of_rules(alloc: Global, rules: &[Value]) -> Result<Vec<u8>, AllocError> {
    let mut names = Vec::new(alloc);
    for rule in rules {
        shape::push_texts(&mut names, rule, Member::Provides, Member::LogicalName)?;
        shape::push_texts(&mut names, rule, Member::Requires, Member::LogicalName)?;
    }
    Ok(names)
}

#[tactic(auto, unfolding(crate::specs::ScanChecks::rule_checks), using(crate::proofs::Each::both))]
fn read_rule(
    alloc: Global,
    names: &mut SharedNames,
    setting: &ReducedSetting,
    index: usize,
    rule: &Value,
) -> Read<Rule>
    ensures { Answers (rule_checks setting.now index (view rule.now))
        (IsRule setting.now (view rule.now)) result }
{
    let place = Place::Rule { rule: index };
    shape::check_object(rule, Member::Rule, place)?;
    let primary_output = shape::text(rule, Member::PrimaryOutput, place)?;
    let work = shape::text(rule, Member::WorkDirectory, place)?;
    let provides = shape::entries(rule, Member::Provides, place)?;
    let requirements = shape::entries(rule, Member::Requires, place)?;
    let Some(output) = primary_output else {
        return Err(Failure::Fault(DocFault::NoPrimaryOutput { place }));
    };
    let directory = RuleDirectory::of(alloc, work)?;
    let object = directory.place(alloc, setting, output, place)?;
    if provides.len() > COUNT_LIMIT || requirements.len() > COUNT_LIMIT {
        return Err(Failure::Fault(DocFault::TooLarge { place }));
    }
    let provided = read_all_provided(alloc, names, setting, &directory, index, provides)?;
    let required = read_all_required(alloc, names, index, requirements)?;
    Ok(Rule {
        object,
        provided,
        required,
    })
}

#[tactic(auto, unfolding(crate::specs::ScanChecks::all_provided_checks))]
fn read_all_provided(
    alloc: Global,
    names: &mut SharedNames,
    setting: &ReducedSetting,
    work: &RuleDirectory,
    rule: usize,
    entries: &[Value],
) -> Read<Vec<(Name, Path)>>
    ensures { Answers (all_provided_checks setting.now work.now rule (map view entries.now))
        (λ found. AllZip (IsProvidedModule setting.now work.now)
        (map view entries.now) found.items) result }
{
    let mut found = Vec::with_capacity(alloc, entries.len())?;
    for (entry, value) in entries.iter().enumerate() {
        let place = Place::Provides { rule, entry };
        let pair = read_provided(alloc, names, setting, work, place, value)?;
        found.push(pair)?;
    }
    Ok(found)
}

#[tactic(auto, unfolding(crate::specs::ScanChecks::provided_checks))]
fn read_provided(
    alloc: Global,
    names: &mut SharedNames,
    setting: &ReducedSetting,
    work: &RuleDirectory,
    place: Place,
    entry: &Value,
) -> Read<(Name, Path)>
    ensures { Answers (provided_checks setting.now work.now place (view entry.now))
        (IsProvidedModule setting.now work.now (view entry.now)) result }
{
    shape::check_object(entry, Member::Entry, place)?;
    let text = shape::required_text(entry, Member::LogicalName, place)?;
    let path = shape::text(entry, Member::CompiledModulePath, place)?;
    let unique = shape::flag(entry, Member::UniqueOnSourcePath, place)?;
    let _ = shape::flag(entry, Member::IsInterface, place)?;
    if unique == Some(true) {
        return Err(Failure::Fault(DocFault::HeaderUnit { place }));
    }
    let name = read_name(alloc, names, text, place)?;
    let file = match path {
        Some(path) => work.place(alloc, setting, path, place)?,
        None => setting.module_file(alloc, text, place)?,
    };
    Ok((name, file))
}

#[tactic(auto, unfolding(crate::specs::ScanChecks::all_required_checks))]
fn read_all_required(
    alloc: Global,
    names: &mut SharedNames,
    rule: usize,
    entries: &[Value],
) -> Read<Vec<Name>>
    ensures { Answers (all_required_checks rule (map view entries.now))
        (λ found. AllZip IsRequired (map view entries.now) found.items) result }
{
    let mut found = Vec::with_capacity(alloc, entries.len())?;
    for (entry, value) in entries.iter().enumerate() {
        let place = Place::Requires { rule, entry };
        let name = read_required(alloc, names, place, value)?;
        found.push(name)?;
    }
    Ok(found)
}

#[tactic(auto, unfolding(crate::specs::ScanChecks::required_checks))]
fn read_required(alloc: Global, names: &mut SharedNames, place: Place, entry: &Value) -> Read<Name>
    ensures { Answers (required_checks place (view entry.now))
        (λ name. IsRequired (view entry.now) name) result }
{
    shape::check_object(entry, Member::Entry, place)?;
    let name = shape::required_text(entry, Member::LogicalName, place)?;
    let unique = shape::flag(entry, Member::UniqueOnSourcePath, place)?;
    let header = match shape::given(entry, Member::LookupMethod).map(Value::as_str) {
        None | Some(Some("by-name")) => false,
        Some(Some("include-angle" | "include-quote")) => true,
        _ => return Err(bad_shape(place, Member::LookupMethod)),
    };
    if unique == Some(true) || header {
        return Err(Failure::Fault(DocFault::HeaderUnit { place }));
    }
    read_name(alloc, names, name, place)
}

/// A setting whose directory and file ending are made canonical once, for all scan documents of a
/// target. The path of a module's file then costs no more for a long one than for a short one.
///
/// The view is the setting.
pub struct ReducedSetting<'s> {
    setting: &'s Setting,
    directory: WorkDirectory<'s>,
    ending: NameEnding<'s>,
}

// Not derived: this saves the prover time (docs/DECISIONS.md, "Code").
impl Drop for ReducedSetting<'_> {
    fn drop(self) {
        let ReducedSetting {
            setting: _,
            directory: _,
            ending: _,
        } = self;
    }
}

impl<'s> Model for ReducedSetting<'s> {
    ghost Value = { SettingValue };

    ghost view = { λ s. s.setting.now };

    ghost invariant = { λ s.
        (s.directory ≡ s.setting.now.module_dir) × (s.ending ≡ s.setting.now.module_ext)
        × IsUtf8 s.setting.now.module_dir × IsUtf8 s.setting.now.module_ext };
}

impl<'s> ReducedSetting<'s> {
    /// Reduces the directory and the ending of a setting. Returns an error if an allocation fails.
    pub fn of(alloc: Global, setting: &'s Setting) -> Result<ReducedSetting<'s>, AllocError>
        ensures { IfOk result (λ reduced. reduced ≡ setting.now) }
    {
        let directory = WorkDirectory::of(alloc, setting.module_dir.as_str().as_bytes())?;
        let ending = NameEnding::of(alloc, setting.module_ext.as_str().as_bytes())?;
        Ok(ReducedSetting {
            setting,
            directory,
            ending,
        })
    }

    /// Returns the path of a module's BMI if the document names none.
    fn module_file(&self, alloc: Global, name: &str, at: Place) -> Read<Path>
        requires { is_name name.now ≡ true }
        ensures { AnswersPath at
            (placed None self.now.build_dir (made_file self.now name.now)) result }
    {
        let setting = self.setting;
        let build = setting.build_dir.as_ref();
        let name = dashed(alloc, name)?;
        let directory = &self.directory;
        let file = directory.place_named(alloc, build, &name, &self.ending);
        path_at(at, file)
    }
}

/// Returns the string with `-` for each `:`.
fn dashed(alloc: Global, text: &str) -> Result<Vec<u8>, AllocError>
    ensures { IfOk result (λ path. path.items ≡ map dashed text.now) }
{
    let mut path = Vec::with_capacity(alloc, text.len())?;
    for byte in text.as_bytes() {
        path.push(if *byte == b':' { b'-' } else { *byte })?;
    }
    Ok(path)
}

/// The work directory of a rule, if it has one, reduced once for all paths of the rule.
struct RuleDirectory<'t> {
    directory: Option<WorkDirectory<'t>>,
}

// Not derived: this saves the prover time (docs/DECISIONS.md, "Code").
impl Drop for RuleDirectory<'_> {
    fn drop(self) {
        let RuleDirectory { directory: _ } = self;
    }
}

impl<'t> Model for RuleDirectory<'t> {
    ghost Value = { Option PathText };

    ghost view = { λ d. d.directory };

    ghost invariant = { λ d. ForSome d.directory IsUtf8 };
}

impl<'t> RuleDirectory<'t> {
    /// Reduces the work directory of a rule.
    fn of(alloc: Global, work: Option<&'t str>) -> Result<RuleDirectory<'t>, AllocError>
        ensures { IfOk result (λ directory. directory ≡ option_copied work.entry) }
    {
        let directory = work.map(|work| WorkDirectory::of(alloc, work.as_bytes()));
        let directory = directory.transpose()?;
        Ok(RuleDirectory { directory })
    }

    /// Returns the canonical path of a path of the rule.
    fn place(&self, alloc: Global, setting: &ReducedSetting, path: &str, at: Place) -> Read<Path>
        ensures { AnswersPath at (placed self.now setting.now.build_dir path.now) result }
    {
        let setting = setting.setting;
        let build = setting.build_dir.as_ref();
        let path = path.as_bytes();
        let file = match &self.directory {
            Some(directory) => directory.place(alloc, build, path),
            None => place(alloc, None, build, path),
        };
        path_at(at, file)
    }
}
