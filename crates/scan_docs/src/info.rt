//! Info documents: what a target tells the targets that link it. They are read and written.

ghost use Rattle.std.specs.Prelude.{◌≡◌, Some, Ok, IfOk, IfErr, OnOk};
ghost use Rattle.scan_docs.specs.Prelude.{ForFault, IsModule, path_of, Answers, info_of, ReadsBack};
ghost use Rattle.scan_docs.specs.Prelude.{privacy, IsAccepted, IsInfoText, SendsValue, ModuleValue};
ghost use Rattle.scan_docs.specs.Prelude.{info_text, info_tree, SendsText, InfoValue, IsRefused};
ghost use Rattle.scan_docs.specs.Prelude.{info_checks, view, module_tree, IsSoundInfo, IsSoundPair};
ghost use Rattle.scan_docs.specs.Prelude.{text, IsRequirement, BeginsNamedFile, named_file_checks};
ghost use Rattle.scan_docs.specs.Prelude.{IsInfo, IsText};
ghost use Rattle.scan_docs.specs.Prelude.{requirement_checks, entry_shape_checks, visibility_check};
ghost use Rattle.scan_docs.specs.Prelude.{module_checks, IsSoundModule, HasOneAnswer, IsModuleText};
ghost use Rattle.scan_docs.specs.declared.member.Member.TheVariants as m;

use crate::fault::{DocFault, Place, Read, bad_shape, path_at, read_name};
use crate::member::Member;
use crate::shape::{self, read_tree, read_version};
use crate::target_document::read_target_name;
use document_values::{Info, InfoModule, Name, SharedNames, TargetName};
use ninja_text::{Failure, Path};
use serde::{Described, Serialize, Serializer};
use serde_json::Value;
use std::alloc::{AllocError, Global};
use std::marker::Model;

/// Returns the info of an info document.
///
/// Versions 1 and 2 are read. In version 1 every module is public, and `visibility` is ignored. Two
/// modules may have the same name here.
///
/// # Errors
///
/// Returns the fault of the first check that fails, or [`Failure::Memory`] if an allocation fails.
pub fn info_read(alloc: Global, bytes: &[u8]) -> Result<Info, Failure<DocFault>>
    ensures accepted { IfOk result (λ info. IsAccepted info_checks IsInfo bytes.now info) }
    ensures refused { IfErr result (ForFault (IsRefused info_checks bytes.now)) }
    ensures value { IfOk result (λ info. info ≡ info_of bytes.now) }
    ensures text { IfOk result IsInfoText }
    ensures one_answer { HasOneAnswer info_checks IsInfo bytes.now }
{
    let tree = read_tree(alloc, bytes)?;
    read_info(alloc, &tree)
}

#[tactic(auto, unfolding(crate::specs::InfoChecks::info_checks), using(crate::proofs::Each::both))]
fn read_info(alloc: Global, tree: &Value) -> Read<Info>
    ensures { Answers (info_checks (view tree.now)) (λ info. IsInfo (view tree.now) info) result }
{
    let version = read_version(tree, &[1, 2])?;
    let target = read_target_name(alloc, tree)?;
    let values = shape::required_entries(tree, Member::Modules, Place::Document)?;
    let mut names = SharedNames::new(names_of_modules(alloc, values)?)?;
    let mut modules = Vec::with_capacity(alloc, values.len())?;
    for (index, value) in values.iter().enumerate() {
        let entry = read_module(alloc, &mut names, version == 2, index, value)?;
        modules.push(entry)?;
    }
    Ok(Info { target, modules })
}

/// Returns the names of modules and of the modules that they require, in the order of the document.
fn names_of_modules(alloc: Global, modules: &[Value]) -> Result<Vec<u8>, AllocError> {
    let mut names = Vec::new(alloc);
    for module in modules {
        shape::push_text(&mut names, module, Member::Name)?;
        shape::push_texts(&mut names, module, Member::Requires, Member::Name)?;
    }
    Ok(names)
}

#[tactic(auto, unfolding(crate::specs::Prelude::module_checks), using(crate::proofs::Each::both))]
fn read_module(
    alloc: Global,
    names: &mut SharedNames,
    with_visibility: bool,
    number: usize,
    value: &Value,
) -> Read<InfoModule>
    ensures { Answers (module_checks with_visibility number (view value.now))
        (λ found. IsModule with_visibility (view value.now) found) result }
{
    let place = Place::Module { number };
    let texts = read_entry_texts(place, value)?;
    let requirements = shape::required_entries(value, Member::Requires, place)?;
    let is_private = read_visibility(with_visibility, place, value)?;
    let (name, file) = read_named_file(alloc, names, place, texts)?;
    let mut required = Vec::with_capacity(alloc, requirements.len())?;
    for (entry, requirement) in requirements.iter().enumerate() {
        let place = Place::ModuleRequires { number, entry };
        let pair = read_requirement(alloc, names, place, requirement)?;
        required.push(pair)?;
    }
    Ok(InfoModule {
        name,
        file,
        required,
        is_private,
    })
}

#[tactic(auto, unfolding(crate::specs::InfoChecks::entry_shape_checks))]
fn read_entry_texts(place: Place, value: &Value) -> Read<(&str, &str)>
    ensures { Answers (entry_shape_checks place (view value.now))
        (λ found. (text m.Name (view value.now) ≡ Some found.0.now)
        × (text m.Bmi (view value.now) ≡ Some found.1.now)) result }
{
    shape::check_object(value, Member::Entry, place)?;
    let path = shape::required_text(value, Member::Bmi, place)?;
    let name = shape::required_text(value, Member::Name, place)?;
    Ok((name, path))
}

/// Returns whether the module is private.
#[tactic(auto, unfolding(crate::specs::InfoChecks::visibility_check))]
fn read_visibility(with_visibility: bool, place: Place, value: &Value) -> Read<bool>
    ensures { Answers (visibility_check with_visibility place (view value.now))
        (λ is_private. privacy with_visibility (view value.now) ≡ Some is_private) result }
{
    if !with_visibility {
        return Ok(false);
    }
    match shape::given(value, Member::Visibility).and_then(Value::as_str) {
        Some("private") => Ok(true),
        Some("public") => Ok(false),
        _ => Err(bad_shape(place, Member::Visibility)),
    }
}

#[tactic(auto, using(crate::proofs::Exact::requirement_parts))]
fn read_requirement(
    alloc: Global,
    names: &mut SharedNames,
    place: Place,
    value: &Value,
) -> Read<(Name, Path)>
    ensures { Answers (requirement_checks place (view value.now))
        (IsRequirement (view value.now)) result }
{
    let texts = read_entry_texts(place, value)?;
    read_named_file(alloc, names, place, texts)
}

/// Returns the name and the file of a module, of their texts.
#[tactic(auto, unfolding(crate::specs::InfoChecks::named_file_checks))]
fn read_named_file(
    alloc: Global,
    names: &mut SharedNames,
    place: Place,
    texts: (&str, &str),
) -> Read<(Name, Path)>
    ensures { Answers (named_file_checks place texts.entry.0.now texts.entry.1.now)
        (λ pair. (pair.0 ≡ texts.entry.0.now) × (path_of texts.entry.1.now ≡ Ok pair.1)
        × IsText pair.1) result }
{
    let (name, path) = texts;
    let name = read_name(alloc, names, name, place)?;
    let file = path_at(place, Path::of(alloc, path.as_bytes()))?;
    Ok((name, file))
}

/// A module of a [`LentInfo`].
#[derive(Drop)]
pub struct LentModule<'a> {
    pub name: &'a Name,
    pub file: &'a Path,
    pub required: &'a [(Name, Path)],
    pub is_private: bool,
}

impl<'a> Model for LentModule<'a> {
    ghost Value = { ModuleValue };

    ghost view = { λ v. record {
      name = v.name.now;
      file = v.file.now;
      required = v.required.now;
      is_private = v.is_private;
    } };
}

/// An [`Info`] whose parts are borrowed, so that it is written without a copy of them.
#[derive(Drop)]
pub struct LentInfo<'a> {
    pub target: &'a TargetName,
    pub modules: Vec<LentModule<'a>>,
}

impl<'a> Model for LentInfo<'a> {
    ghost Value = { InfoValue };

    ghost view = { λ i. record { target = i.target.now; modules = i.modules.items } };
}

impl LentInfo<'_> {
    /// Returns the same info with parts of its own, or an error if an allocation fails.
    pub fn to_info(&self, alloc: Global) -> Result<Info, AllocError>
        ensures { IfOk result (λ info. info ≡ self.now) }
    {
        let mut modules = Vec::with_capacity(alloc, self.modules.len())?;
        for entry in &self.modules {
            modules.push(InfoModule {
                name: entry.name.copy(alloc)?,
                file: entry.file.copy(alloc)?,
                required: entry.required.to_vec(alloc)?,
                is_private: entry.is_private,
            })?;
        }
        let target = self.target.copy(alloc)?;
        Ok(Info { target, modules })
    }
}

/// Returns the info as a document of version 2: compact JSON with keys in byte order, and without a
/// line end. Returns an error if an allocation fails.
///
/// The document is read as the same info, unless it has more than 16,777,216 bytes: then reading it
/// fails with S8. Each path has to be UTF-8, as the paths of a document are.
pub fn info_write(alloc: Global, info: &Info) -> Result<Vec<u8>, AllocError>
    requires { IsInfoText info.now }
    ensures text { IfOk result (λ text. text.items ≡ info_text info.now) }
    ensures reads_back { IfOk result (λ text. ReadsBack info.now text.items) }
{
    let mut modules = Vec::with_capacity(alloc, info.modules.len())?;
    for entry in &info.modules {
        modules.push(LentModule {
            name: &entry.name,
            file: &entry.file,
            required: &entry.required,
            is_private: entry.is_private,
        })?;
    }
    let target = &info.target;
    lent_info_write(alloc, &LentInfo { target, modules })
}

/// Returns what [`info_write`] returns for the same info, or an error if an allocation fails.
pub fn lent_info_write(alloc: Global, info: &LentInfo<'_>) -> Result<Vec<u8>, AllocError>
    requires { IsInfoText info.now }
    ensures text { IfOk result (λ text. text.items ≡ info_text info.now) }
    ensures reads_back { IfOk result (λ text. ReadsBack info.now text.items) }
{
    serde_json::to_vec(alloc, &InfoDocument { info }).map_err(|_| AllocError)
}

/// The document of an info whose paths are UTF-8.
#[derive(Drop)]
struct InfoDocument<'a> {
    info: &'a LentInfo<'a>,
}

impl<'a> Model for InfoDocument<'a> {
    ghost Value = { InfoValue };

    ghost view = { λ d. d.info.now };

    ghost invariant = { λ d. IsInfoText d.info.now };
}

impl Described for InfoDocument<'_> {
    ghost writes = { λ d old new. SendsValue (info_tree d) old new × IsSoundInfo d };
}

impl Serialize for InfoDocument<'_> {
    fn serialize<S: Serializer>(&self, out: &mut S) -> Result<(), S::Error> {
        let info = self.info;
        let modules = info.modules.as_slice();
        out.begin_map(Some(3))?;
        out.key("modules")?;
        out.begin_seq(Some(modules.len()))?;
        for entry in modules {
            send_module(out, entry)?;
        }
        out.end_seq()?;
        send_text(out, "target", info.target.text())?;
        out.key("version")?;
        out.u64(2)?;
        out.end_map()
    }
}

fn send_module<S: Serializer>(out: &mut S, entry: &LentModule<'_>) -> Result<(), S::Error>
    requires { IsModuleText entry.now }
    ensures sent { OnOk result
        (SendsValue (module_tree entry.now) (S.written out.old) (S.written out.new)) }
    ensures sound { OnOk result (IsSoundModule entry.now) }
{
    begin_named_file(out, 4, entry.name, entry.file)?;
    let required = entry.required;
    out.key("requires")?;
    out.begin_seq(Some(required.len()))?;
    for pair in required {
        begin_named_file(out, 2, &pair.0, &pair.1)?;
        out.end_map()?;
    }
    out.end_seq()?;
    let is_private = entry.is_private;
    let visibility = if is_private { "private" } else { "public" };
    send_text(out, "visibility", visibility)?;
    out.end_map()
}

/// Begins an object with the members that a module and a requirement have in common.
fn begin_named_file<S: Serializer>(
    out: &mut S,
    members: usize,
    name: &Name,
    file: &Path,
) -> Result<(), S::Error>
    requires { IsText file.now }
    ensures sent { OnOk result
        (BeginsNamedFile members name.now file.now (S.written out.old) (S.written out.new)) }
    ensures sound { OnOk result (IsSoundPair name.now file.now) }
{
    out.begin_map(Some(members))?;
    let Ok(path) = std::str::from_utf8(file.bytes()) else {
        unreachable!();
    };
    send_text(out, "bmi", path)?;
    send_text(out, "name", name.text())
}

/// Sends a member that is a string.
fn send_text<S: Serializer>(out: &mut S, key: &str, text: &str) -> Result<(), S::Error>
    ensures { OnOk result (SendsText key.now text.now (S.written out.old) (S.written out.new)) }
{
    out.key(key)?;
    out.str(text)
}
