//! Target documents, and project documents, which list them.

ghost use Rattle.std.specs.Prelude.{◌≡◌, Some, None, IfOk, IfErr, string_bytes, option_map, true};
ghost use Rattle.scan_docs.specs.Prelude.{Ok, placed, Answers, spec_of, ForSome, text};
ghost use Rattle.scan_docs.specs.Prelude.{view, ForFault, texts_of, IsTarget, map_form, IsProject};
ghost use Rattle.scan_docs.specs.Prelude.{map, name_checks, kept_checks, file_checks, SettingValue};
ghost use Rattle.scan_docs.specs.Prelude.{IsAccepted, is_rooted, IsRefused, build_dir, project_of};
ghost use Rattle.scan_docs.specs.Prelude.{ProjectValue, HasOneAnswer, target_checks, dyndep_checks};
ghost use Rattle.scan_docs.specs.Prelude.{directory_checks, project_checks, TargetDocumentValue};
ghost use Rattle.scan_docs.specs.Prelude.{restat};
ghost use Rattle.scan_docs.specs.declared.member.Member.TheVariants as m;

use crate::fault::{DocFault, Place, Read, bad_shape, path_at};
use crate::map_form::MapForm;
use crate::member::Member;
use crate::shape::{self, read_tree, read_version};
use document_values::{Name, TargetName};
use ninja_text::{Failure, Path, place};
use serde_json::Value;
use std::alloc::Global;
use std::marker::Model;

/// The files that a target's modules are compiled to.
pub struct Setting {
    /// The directory of the BMIs, or an empty string.
    pub module_dir: String,
    /// The end of the name of a BMI.
    pub module_ext: String,
    /// The directory that Ninja runs in, which is absolute.
    pub build_dir: Option<Path>,
}

// Not derived: this saves the prover time (docs/DECISIONS.md, "Code").
impl Drop for Setting {
    fn drop(self) {
        let Setting {
            module_dir: _,
            module_ext: _,
            build_dir: _,
        } = self;
    }
}

impl Model for Setting {
    ghost Value = { SettingValue };

    ghost view = { λ s. record {
      module_dir = string_bytes s.module_dir;
      module_ext = string_bytes s.module_ext;
      build_dir = s.build_dir;
    } };

    ghost invariant = { λ s. ForSome s.build_dir (λ path. is_rooted path ≡ true) };
}

/// The members of a target document. Strings are as in the document.
pub struct TargetSpec {
    pub target: TargetName,
    /// The files that modules are compiled to, and the directory that Ninja runs in: the members
    /// `module-dir`, `module-ext` and `build-dir`.
    pub setting: Setting,
    /// The scan documents.
    pub scans: Vec<String>,
    /// The info files of the targets that this one links.
    pub linked: Vec<String>,
    /// The modules that only the target itself may require: the member `private`.
    pub kept: Vec<Name>,
    /// The dyndep file to be written.
    pub dyndep: String,
    /// The path of the dyndep file as Ninja sees it: `dyndep` in `build-dir`.
    pub dyndep_path: Path,
    /// The info file to be written.
    pub info: String,
    /// The form of the module maps, if maps are to be written.
    pub map: Option<MapForm>,
    /// The edge list to be checked against, if there is one.
    pub edges: Option<String>,
    /// Whether maps and info files that already have their bytes are left alone.
    pub restat: bool,
}

// Not derived: this saves the prover time (docs/DECISIONS.md, "Code").
impl Drop for TargetSpec {
    fn drop(self) {
        let TargetSpec {
            target: _,
            setting: _,
            scans: _,
            linked: _,
            kept: _,
            dyndep: _,
            dyndep_path: _,
            info: _,
            map: _,
            edges: _,
            restat: _,
        } = self;
    }
}

impl Model for TargetSpec {
    ghost Value = { TargetDocumentValue };

    ghost view = { λ t. record {
      target = t.target;
      setting = t.setting;
      scans = Rattle.scan_docs.specs.Prelude.map string_bytes t.scans.items;
      linked = Rattle.scan_docs.specs.Prelude.map string_bytes t.linked.items;
      kept = t.kept.items;
      dyndep = string_bytes t.dyndep;
      dyndep_path = t.dyndep_path;
      info = string_bytes t.info;
      map_form = t.map;
      edges = option_map string_bytes t.edges;
      restat = t.restat;
    } };
}

/// Returns the members of a target document.
///
/// # Errors
///
/// Returns the fault of the first check that fails, or [`Failure::Memory`] if an allocation fails.
pub fn spec_read(alloc: Global, bytes: &[u8]) -> Result<TargetSpec, Failure<DocFault>>
    ensures accepted { IfOk result (λ spec. IsAccepted target_checks IsTarget bytes.now spec) }
    ensures refused { IfErr result (ForFault (IsRefused target_checks bytes.now)) }
    ensures value { IfOk result (λ spec. spec ≡ spec_of bytes.now) }
    ensures one_answer { HasOneAnswer target_checks IsTarget bytes.now }
{
    let tree = read_tree(alloc, bytes)?;
    read_spec(alloc, &tree)
}

#[tactic(auto, using(crate::proofs::Exact::target_parts))]
fn read_spec(alloc: Global, tree: &Value) -> Read<TargetSpec>
    ensures { Answers (target_checks (view tree.now))
        (λ spec. IsTarget (view tree.now) spec) result }
{
    let place = Place::Document;
    read_version(tree, &[1])?;
    let target = read_target_name(alloc, tree)?;
    let setting = read_setting(alloc, tree)?;
    let scans = shape::texts(alloc, tree, Member::Scans, place)?;
    let linked = shape::texts(alloc, tree, Member::Linked, place)?;
    let kept = read_kept(alloc, tree)?;
    let (dyndep, dyndep_path) = read_dyndep(alloc, &setting, tree)?;
    let Files {
        info,
        map,
        edges,
        restat,
    } = read_files(alloc, tree)?;
    Ok(TargetSpec {
        target,
        setting,
        scans,
        linked,
        kept,
        dyndep,
        dyndep_path,
        info,
        map,
        edges,
        restat,
    })
}

/// Returns the target's name, in a target document or an info document.
#[tactic(auto, unfolding(crate::specs::TargetChecks::name_checks))]
pub(crate) fn read_target_name(alloc: Global, tree: &Value) -> Read<TargetName>
    ensures { Answers (name_checks (view tree.now))
        (λ name. text m.Target (view tree.now) ≡ Some name) result }
{
    let place = Place::Document;
    let text = shape::required_text(tree, Member::Target, place)?;
    TargetName::of(alloc, text)?.ok_or(Failure::Fault(DocFault::BadName { place }))
}

#[tactic(auto, unfolding(crate::specs::TargetChecks::directory_checks))]
fn read_setting(alloc: Global, tree: &Value) -> Read<Setting>
    ensures { Answers (directory_checks (view tree.now))
        (λ setting. (text m.ModuleDir (view tree.now) ≡ Some setting.module_dir)
        × (text m.ModuleExt (view tree.now) ≡ Some setting.module_ext)
        × (build_dir (view tree.now) ≡ setting.build_dir)) result }
{
    let place = Place::Document;
    let module_dir = shape::owned_text(alloc, tree, Member::ModuleDir, place)?;
    let module_ext = shape::owned_text(alloc, tree, Member::ModuleExt, place)?;
    let build_dir = match shape::text(tree, Member::BuildDir, place)? {
        None => None,
        Some(text) => match Path::of(alloc, text.as_bytes()) {
            Ok(path) if path.is_rooted() => Some(path),
            Err(Failure::Memory) => return Err(Failure::Memory),
            _ => return Err(bad_shape(place, Member::BuildDir)),
        },
    };
    Ok(Setting {
        module_dir,
        module_ext,
        build_dir,
    })
}

/// Returns the names of the modules that the target keeps to itself.
#[tactic(auto, unfolding(crate::specs::TargetChecks::kept_checks))]
fn read_kept(alloc: Global, tree: &Value) -> Read<Vec<Name>>
    ensures { Answers (kept_checks (view tree.now))
        (λ kept. texts_of m.Private (view tree.now) ≡ kept.items) result }
{
    let place = Place::Document;
    let texts = shape::texts(alloc, tree, Member::Private, place)?;
    let mut names = Vec::with_capacity(alloc, texts.len())?;
    for text in &texts {
        let Some(name) = Name::of(alloc, text.as_str())? else {
            return Err(Failure::Fault(DocFault::BadName { place }));
        };
        names.push(name)?;
    }
    Ok(names)
}

/// Returns the dyndep file, and its path as Ninja sees it.
#[tactic(auto, unfolding(crate::specs::TargetChecks::dyndep_checks))]
fn read_dyndep(alloc: Global, setting: &Setting, tree: &Value) -> Read<(String, Path)>
    requires { build_dir (view tree.now) ≡ setting.now.build_dir }
    ensures { Answers (dyndep_checks (view tree.now))
        (λ found. (text m.Dyndep (view tree.now) ≡ Some (string_bytes found.0))
        × (placed None setting.now.build_dir (string_bytes found.0) ≡ Ok found.1)) result }
{
    let text = shape::required_text(tree, Member::Dyndep, Place::Document)?;
    let placed = place(alloc, None, setting.build_dir.as_ref(), text.as_bytes());
    let path = path_at(Place::Document, placed)?;
    let dyndep = String::from_str(alloc, text)?;
    Ok((dyndep, path))
}

/// The files of a target document besides the dyndep file.
#[derive(Drop)]
struct Files {
    info: String,
    map: Option<MapForm>,
    edges: Option<String>,
    restat: bool,
}

/// Returns the info file, the form of the maps, the edge list, and whether unchanged files are left
/// alone.
#[tactic(auto, unfolding(crate::specs::TargetChecks::file_checks))]
fn read_files(alloc: Global, tree: &Value) -> Read<Files>
    ensures { Answers (file_checks (view tree.now))
        (λ files. (text m.Info (view tree.now) ≡ Some (string_bytes files.info))
        × (map_form (view tree.now) ≡ files.map)
        × (text m.Edges (view tree.now) ≡ option_map string_bytes files.edges)
        × (restat (view tree.now) ≡ files.restat)) result }
{
    let place = Place::Document;
    let info = shape::owned_text(alloc, tree, Member::Info, place)?;
    if info.is_empty() {
        return Err(bad_shape(place, Member::Info));
    }
    let map = match shape::given(tree, Member::Map).map(Value::as_str) {
        None => None,
        Some(Some("gcc")) => Some(MapForm::Gcc),
        Some(Some("clang")) => Some(MapForm::Clang),
        _ => return Err(bad_shape(place, Member::Map)),
    };
    let edges = shape::text(tree, Member::Edges, place)?;
    let edges = edges.map(|text| String::from_str(alloc, text)).transpose()?;
    let restat = shape::given(tree, Member::Restat).and_then(Value::as_bool);
    Ok(Files {
        info,
        map,
        edges,
        restat: restat.unwrap_or(false),
    })
}

/// The member of a project document. Strings are as in the document.
#[derive(Drop)]
pub struct ProjectSpec {
    /// The target documents, in the order of the project.
    pub targets: Vec<String>,
}

impl Model for ProjectSpec {
    ghost Value = { ProjectValue };

    ghost view = { λ p. record { targets = map string_bytes p.targets.items } };
}

/// Returns the target documents of a project, in its order.
///
/// `version` has to be 1, and `targets` a list of strings, which may be empty. No file is accessed.
///
/// # Errors
///
/// Returns the fault of the first check that fails, or [`Failure::Memory`] if an allocation fails.
pub fn project_read(alloc: Global, bytes: &[u8]) -> Result<ProjectSpec, Failure<DocFault>>
    ensures accepted { IfOk result
        (λ project. IsAccepted project_checks IsProject bytes.now project) }
    ensures refused { IfErr result (ForFault (IsRefused project_checks bytes.now)) }
    ensures value { IfOk result (λ project. project ≡ project_of bytes.now) }
    ensures one_answer { HasOneAnswer project_checks IsProject bytes.now }
{
    let tree = read_tree(alloc, bytes)?;
    read_project(alloc, &tree)
}

#[tactic(auto, using(crate::proofs::Each::both))]
fn read_project(alloc: Global, tree: &Value) -> Read<ProjectSpec>
    ensures { Answers (project_checks (view tree.now))
        (λ project. IsProject (view tree.now) project) result }
{
    read_version(tree, &[1])?;
    let targets = shape::required_texts(alloc, tree, Member::Targets, Place::Document)?;
    Ok(ProjectSpec { targets })
}
