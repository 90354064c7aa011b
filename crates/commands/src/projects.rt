//! The command `project`: what the targets of a project collate to, and the files that they leave.

ghost use Rattle.std.specs.Prelude.{◌≡◌, [], All, length, map, zip, IfOk, IsUtf8};
ghost use Rattle.commands.specs.Prelude.{project_target, AllEdgesPass, LinkEarlier, IsReportable};
ghost use Rattle.commands.specs.Prelude.{ProjectOf, all_files, ProjectRun, ReportsAt, Runs};
ghost use Rattle.commands.specs.Prelude.{Writes, seen, lent_texts, ListsAgree};

use crate::edges::pass_list;
use crate::folder::Folder;
use crate::lists::pushed;
use crate::location::{Document, Located, Location};
use crate::read_targets::{ReadTarget, form_of, read_targets};
use crate::refusal::refusal_line;
use crate::shared_lists::passed_together;
use crate::stop::{self, Output, Stop};
use crate::target::{append_files, slices};
use collate_core::{Collated, Listed, ProjectTarget, RefusedTarget, project_or_refused};
use module_maps::{Clang, Gcc};
use ninja_text::Failure;
use scan_docs::{MapForm, project_read};
use std::alloc::{AllocError, Global};

/// Runs `project FILE` on the bytes of the project document. The files of the targets are read from
/// the `Folder`, target by target: the document of each, which may only link targets before it and
/// has the first one's form of maps, its scan documents and its edge list. An edge list that
/// several targets name is read once. No file is read after a rejected document. All targets are
/// read before the first is collated.
///
/// The output has the files of `collate`, target by target; info files that targets link are not
/// read, since the project writes them.
pub fn project<'f, F: Folder<'f>>(
    alloc: Global,
    document: &[u8],
    folder: &mut F,
) -> Result<Output, Stop>
    ensures { Runs (F.calls folder.old) (F.calls folder.new) (ProjectRun document.now) result }
{
    let project = stop::or_stop(
        alloc,
        "project: ",
        Some(Document::Project),
        project_read(alloc, document),
    )?;
    let read = read_targets(alloc, &project.targets, folder)?;
    let targets = read.list.as_slice();
    let outs = all_collated(alloc, targets)?;
    all_pass(alloc, targets, &outs)?;
    write_all(alloc, targets, outs)
}

/// Collates the targets, with maps of the form of the first one.
fn all_collated(alloc: Global, targets: &[ReadTarget]) -> Result<Vec<Collated>, Stop>
    requires { LinkEarlier targets.now }
    ensures { ProjectOf targets.now [] (seen (λ outs. outs.items) result) }
{
    let scans = scans_of(alloc, targets)?;
    let parts = in_project(alloc, targets, &scans)?;
    let outcome = match form_of(targets) {
        None => project_or_refused(alloc, &parts, None::<&Gcc>),
        Some(MapForm::Gcc) => project_or_refused(alloc, &parts, Some(&Gcc)),
        Some(MapForm::Clang) => project_or_refused(alloc, &parts, Some(&Clang)),
    };
    match outcome {
        Ok(out) => Ok(out.targets),
        Err(Failure::Memory) => Err(Failure::Memory),
        Err(Failure::Fault((index, refused))) => {
            let message = rejected_text(alloc, targets, index, &refused);
            let at = Location {
                target: Some(index),
                ..refused.refusal.location()
            };
            // Dropped here: at the end of the function, the compiler would drop each field by
            // itself, and the proof would be longer.
            drop(refused);
            Err(stop::stopped(1, message, at))
        }
    }
}

/// Borrows the scan documents of each target.
fn scans_of<'t>(
    alloc: Global,
    targets: &'t [ReadTarget],
) -> Result<Vec<Vec<Listed<&'t [u8]>>>, AllocError>
    ensures { IfOk result (λ scans. map (λ lent. lent_texts lent.items) scans.items
        ≡ map (λ target. target.scans) targets.now) }
{
    let mut scans = Vec::with_capacity(alloc, targets.len())?;
    for target in targets {
        scans = pushed(scans, slices(alloc, &target.scans)?)?;
    }
    Ok(scans)
}

/// Returns the targets as a project has them, with their scan documents.
fn in_project<'t>(
    alloc: Global,
    targets: &'t [ReadTarget],
    scans: &'t [Vec<Listed<&[u8]>>],
) -> Result<Vec<ProjectTarget<'t>>, AllocError>
    requires { map (λ lent. lent_texts lent.items) scans.now
        ≡ map (λ target. target.scans) targets.now }
    ensures { IfOk result (λ parts. parts.items ≡ map project_target targets.now) }
{
    let mut parts = Vec::with_capacity(alloc, targets.len())?;
    for (index, target) in targets.iter().enumerate() {
        let part = ProjectTarget {
            name: &target.spec.target,
            setting: &target.spec.setting,
            scans: &scans[index],
            linked: &target.links,
            kept: &target.spec.kept,
        };
        parts = pushed(parts, part)?;
    }
    Ok(parts)
}

/// Returns what is reported of the rejected target of this index.
fn rejected_text(
    alloc: Global,
    targets: &[ReadTarget],
    index: usize,
    refused: &RefusedTarget,
) -> Result<Vec<u8>, AllocError>
    requires { IsReportable targets.now index }
    ensures { IfOk result (λ text. ReportsAt targets.now index refused.now text.items) }
{
    let target = &targets[index];
    let mut names = Vec::with_capacity(alloc, target.links.len())?;
    for earlier in &target.links {
        let linked = &targets[*earlier];
        names = pushed(names, &linked.spec.target)?;
    }
    let text = refusal_line(alloc, &refused.refusal, &refused.objects, &names)?;
    stop::target_text(alloc, index, &text)
}

/// Checks that the edges that each target names can be put in order after its own dyndep file.
fn all_pass(alloc: Global, targets: &[ReadTarget], outs: &[Collated]) -> Result<(), Stop>
    requires each { length outs.now ≡ length targets.now }
    requires lists { ListsAgree targets.now }
    ensures { AllEdgesPass 0 (zip targets.now outs.now) [] result }
{
    let passed = passed_together(alloc, targets, outs)?;
    for (index, target) in targets.iter().enumerate() {
        if passed[index] {
            continue;
        }
        let Some(listing) = &target.listing else {
            continue;
        };
        let own = pass_list(alloc, listing, &target.spec.dyndep_path, &outs[index]);
        stop::at_target(alloc, index, own)?;
    }
    Ok(())
}

/// Returns the files of all targets, which collated to these, to be written.
fn write_all(alloc: Global, targets: &[ReadTarget], outs: Vec<Collated>) -> Result<Output, Stop>
    requires { All (λ c. All IsUtf8 c.objects) outs.items }
    ensures { Writes (all_files (zip targets.now outs.items)) [] result }
{
    let mut files = Vec::new(alloc);
    for (target, collated) in targets.iter().zip(outs) {
        append_files(alloc, collated, &target.spec, &mut files)?;
    }
    Ok(Output::files(alloc, files))
}
