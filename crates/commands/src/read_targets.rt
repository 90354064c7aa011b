//! The targets of a project, as their documents and the files that these name are read.

ghost use Rattle.std.specs.Prelude.{◌≡◌, ◌<◌, ◌∷◌, ◌++◌, [], All, length, map, IfOk, OnOk, Some};
ghost use Rattle.std.specs.Option.{option_or};
ghost use Rattle.commands.specs.Prelude.{string_bytes, ReadsTargets, PathText, TargetAfter, Runs};
ghost use Rattle.commands.specs.Prelude.{bytes_of, seen, FormOf, LinksOf, form_of, ListAfter};
ghost use Rattle.commands.specs.Prelude.{HasKnownList, list_of, list_named, list_with, list_value};
ghost use Rattle.commands.specs.Prelude.{ListingRead, ReadsIfNamed, option_map};

use crate::edges::ListingRead;
use crate::folder::{Folder, read, read_all, read_file};
use crate::lists::pushed;
use crate::location::{Document, Location};
use crate::stop::{self, Stop};
use crate::target::read_spec;
use build_effect::ListingReader;
use collate_core::Listed;
use ninja_text::Failure;
use scan_docs::{DocFault, MapForm, Member, Place, TargetSpec};
use std::alloc::{AllocError, Global};
use std::borrow::CowSlice;
use std::collections::BTreeMap;
use std::marker::Model;
use std::rc::Rc;

/// Reads the targets of the documents of these names, one after another.
pub(crate) fn read_targets<'f, F: Folder<'f>>(
    alloc: Global,
    names: &[String],
    folder: &mut F,
) -> Result<Targets<'f>, Stop>
    ensures { Runs (F.calls folder.old) (F.calls folder.new)
        (ReadsTargets (map string_bytes names.now)) result }
{
    let mut targets = Targets::new(alloc);
    for name in names {
        let target = read_target(alloc, &targets, name.as_str(), folder)?;
        targets = targets.with(alloc, target)?;
    }
    Ok(targets)
}

/// Returns the form of maps of the first target.
pub(crate) fn form_of(targets: &[ReadTarget]) -> Option<MapForm>
    ensures { result ≡ form_of targets.now }
{
    targets.first()?.spec.map
}

/// A target that was read.
#[derive(Drop)]
pub(crate) struct ReadTarget<'f> {
    pub spec: TargetSpec,
    /// The indexes of the targets that it links.
    pub links: Vec<usize>,
    /// The bytes of its scan documents.
    pub scans: Vec<Listed<CowSlice<'f, u8>>>,
    /// The result of reading its edge list, if its document names one.
    pub listing: Option<Rc<ListingRead>>,
}

impl<'f> Model for ReadTarget<'f> {
    ghost use Rattle.std.specs.Cow.{cow_slice_items};
    ghost use Rattle.commands.specs.ProjectCommand.{ReadTargetValue};
    ghost use Rattle.commands.specs.inner.Parts.{listed_texts};
    ghost use Rattle.commands.specs.inner.ProjectTargets.{list_value};

    ghost Value = { ReadTargetValue };

    ghost view = { λ t. record {
      spec = t.spec;
      linked = t.links.items;
      scans = listed_texts cow_slice_items t.scans;
      listing = list_value t.listing;
    } };
}

/// The targets of a project that were read so far, for each info file that they write the index of
/// the last one that does, and the edge lists that they name.
#[derive(Drop)]
pub(crate) struct Targets<'f> {
    pub list: Vec<ReadTarget<'f>>,
    writers: BTreeMap<String, usize>,
    lists: BTreeMap<String, Rc<ListingRead>>,
}

impl<'f> Model for Targets<'f> {
    ghost use Rattle.std.specs.Prelude.{◌≡◌, List};
    ghost use Rattle.ninja_text.specs.Bytes.{PathText};
    ghost use Rattle.commands.specs.ProjectCommand.{ReadTargetValue, last_with, list_with};
    ghost use Rattle.commands.specs.inner.ProjectTargets.{writer_of, list_of, LinkEarlier};
    ghost use Rattle.commands.specs.inner.ProjectTargets.{ListsAgree};

    ghost Value = { List ReadTargetValue };

    ghost view = { λ t. t.list.items };

    ghost invariant = { λ t. LinkEarlier t.list.items × ListsAgree t.list.items
        × ((info : PathText) → writer_of t.writers info ≡ last_with t.list.items info)
        × ((name : PathText) → list_of t.lists name ≡ list_with t.list.items name) };
}

impl<'f> Targets<'f> {
    /// Returns no targets.
    fn new(alloc: Global) -> Targets<'f>
        ensures { result ≡ [] }
    {
        Targets {
            list: Vec::new(alloc),
            writers: BTreeMap::new(alloc),
            lists: BTreeMap::new(alloc),
        }
    }

    /// Returns these targets and one more, which links some of these and has their edge list of the
    /// name, if they have one.
    fn with(self, alloc: Global, target: ReadTarget<'f>) -> Result<Targets<'f>, AllocError>
        requires links { All (λ k. k < length self) target.linked }
        requires list { HasKnownList self target }
        ensures { IfOk result (λ targets. targets ≡ self.entry ++ target.entry ∷ []) }
    {
        let Targets {
            list,
            mut writers,
            mut lists,
        } = self;
        let index = list.len();
        put_list(alloc, &mut lists, &target)?;
        let list = pushed(list, target)?;
        let info = String::from_str(alloc, &list[index].spec.info)?;
        writers.insert(info, index)?;
        Ok(Targets {
            list,
            writers,
            lists,
        })
    }
}

/// Adds the edge list of a target, if it has one, to those that are found by name.
fn put_list(
    alloc: Global,
    lists: &mut BTreeMap<String, Rc<ListingRead>>,
    target: &ReadTarget,
) -> Result<(), AllocError>
    ensures { OnOk result ((name : PathText) → list_of lists.new name
        ≡ option_or (list_named name target.now) (list_of lists.old name)) }
{
    if let (Some(edges), Some(listing)) = (&target.spec.edges, &target.listing) {
        let name = String::from_str(alloc, edges)?;
        lists.insert(name, listing.clone()?)?;
    }
    Ok(())
}

/// Reads the target of the document of this name, after earlier ones.
fn read_target<'f, F: Folder<'f>>(
    alloc: Global,
    earlier: &Targets,
    name: &str,
    folder: &mut F,
) -> Result<ReadTarget<'f>, Stop>
    ensures read { Runs (F.calls folder.old) (F.calls folder.new)
        (TargetAfter earlier.now name.now) result }
    ensures links { IfOk result (λ target. All (λ k. k < length earlier.now) target.linked) }
    ensures list { IfOk result (HasKnownList earlier.now) }
{
    let document = read(alloc, name, folder)?;
    let index = earlier.list.len();
    let spec = stop::at_target(alloc, index, read_spec(alloc, &document))?;
    stop::at_target(alloc, index, pass_form(alloc, earlier, &spec))?;
    let links = stop::at_target(alloc, index, links_of(alloc, earlier, &spec.linked))?;
    let scans = read_all(alloc, &spec.scans, folder)?;
    let listing = list_after(alloc, earlier, &spec.edges, folder)?;
    Ok(ReadTarget {
        spec,
        links,
        scans,
        listing,
    })
}

/// Returns the edge list of this name, if there is one. One that an earlier target has is not read
/// again.
fn list_after<'f, F: Folder<'f>>(
    alloc: Global,
    earlier: &Targets,
    edges: &Option<String>,
    folder: &mut F,
) -> Result<Option<Rc<ListingRead>>, Stop>
    ensures read { Runs (F.calls folder.old) (F.calls folder.new)
        (ReadsIfNamed (ListAfter earlier.now) (option_map string_bytes edges.now))
        (seen list_value result) }
    ensures known { IfOk result (λ list. (name : PathText) (known own : ListingRead) →
        option_map string_bytes edges.now ≡ Some name → list_with earlier.now name ≡ Some known →
        list_value list ≡ Some own → known ≡ own) }
{
    let Some(name) = edges else {
        return Ok(None);
    };
    if let Some(listing) = earlier.lists.get(name.as_str()) {
        return Ok(Some(listing.clone()?));
    }
    let listing = read_file(alloc, name, ListingReader::new(alloc), folder)?;
    Ok(Some(Rc::new(alloc, listing)?))
}

/// Checks that the maps of a target have the form of those of the first one.
fn pass_form(alloc: Global, earlier: &Targets, spec: &TargetSpec) -> Result<(), Stop>
    ensures { FormOf earlier.now spec.now [] result }
{
    if earlier.list.is_empty() || spec.map == form_of(&earlier.list) {
        return Ok(());
    }
    let (place, member) = (Place::Document, Member::Map);
    let fault = DocFault::BadShape { place, member };
    stop::or_stop(
        alloc,
        "target: ",
        Some(Document::Target),
        Err(Failure::Fault(fault)),
    )
}

/// Returns the indexes of the last targets that write these info files.
fn links_of(alloc: Global, targets: &Targets, infos: &[String]) -> Result<Vec<usize>, Stop>
    ensures { LinksOf targets.now (map string_bytes infos.now) [] (seen bytes_of result) }
{
    let mut linked = Vec::with_capacity(alloc, infos.len())?;
    for info in infos {
        let Some(index) = targets.writers.get(info.as_str()) else {
            let message = Vec::from_slice(alloc, b"K3 LinkedLater");
            return Err(stop::stopped(1, message, Location::coded(b'K', 3)));
        };
        linked = pushed(linked, *index)?;
    }
    Ok(linked)
}
