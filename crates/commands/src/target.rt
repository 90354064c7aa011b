//! The commands `collate`, which leaves the files of a target, and `one`, which prints the dyndep
//! text of one scan document; and the files of a target, as they are read.

ghost use Rattle.std.specs.Prelude.{◌≡◌, ◌++◌, [], map, All, IsUtf8, IfOk, OnOk, string_bytes};
ghost use Rattle.commands.specs.Prelude.{cow_slice_items, Runs, file_value, FilesOf, TargetOf};
ghost use Rattle.commands.specs.Prelude.{SpecOf, style_of, target_with, map_files, files_of};
ghost use Rattle.commands.specs.Prelude.{CollateRun, OneRun, listed_as};

use crate::edges::{ListingRead, pass_list};
use crate::folder::{Folder, read_all, read_file};
use crate::lists::{add, pushed};
use crate::location::Document;
use crate::stop::{self, Output, OutputFile, Stop};
use build_effect::ListingReader;
use collate_core::{Collated, Listed, Target, collate_dyndep_or_refused, collate_or_refused};
use document_values::TargetName;
use module_maps::{Clang, Gcc};
use ninja_text::Path;
use scan_docs::{MapForm, Setting, TargetSpec, spec_read};
use std::alloc::{AllocError, Global};
use std::borrow::CowSlice;
use std::marker::Model;

/// Runs `collate TARGETFILE` on the bytes of the target document. The files that it names are read
/// from the `Folder`: scan documents, info files, and the edge list last. The output has the
/// map of each object, if the document asks for maps, then the info file, and last the dyndep file.
/// If the document names an edge list, its edges must have an order after the effect of that
/// dyndep file. No file of a rejected document is read.
pub fn collate<'f, F: Folder<'f>>(
    alloc: Global,
    document: &[u8],
    folder: &mut F,
) -> Result<Output, Stop>
    ensures { Runs (F.calls folder.old) (F.calls folder.new) (CollateRun document.now) result }
{
    let spec = read_spec(alloc, document)?;
    let files = TargetFiles::read(alloc, &spec, &spec.linked, folder)?;
    let collated = collated_of(alloc, &spec, &files)?;
    if let Some(listing) = &files.listing {
        pass_list(alloc, listing, &spec.dyndep_path, &collated)?;
    }
    let mut written = Vec::new(alloc);
    append_files(alloc, collated, &spec, &mut written)?;
    Ok(Output::files(alloc, written))
}

/// The files of a target.
pub(crate) struct TargetFiles<'f> {
    /// The bytes of the scan documents.
    pub scans: Vec<Listed<CowSlice<'f, u8>>>,
    /// The bytes of the info files of targets that it links.
    pub infos: Vec<Listed<CowSlice<'f, u8>>>,
    /// The result of reading the edge list, if its document names one.
    pub listing: Option<ListingRead>,
}

// Not derived: this saves the prover time (docs/DECISIONS.md, "Code").
impl<'f> Drop for TargetFiles<'f> {
    fn drop(self) {
        let TargetFiles {
            scans: _,
            infos: _,
            listing: _,
        } = self;
    }
}

impl<'f> Model for TargetFiles<'f> {
    ghost use Rattle.commands.specs.Files.{TargetFilesValue};
    ghost use Rattle.commands.specs.inner.Parts.{listed_texts};
    ghost use Rattle.std.specs.Cow.{cow_slice_items};

    ghost Value = { TargetFilesValue };

    ghost view = { λ f. record {
      scans = listed_texts cow_slice_items f.scans;
      infos = listed_texts cow_slice_items f.infos;
      listing = f.listing;
    } };
}

impl<'f> TargetFiles<'f> {
    /// Reads the files that a target document names: its scan documents, info files of these names,
    /// and the edge list, in this order.
    pub(crate) fn read<F: Folder<'f>>(
        alloc: Global,
        spec: &TargetSpec,
        infos: &[String],
        folder: &mut F,
    ) -> Result<TargetFiles<'f>, Stop>
        ensures { Runs (F.calls folder.old) (F.calls folder.new)
            (FilesOf spec.now (map string_bytes infos.now)) result }
    {
        let scans = read_all(alloc, &spec.scans, folder)?;
        let infos = read_all(alloc, infos, folder)?;
        let listing = match &spec.edges {
            Some(name) => Some(read_file(alloc, name, ListingReader::new(alloc), folder)?),
            None => None,
        };
        Ok(TargetFiles {
            scans,
            infos,
            listing,
        })
    }
}

/// Borrows the bytes of files.
pub(crate) fn slices<'t>(
    alloc: Global,
    files: &'t [Listed<CowSlice<u8>>],
) -> Result<Vec<Listed<&'t [u8]>>, AllocError>
    ensures { IfOk result (λ slices. map (listed_as (λ s. s.now)) slices.items
        ≡ map (listed_as cow_slice_items) files.now) }
{
    let mut slices = Vec::with_capacity(alloc, files.len())?;
    for file in files {
        let file = match file {
            Listed::First(bytes) => Listed::First(bytes.as_slice()),
            Listed::Again(index) => Listed::Again(*index),
        };
        slices = pushed(slices, file)?;
    }
    Ok(slices)
}

/// Reads a target document.
pub(crate) fn read_spec(alloc: Global, document: &[u8]) -> Result<TargetSpec, Stop>
    ensures { SpecOf document.now [] result }
{
    stop::or_stop(
        alloc,
        "target: ",
        Some(Document::Target),
        spec_read(alloc, document),
    )
}

/// Collates the target of a document, of these files, with maps of the document's form.
fn collated_of(alloc: Global, spec: &TargetSpec, files: &TargetFiles) -> Result<Collated, Stop>
    ensures { TargetOf (target_with spec.now files.now) (style_of spec.now.map_form) [] result }
{
    let scans = slices(alloc, &files.scans)?;
    let infos = slices(alloc, &files.infos)?;
    let target = Target {
        name: &spec.target,
        setting: &spec.setting,
        scans: &scans,
        infos: &infos,
        kept: &spec.kept,
    };
    let outcome = match spec.map {
        None => collate_or_refused(alloc, &target, None::<&Gcc>),
        Some(MapForm::Gcc) => collate_or_refused(alloc, &target, Some(&Gcc)),
        Some(MapForm::Clang) => collate_or_refused(alloc, &target, Some(&Clang)),
    };
    match outcome {
        Ok(collated) => Ok(collated),
        Err(failure) => Err(stop::of_target(alloc, failure)),
    }
}

/// Appends the files of a collated target, whose texts are given up and not copied.
pub(crate) fn append_files(
    alloc: Global,
    collated: Collated,
    spec: &TargetSpec,
    files: &mut Vec<OutputFile>,
) -> Result<(), AllocError>
    requires { All IsUtf8 collated.objects }
    ensures { OnOk result (map file_value files.new.items
        ≡ map file_value files.old.items ++ files_of spec.now collated) }
{
    let parts = collated.into_parts();
    let maps = parts.maps;
    append_maps(alloc, &parts.objects, maps, spec.restat, files)?;
    let name = String::from_str(alloc, &spec.info)?;
    let (bytes, keeps) = (parts.info, spec.restat);
    add(files, OutputFile { name, bytes, keeps })?;
    let name = String::from_str(alloc, &spec.dyndep)?;
    let (bytes, keeps) = (parts.dyndep, false);
    add(files, OutputFile { name, bytes, keeps })
}

/// Appends the map files of these objects, if there are maps.
fn append_maps(
    alloc: Global,
    objects: &[Path],
    maps: Vec<Vec<u8>>,
    keeps: bool,
    files: &mut Vec<OutputFile>,
) -> Result<(), AllocError>
    requires { All IsUtf8 objects.now }
    ensures { OnOk result (map file_value files.new.items ≡ map file_value files.old.items
        ++ map_files keeps objects.now (map (λ m. m.items) maps.items)) }
{
    files.reserve(maps.len())?;
    for (object, bytes) in objects.iter().zip(maps) {
        let Ok(object) = str::from_utf8(object.bytes()) else {
            unreachable!()
        };
        let name = format!(in alloc; "{object}.modmap")?;
        add(files, OutputFile { name, bytes, keeps })?;
    }
    Ok(())
}

/// Runs `one SCAN DIR EXT` on the bytes of the scan document, the directory that modules are
/// compiled to and the ending of their file names. The document is collated as a target by itself:
/// a module that a rule requires is looked up among those that the document's own rules provide.
pub fn one(alloc: Global, scan: &[u8], dir: &str, ext: &str) -> Result<Output, Stop>
    ensures { OneRun scan.now dir.now ext.now [] result }
{
    // Any name would do: it is not printed.
    let Some(name) = TargetName::of(alloc, "t")? else {
        unreachable!()
    };
    let setting = Setting {
        module_dir: String::from_str(alloc, dir)?,
        module_ext: String::from_str(alloc, ext)?,
        build_dir: None,
    };
    let target = Target {
        name: &name,
        setting: &setting,
        scans: &[Listed::First(scan)],
        infos: &[],
        kept: &[],
    };
    match collate_dyndep_or_refused(alloc, &target) {
        Ok(text) => Ok(Output::text(alloc, text)),
        Err(failure) => Err(stop::of_target(alloc, failure)),
    }
}
