//! How a file is given its bytes: in a new file that takes its place, or in place.

ghost use Rattle.std.specs.Prelude.{◌≡◌, IfOk, string_bytes};
ghost use Rattle.system_files.specs.Prelude.{MakesDiskCalls, AppendsAll, Allows, GivesBytes};
ghost use Rattle.system_files.specs.Prelude.{GivesBehind};
ghost use Rattle.system_files.specs.Prelude.{InPlace, GivesTarget, InPlaceIf, IsIrreplaceable};
ghost use Rattle.system_files.specs.Prelude.{LeadsNowhere, Replaces, UnlessIrreplaceable};
ghost use Rattle.system_files.specs.Prelude.{WritesInRun};
ghost use Rattle.system_files.specs.Prelude.{WritesFound, WritesMarked, new_name};

use crate::disk::{Disk, Kind, OpenFile, has_kind};
use std::alloc::{AllocError, Global};
use std::fs::Permissions;
use std::io;
use std::io::ErrorKind;

/// Makes these the bytes of the file of this name. A file that is replaced keeps its permissions.
/// If the name is a link, the file that it leads to is written. After an error the file has its old
/// bytes, or, if it was written in place, maybe only the first of the new ones.
///
/// The names of a run's new files have its `mark`, a random number that no other run has. It is
/// drawn before the first of them. If the system gives none, files are written in place.
pub fn write<D: Disk>(
    alloc: Global,
    disk: &mut D,
    mark: &mut Option<u64>,
    name: &str,
    bytes: &[u8],
) -> io::Result<()>
    ensures { MakesDiskCalls (D.calls disk.old) (D.calls disk.new)
        (λ calls. WritesInRun mark.old mark.new name.now bytes.now calls result) }
{
    if mark.is_none() {
        *mark = disk.random();
    }
    write_marked(alloc, disk, *mark, name, bytes)
}

/// Writes a file in a run with this mark.
fn write_marked<D: Disk>(
    alloc: Global,
    disk: &mut D,
    mark: Option<u64>,
    name: &str,
    bytes: &[u8],
) -> io::Result<()>
    ensures { MakesDiskCalls (D.calls disk.old) (D.calls disk.new)
        (λ calls. WritesMarked mark name.now bytes.now calls result) }
{
    match disk.look(name) {
        Ok(Kind::File(permissions)) => write_whole(
            alloc,
            disk,
            mark,
            name,
            Some(permissions),
            bytes,
        ),
        Ok(Kind::Link) => write_behind_link(alloc, disk, mark, name, bytes),
        Ok(Kind::Other) => write_in_place(disk, name, bytes),
        Err(error) if has_kind(&error, ErrorKind::NotFound) => write_whole(
            alloc, disk, mark, name, None, bytes,
        ),
        Err(error) => write_in_place_after(disk, name, bytes, error),
    }
}

/// Writes the file that a link leads to. The link stays.
fn write_behind_link<D: Disk>(
    alloc: Global,
    disk: &mut D,
    mark: Option<u64>,
    link: &str,
    bytes: &[u8],
) -> io::Result<()>
    ensures { MakesDiskCalls (D.calls disk.old) (D.calls disk.new)
        (λ calls. WritesFound mark link.now bytes.now (Ok Kind.Link) calls result) }
{
    match disk.resolve(alloc, link) {
        Ok(target) => write_target(alloc, disk, mark, link, target.as_str(), bytes),
        Err(error) => write_through(disk, link, bytes, error),
    }
}

/// Writes the file of the name `target`, to which a link leads.
fn write_target<D: Disk>(
    alloc: Global,
    disk: &mut D,
    mark: Option<u64>,
    link: &str,
    target: &str,
    bytes: &[u8],
) -> io::Result<()>
    ensures { MakesDiskCalls (D.calls disk.old) (D.calls disk.new)
        (λ calls. GivesBehind mark link.now bytes.now (Ok target.now) calls result) }
{
    match disk.follow(target) {
        Ok(Kind::File(permissions)) => write_whole(
            alloc,
            disk,
            mark,
            target,
            Some(permissions),
            bytes,
        ),
        Ok(Kind::Link) => write_in_place(disk, link, bytes),
        Ok(Kind::Other) => write_in_place(disk, link, bytes),
        Err(error) => write_through(disk, link, bytes, error),
    }
}

/// Writes through a link of which a call said this error. One that leads to no file yet makes it.
fn write_through<D: Disk>(
    disk: &mut D,
    link: &str,
    bytes: &[u8],
    error: io::Error,
) -> io::Result<()>
    ensures { MakesDiskCalls (D.calls disk.old) (D.calls disk.new)
        (λ calls. InPlaceIf (LeadsNowhere error) link.now bytes.now error calls result) }
{
    if has_kind(&error, ErrorKind::NotFound) {
        return write_in_place(disk, link, bytes);
    }
    write_in_place_after(disk, link, bytes, error)
}

/// Writes a file that is replaced whole if a new one can take its place, with these permissions.
fn write_whole<D: Disk>(
    alloc: Global,
    disk: &mut D,
    mark: Option<u64>,
    name: &str,
    permissions: Option<Permissions>,
    bytes: &[u8],
) -> io::Result<()>
    ensures { MakesDiskCalls (D.calls disk.old) (D.calls disk.new)
        (λ calls. GivesBytes mark name.now permissions bytes.now calls result) }
{
    let Some(mark) = mark else {
        return write_in_place(disk, name, bytes);
    };
    let Ok(new) = new_name(alloc, name, mark) else {
        return Err(ErrorKind::OutOfMemory.into());
    };
    match replace(disk, name, new.as_str(), permissions, bytes) {
        Ok(true) => Ok(()),
        Ok(false) => write_in_place(disk, name, bytes),
        Err(error) => Err(error),
    }
}

/// How many bytes the name of a new file has more at most: a mark has up to 20 digits.
const NEW_ENDING: usize = 25;

/// Returns the name of the new file that takes the place of the file of this name.
fn new_name(alloc: Global, name: &str, mark: u64) -> Result<String, AllocError>
    ensures { IfOk result (λ new. string_bytes new ≡ new_name name.now mark) }
{
    let mut new = String::with_capacity(alloc, name.len().saturating_add(NEW_ENDING))?;
    write!(new, "{name}.{mark}.tmp")?;
    Ok(new)
}

/// Writes the bytes to the file `new`, and renames it. Returns whether it could be made and
/// renamed. After any other error the old file stays.
fn replace<D: Disk>(
    disk: &mut D,
    name: &str,
    new: &str,
    permissions: Option<Permissions>,
    bytes: &[u8],
) -> io::Result<bool>
    ensures { MakesDiskCalls (D.calls disk.old) (D.calls disk.new)
        (λ calls. Replaces name.now new.now permissions bytes.now calls result) }
{
    let mut file = match disk.create_new(new) {
        Ok(file) => file,
        Err(error) => return unless_irreplaceable(error),
    };
    allow(disk, &mut file, permissions);
    let written = append(disk, &mut file, bytes);
    drop(file);
    let ended = match written {
        Ok(()) => match disk.rename(new, name) {
            Ok(()) => return Ok(true),
            Err(error) => unless_irreplaceable(error),
        },
        Err(error) => Err(error),
    };
    let _ = disk.remove(new);
    ended
}

/// Gives a new file its permissions. If this fails the system keeps no such permissions.
fn allow<D: Disk>(disk: &mut D, file: &mut OpenFile<'_, D::File>, permissions: Option<Permissions>)
    ensures calls { MakesDiskCalls (D.calls disk.old) (D.calls disk.new)
        (λ calls. Allows file.old.name.now permissions calls) }
    ensures name { file.new.name.now ≡ file.old.name.now }
{
    if let Some(permissions) = permissions {
        let _ = disk.set_permissions(file, permissions);
    }
}

/// Returns `false` after an error that says that no new file can be made here or take the place of
/// this one. Any other error tells nothing of that: a full disk, say, may have space in a moment.
fn unless_irreplaceable(error: io::Error) -> io::Result<bool>
    ensures { UnlessIrreplaceable error result }
{
    match error.kind() {
        ErrorKind::PermissionDenied
        | ErrorKind::ReadOnlyFilesystem
        | ErrorKind::InvalidFilename
        | ErrorKind::InvalidInput
        | ErrorKind::CrossesDevices
        | ErrorKind::ResourceBusy
        | ErrorKind::Unsupported => Ok(false),
        _ => Err(error),
    }
}

/// Writes a file in place after such an error.
fn write_in_place_after<D: Disk>(
    disk: &mut D,
    name: &str,
    bytes: &[u8],
    error: io::Error,
) -> io::Result<()>
    ensures { MakesDiskCalls (D.calls disk.old) (D.calls disk.new)
        (λ calls. InPlaceIf (IsIrreplaceable error) name.now bytes.now error calls result) }
{
    match unless_irreplaceable(error) {
        Ok(_) => write_in_place(disk, name, bytes),
        Err(error) => Err(error),
    }
}

/// Writes these bytes over those of the file.
fn write_in_place<D: Disk>(disk: &mut D, name: &str, bytes: &[u8]) -> io::Result<()>
    ensures { MakesDiskCalls (D.calls disk.old) (D.calls disk.new)
        (λ calls. InPlace name.now bytes.now calls result) }
{
    match disk.create(name) {
        Ok(mut file) => append(disk, &mut file, bytes),
        Err(error) => Err(error),
    }
}

/// Appends these bytes to an open file.
fn append<D: Disk>(disk: &mut D, file: &mut OpenFile<'_, D::File>, bytes: &[u8]) -> io::Result<()>
    ensures calls { MakesDiskCalls (D.calls disk.old) (D.calls disk.new)
        (λ calls. AppendsAll file.old.name.now bytes.now calls result) }
    ensures name { file.new.name.now ≡ file.old.name.now }
{
    let mut rest = bytes;
    for _ in 0..u64::MAX {
        if rest.is_empty() {
            return Ok(());
        }
        match disk.write(file, rest) {
            Ok(0) => return Err(ErrorKind::WriteZero.into()),
            Ok(count) => rest = &rest[count..],
            Err(error) if has_kind(&error, ErrorKind::Interrupted) => {}
            Err(error) => return Err(error),
        }
    }
    Err(ErrorKind::TimedOut.into())
}
