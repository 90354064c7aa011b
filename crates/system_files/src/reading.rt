//! How a file is read up to a length, or compared with bytes.

ghost use Rattle.system_files.specs.Prelude.{seen_read, Compares, HasBytes, MakesDiskCalls, Opens};
ghost use Rattle.system_files.specs.Prelude.{ReadsUpTo};

use crate::disk::{Disk, Kind, OpenFile, has_kind};
use std::alloc::Global;
use std::io;
use std::io::ErrorKind;

/// Returns the bytes of the file of this name, or the first `most` of them if there are more. An
/// error is that of the system, or that memory ran out.
pub fn read<D: Disk>(alloc: Global, disk: &mut D, name: &str, most: usize) -> io::Result<Vec<u8>>
    ensures { MakesDiskCalls (D.calls disk.old) (D.calls disk.new)
        (λ calls. Opens (ReadsUpTo most name.now) name.now calls (seen_read result)) }
{
    match disk.open(name) {
        Ok(mut file) => read_open(alloc, disk, &mut file, most),
        Err(error) => Err(error),
    }
}

/// Returns the bytes of an open file, or the first `most` of them.
fn read_open<D: Disk>(
    alloc: Global,
    disk: &mut D,
    file: &mut OpenFile<'_, D::File>,
    most: usize,
) -> io::Result<Vec<u8>>
    ensures { MakesDiskCalls (D.calls disk.old) (D.calls disk.new)
        (λ calls. ReadsUpTo most file.old.name.now calls (seen_read result)) }
{
    let mut bytes = Vec::new(alloc);
    let mut piece = [0; 65536];
    for _ in 0..u64::MAX {
        let room = (most - bytes.len()).min(piece.len());
        if room == 0 {
            return Ok(bytes);
        }
        match disk.read(file, &mut piece[..room]) {
            Ok(0) => return Ok(bytes),
            Ok(count) => bytes.extend_from_slice(&piece[..count])?,
            Err(error) if has_kind(&error, ErrorKind::Interrupted) => {}
            Err(error) => return Err(error),
        }
    }
    Err(ErrorKind::TimedOut.into())
}

/// Returns whether the file of this name has exactly these bytes. It is read in pieces, up to the
/// first that differs. A pipe or a device is not opened: its reader would wait for a writer. A file
/// that can't be read is an error.
pub fn has_bytes<D: Disk>(disk: &mut D, name: &str, bytes: &[u8]) -> io::Result<bool>
    ensures { MakesDiskCalls (D.calls disk.old) (D.calls disk.new)
        (λ calls. HasBytes bytes.now name.now calls result) }
{
    match disk.follow(name) {
        Ok(Kind::File(_)) => has_bytes_inside(disk, name, bytes),
        Ok(Kind::Link | Kind::Other) => Ok(false),
        Err(error) => Err(error),
    }
}

/// Opens the file of this name, and compares it.
fn has_bytes_inside<D: Disk>(disk: &mut D, name: &str, bytes: &[u8]) -> io::Result<bool>
    ensures { MakesDiskCalls (D.calls disk.old) (D.calls disk.new)
        (λ calls. Opens (Compares bytes.now name.now) name.now calls result) }
{
    match disk.open(name) {
        Ok(mut file) => compare(disk, &mut file, bytes),
        Err(error) => Err(error),
    }
}

/// Returns whether an open file has exactly these bytes.
fn compare<D: Disk>(
    disk: &mut D,
    file: &mut OpenFile<'_, D::File>,
    bytes: &[u8],
) -> io::Result<bool>
    ensures { MakesDiskCalls (D.calls disk.old) (D.calls disk.new)
        (λ calls. Compares bytes.now file.old.name.now calls result) }
{
    let mut rest = bytes;
    let mut piece = [0; 4096];
    for _ in 0..u64::MAX {
        // one byte more than the file should have shows that it has more
        let room = rest.len().clamp(1, piece.len());
        match disk.read(file, &mut piece[..room]) {
            Ok(0) => return Ok(rest.is_empty()),
            Ok(count) => match rest.strip_prefix(&piece[..count]) {
                Some(after) => rest = after,
                None => return Ok(false),
            },
            Err(error) if has_kind(&error, ErrorKind::Interrupted) => {}
            Err(error) => return Err(error),
        }
    }
    Err(ErrorKind::TimedOut.into())
}
