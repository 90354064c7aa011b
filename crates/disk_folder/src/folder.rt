//! The files of a disk, as a `Folder`: how each of its calls is made of the disk's.

ghost use Rattle.std.specs.Prelude.{◌≡◌, IfOk};
ghost use Rattle.disk_folder.specs.Prelude.{[], HasMade, HasNoCalls, MakesDiskCalls, Opens};
ghost use Rattle.disk_folder.specs.Prelude.{ReadsFile, WasGiven, calls_known, fed};

use crate::history::{Call, History};
use commands::{Folder, PieceReader};
use std::alloc::Global;
use std::borrow::CowSlice;
use std::io;
use std::io::ErrorKind;
use system_files::{Disk, has_bytes, has_kind, read, write};

/// The files of a disk on which no other calls were made.
#[derive(Drop)]
pub struct DiskFolder<D: Disk> {
    alloc: Global,
    pub(crate) disk: D,
    /// The random number in the names of new files, once one was drawn.
    mark: Option<u64>,
    pub(crate) history: History,
    ghost made: { ∥ HasMade mark (D.calls disk) history.calls ∥₁ },
}

impl<D: Disk> DiskFolder<D> {
    /// Returns the folder of the files of this disk.
    pub fn new(alloc: Global, disk: D) -> DiskFolder<D>
        requires { HasNoCalls (D.calls disk) }
        ensures disk { result.disk ≡ disk }
        ensures calls { result.history.calls ≡ [] }
    {
        DiskFolder {
            alloc,
            disk,
            mark: None,
            history: History::new(),
        }
    }
}

impl<'f, D: Disk> Folder<'f> for DiskFolder<D> {
    ghost calls = { λ s. calls_known (D.calls s.disk) s.history.calls };

    fn read(&mut self, name: &str, most: usize) -> io::Result<CowSlice<'f, u8>> {
        let result = match read(self.alloc, &mut self.disk, name, most) {
            Ok(bytes) => Ok(CowSlice::Owned(bytes)),
            Err(error) => Err(error),
        };
        self.history = self.history.then(&Call::Read(name, most, &result));
        result
    }

    /// Stops at the first piece that the reader rejects.
    fn feed<R: PieceReader>(&mut self, name: &str, reader: &mut R) -> io::Result<()> {
        let ended = feed_file(&mut self.disk, &mut self.history, name, reader);
        self.history = self.history.then(&Call::Fed(name, &ended));
        match ended {
            Ok(_) => Ok(()),
            Err(error) => Err(error),
        }
    }

    fn has(&mut self, name: &str, bytes: &[u8]) -> bool {
        let same = has_bytes(&mut self.disk, name, bytes).unwrap_or(false);
        self.history = self.history.then(&Call::Compared(name, bytes, same));
        same
    }

    fn write(&mut self, name: &str, bytes: &[u8]) -> io::Result<()> {
        let result = write(self.alloc, &mut self.disk, &mut self.mark, name, bytes);
        self.history = self.history.then(&Call::Written(name, bytes, &result));
        result
    }
}

/// Gives the bytes of the file of this name to a reader, in pieces, as they are read. Returns
/// whether the file has ended.
fn feed_file<D: Disk, R: PieceReader>(
    disk: &mut D,
    history: &mut History,
    name: &str,
    reader: &mut R,
) -> io::Result<bool>
    ensures calls { history.new.calls ≡ history.old.calls }
    ensures disk { MakesDiskCalls (D.calls disk.old) (D.calls disk.new)
        (λ calls. Opens (ReadsFile name.now) name.now calls (fed history.new.given result)) }
    ensures reader { R.has_read [] reader.old → IfOk result (λ ended.
        WasGiven R.has_read R.has_failed (record { bytes = history.new.given; ended = ended })
        reader.new) }
{
    *history = history.then(&Call::Opened);
    let mut file = match disk.open(name) {
        Ok(file) => file,
        Err(error) => return Err(error),
    };
    let mut buffer = [0; 65536];
    for _ in 0..u64::MAX {
        match disk.read(&mut file, &mut buffer) {
            Ok(0) => return Ok(true),
            Ok(count) => {
                let piece = &buffer[..count];
                *history = history.then(&Call::Piece(piece));
                if !reader.feed(piece) {
                    return Ok(false);
                }
            }
            Err(error) if has_kind(&error, ErrorKind::Interrupted) => {}
            Err(error) => return Err(error),
        }
    }
    Err(ErrorKind::FileTooLarge.into())
}
