//! What files are read from and written to, and how a run reads them: each when its turn comes, and
//! none after one that can't be read.

ghost use Rattle.std.specs.Prelude.{◌∷◌, ◌++◌, List, Option, map, string_bytes};
ghost use Rattle.commands.specs.Prelude.{[], cow_slice_items, Bytes, FileCall, FileRead, reading};
ghost use Rattle.commands.specs.Prelude.{comparing, writing, answer_of, Adds, ReadsOn, WasGiven};
ghost use Rattle.commands.specs.Prelude.{GivesPieces, Runs, ReadsDocument, ReadsAs, ReadsAll};
ghost use Rattle.commands.specs.Prelude.{seen, listed_texts};

use crate::first_indexes::FirstIndexes;
use crate::lists::pushed;
use crate::stop::{self, Stop};
use collate_core::Listed;
use scan_docs::DOCUMENT_LIMIT;
use std::alloc::Global;
use std::borrow::CowSlice;
use std::collections::BTreeMap;
use std::io;

/// What has files that can be read and written by name. Bytes that it has in memory are borrowed.
///
/// Contracts hold for every `Folder`: they say which calls a function makes, in what order, and
/// what these returned. Nothing is assumed about the system's files. A `Folder` of which more is
/// known can say so.
pub trait Folder<'f> {
    // the calls that were made so far, in order, if they are known
    ghost calls: { Self → Option (List FileCall) };

    /// Returns the bytes of the file of this name, or at least the first `most` of them if there
    /// are more.
    fn read(&mut self, name: &str, most: usize) -> io::Result<CowSlice<'f, u8>>
        ensures { Adds (calls self.old) (calls self.new)
            (reading name.now (answer_of cow_slice_items most result) ∷ []) };

    /// Gives the bytes of the file of this name to a new reader, in pieces, as they are read: all
    /// of them, or those up to the first piece at which the reader has failed.
    fn feed<R: PieceReader>(&mut self, name: &str, reader: &mut R) -> io::Result<()>
        ensures { R.has_read [] reader.old → GivesPieces R.has_read R.has_failed name.now
            (calls self.old) (calls self.new) result reader.new };

    /// Returns whether the file of this name has exactly these bytes already; `false` if it can't
    /// be read.
    fn has(&mut self, name: &str, bytes: &[u8]) -> bool
        ensures { Adds (calls self.old) (calls self.new)
            (comparing name.now bytes.now result ∷ []) };

    /// Makes these the bytes of the file of this name.
    fn write(&mut self, name: &str, bytes: &[u8]) -> io::Result<()>
        ensures { Adds (calls self.old) (calls self.new)
            (writing name.now bytes.now result ∷ []) };
}

/// What reads a file that comes in pieces, up to the first piece at which it fails.
pub trait PieceReader {
    /// What a file is read as.
    type Read;

    // it was given these bytes in all, and has not failed
    ghost has_read: { Bytes → Self → Type 0 };

    // it was given these bytes in all, and has failed at the last piece
    ghost has_failed: { Bytes → Self → Type 0 };

    // what a file is read as follows from what was read of it
    ghost follows: { FileRead → Self.Read → Type 0 };

    // a reader that has failed stays so: the file is read as that failure, and as no other
    ghost stays: { Self → Self.Read → Type 0 };

    /// Reads the next piece, and returns whether it reads on.
    fn feed(&mut self, piece: &[u8]) -> bool
        // Whatever bytes it was given before this piece.
        ensures { (bytes : Bytes) → has_read bytes self.old →
            ReadsOn has_read has_failed (bytes ++ piece.now) result self.new };

    /// Returns what the file is read as.
    fn finish(self) -> Self::Read
        ensures read { (file : FileRead) → WasGiven has_read has_failed file self →
            follows file result }
        ensures failed { stays self result };
}

/// Reads the file of this name by a new reader, up to its end or to its first rejected line.
pub(crate) fn read_file<'f, R: PieceReader + Drop, F: Folder<'f>>(
    alloc: Global,
    name: &str,
    reader: R,
    folder: &mut F,
) -> Result<R::Read, Stop>
    requires { R.has_read [] reader }
    ensures { Runs (F.calls folder.old) (F.calls folder.new) (ReadsAs R.follows name.now) result }
{
    let mut reader = reader;
    match folder.feed(name, &mut reader) {
        Ok(()) => Ok(reader.finish()),
        Err(error) => Err(stop::of_unread(alloc, name, error)),
    }
}

/// How many bytes of a document are read at most: with one more than it may have it is rejected.
const DOCUMENT_MOST: usize = DOCUMENT_LIMIT + 1;

/// Reads the document of this name.
pub(crate) fn read<'f, F: Folder<'f>>(
    alloc: Global,
    name: &str,
    folder: &mut F,
) -> Result<CowSlice<'f, u8>, Stop>
    ensures { Runs (F.calls folder.old) (F.calls folder.new) (ReadsDocument name.now)
        (seen cow_slice_items result) }
{
    match folder.read(name, DOCUMENT_MOST) {
        Ok(file) => Ok(file),
        Err(error) => Err(stop::of_unread(alloc, name, error)),
    }
}

/// Reads the documents of these names, one after another. A name that is listed again is not read
/// again.
pub(crate) fn read_all<'f, F: Folder<'f>>(
    alloc: Global,
    names: &[String],
    folder: &mut F,
) -> Result<Vec<Listed<CowSlice<'f, u8>>>, Stop>
    ensures { Runs (F.calls folder.old) (F.calls folder.new)
        (ReadsAll (map string_bytes names.now)) (seen (listed_texts cow_slice_items) result) }
{
    let mut files = Vec::new(alloc);
    let mut known = FirstIndexes {
        slots: Vec::new(alloc),
        others: BTreeMap::new(alloc),
    };
    for (index, name) in names.iter().enumerate() {
        let name = name.as_str();
        let listed = match known.first_of(alloc, names, index)? {
            None => Listed::First(read(alloc, name, folder)?),
            Some(first) => Listed::Again(first),
        };
        files = pushed(files, listed)?;
    }
    Ok(files)
}
