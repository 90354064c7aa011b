//! Files that are values, and a folder of them. What calls were made on it exists only in proofs: a
//! history takes no memory and no time.

ghost use Rattle.std.specs.Prelude.{◌≡◌, ◌∷◌, ◌++◌, [], List, All, Some, option_copied, IfOk};
ghost use Rattle.in_memory.specs.Prelude.{ftrue, cow_slice_items, FileCall, answer_of, Gets};
ghost use Rattle.in_memory.specs.Prelude.{IsCallOf, bytes_named, AreFirst, call_of, calls_on};
ghost use Rattle.in_memory.specs.Prelude.{calls-prop, named-prop};

use commands::{Folder, PieceReader};
use std::alloc::{AllocError, Global};
use std::borrow::CowSlice;
use std::collections::BTreeMap;
use std::io;
use std::io::ErrorKind;
use std::marker::Model;

/// A file: its name and its bytes.
#[derive(Debug, Drop)]
pub struct File<'a> {
    pub name: &'a str,
    pub bytes: &'a [u8],
}

impl<'a> Model for File<'a> {
    ghost use Rattle.in_memory.specs.Given.{GivenFile};

    ghost Value = { GivenFile };

    ghost view = { λ f. record { name = f.name.now; bytes = f.bytes.now } };
}

/// A folder of these files. The first file of a name counts, and none can be written.
#[derive(Drop)]
pub(crate) struct Files<'a, 'f> {
    pub(crate) files: &'a [File<'f>],
    /// The bytes of the first file of each name.
    first: BTreeMap<&'f str, &'f [u8]>,
    pub(crate) history: History,
    ghost named: { AreFirst first files.now } by { named-prop first files.now },
    ghost got: { All (IsCallOf files.now) history.calls } by { calls-prop files.now history.calls },
}

impl<'a, 'f> Files<'a, 'f> {
    /// Returns the folder of these files, on which no call was made yet.
    pub(crate) fn new(alloc: Global, files: &'a [File<'f>]) -> Result<Files<'a, 'f>, AllocError>
        ensures files { IfOk result (λ folder. folder.files.now ≡ files.now) }
        ensures calls { IfOk result (λ folder. folder.history.calls ≡ []) }
    {
        // the last file is entered first, and earlier ones of its name replace it
        let mut first = BTreeMap::new(alloc);
        for index in (0..files.len()).rev() {
            let file = &files[index];
            first.insert(file.name, file.bytes)?;
        }
        Ok(Files {
            files,
            first,
            history: History::new(),
        })
    }

    /// Returns the bytes of the first file of this name.
    fn bytes_named(&self, name: &str) -> Option<&'f [u8]>
        ensures { option_copied result ≡ bytes_named self.now.files.now name.now }
    {
        self.first.get(name).copied()
    }

    /// Borrows the bytes of a file, or the first `most` of them if there are more.
    fn borrowed(&self, name: &str, most: usize) -> io::Result<CowSlice<'f, u8>>
        ensures { Gets (bytes_named self.now.files.now name.now)
            (answer_of cow_slice_items most result) }
    {
        let bytes = self.bytes_named(name).ok_or(ErrorKind::NotFound)?;
        Ok(CowSlice::Borrowed(&bytes[..bytes.len().min(most)]))
    }
}

impl<'f> Folder<'f> for Files<'_, 'f> {
    ghost calls = { λ s. Some (calls_on s.files.now s.history.calls) };

    fn read(&mut self, name: &str, most: usize) -> io::Result<CowSlice<'f, u8>> {
        let answer = self.borrowed(name, most);
        self.history = self.history.then(&Call::Read(name, most, &answer));
        answer
    }

    /// All bytes are one piece.
    fn feed<R: PieceReader>(&mut self, name: &str, reader: &mut R) -> io::Result<()> {
        let file = self.read(name, usize::MAX)?;
        let _ = reader.feed(&file);
        Ok(())
    }

    fn has(&mut self, name: &str, bytes: &[u8]) -> bool {
        let same = self.bytes_named(name).is_some_and(|found| found == bytes);
        self.history = self.history.then(&Call::Compared(name, bytes, same));
        same
    }

    fn write(&mut self, name: &str, bytes: &[u8]) -> io::Result<()> {
        let answer = Err(io::Error::from(ErrorKind::Unsupported));
        self.history = self.history.then(&Call::Written(name, bytes, &answer));
        answer
    }
}

/// The calls that were made on a folder, in order.
#[derive(Drop)]
pub(crate) struct History {
    pub(crate) ghost calls: { List FileCall },
}

impl Model for History {
    ghost also_owns = { λ _. ftrue };
}

/// A call, with the name of the file first, what else was passed, and the result.
#[derive(Clone, Copy, Drop)]
pub(crate) enum Call<'a> {
    Read(&'a str, usize, &'a io::Result<CowSlice<'a, u8>>),
    Compared(&'a str, &'a [u8], bool),
    Written(&'a str, &'a [u8], &'a io::Result<()>),
}

impl History {
    /// Returns the history of a folder on which no call was made yet.
    #[inline(always)]
    fn new() -> History
        ensures { result.calls ≡ [] }
    {
        History {}
    }

    /// Returns the history with one more call.
    #[inline(always)]
    fn then(&self, _call: &Call<'_>) -> History
        ensures { result.calls ≡ self.now.calls ++ call_of _call.now ∷ [] }
    {
        History {}
    }
}
