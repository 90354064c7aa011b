//! What calls were made on a folder. It exists only in proofs: a history takes no memory and no
//! time.

ghost use Rattle.std.specs.Prelude.{◌≡◌, ◌++◌, List};
ghost use Rattle.disk_folder.specs.Prelude.{[], ftrue, Bytes, FileCall, given_after, calls_of};

use std::borrow::CowSlice;
use std::io;
use std::marker::Model;

/// The calls that were made on a folder, in order, and the bytes that a reader was given of the
/// file that was opened last.
#[derive(Drop)]
pub(crate) struct History {
    pub(crate) ghost given: { Bytes },
    pub(crate) ghost calls: { List FileCall },
}

impl Model for History {
    ghost also_owns = { λ _. ftrue };
}

/// A call, with the name of the file first, what else was passed, and the result; or a step of a
/// call that feeds a reader.
#[derive(Clone, Copy, Drop)]
pub(crate) enum Call<'a> {
    Opened,
    Piece(&'a [u8]),
    /// The result is whether the file has ended.
    Fed(&'a str, &'a io::Result<bool>),
    Read(&'a str, usize, &'a io::Result<CowSlice<'a, u8>>),
    Compared(&'a str, &'a [u8], bool),
    Written(&'a str, &'a [u8], &'a io::Result<()>),
}

impl History {
    /// Returns the history of a folder on which no call was made yet.
    #[inline(always)]
    pub(crate) fn new() -> History
        ensures { result.calls ≡ [] }
    {
        History {}
    }

    /// Returns the history with one more call, or one more step of a call.
    #[inline(always)]
    pub(crate) fn then(&self, _call: &Call<'_>) -> History
        ensures { (result.given ≡ given_after self.now.given _call.now)
            × (result.calls ≡ self.now.calls ++ calls_of self.now.given _call.now) }
    {
        History {}
    }
}
