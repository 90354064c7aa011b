//! The calls of the system by which files are read and written, one by one.

ghost use Rattle.std.specs.Prelude.{◌≡◌, ◌<◌, ◌∷◌, List, length, Option, IfOk, MatchBool};
ghost use Rattle.std.specs.Io.{ReadsAtMost, WritesAtMost};
ghost use Rattle.system_files.specs.Prelude.{[], DiskCall, AddsDiskCalls, done, found_name, got_in};
ghost use Rattle.system_files.specs.Prelude.{drawing};
ghost use Rattle.system_files.specs.Prelude.{looking, following, resolving, opening, getting};
ghost use Rattle.system_files.specs.Prelude.{creating, emptying, allowing, appending, renaming};
ghost use Rattle.system_files.specs.Prelude.{removing, error_kind};

use std::alloc::Global;
use std::fs::Permissions;
use std::io;
use std::io::ErrorKind;

/// What there is under a name.
#[derive(Drop)]
pub enum Kind {
    File(Permissions),
    Link,
    /// A directory, a device, a pipe or a socket.
    Other,
}

/// An open file, with the name that it was opened by. It is closed when it is dropped.
#[derive(Drop)]
pub struct OpenFile<'n, F> {
    pub name: &'n str,
    pub file: F,
}

/// Something on which these calls can be made, one at a time, each with the result of the system.
///
/// What a function does to a `Disk` is said of every `Disk`, by the calls that it makes: which, in
/// what order, and with which results. The system is a `Disk` of which nothing is known.
pub trait Disk {
    type File: Drop;

    // the calls that were made so far, in order, if they are known
    ghost calls: { Self → Option (List DiskCall) };

    /// Returns a random number, or `None` if the system gives none.
    fn random(&mut self) -> Option<u64>
        ensures { AddsDiskCalls (calls self.old) (calls self.new) (drawing result ∷ []) };

    /// Returns what there is under this name. A link is not followed.
    fn look(&mut self, name: &str) -> io::Result<Kind>
        ensures { AddsDiskCalls (calls self.old) (calls self.new) (looking name.now result ∷ []) };

    /// Returns what there is under this name. A link is followed.
    fn follow(&mut self, name: &str) -> io::Result<Kind>
        ensures { AddsDiskCalls (calls self.old) (calls self.new)
            (following name.now result ∷ []) };

    /// Returns the name of the file that a link leads to.
    fn resolve(&mut self, alloc: Global, name: &str) -> io::Result<String>
        ensures { AddsDiskCalls (calls self.old) (calls self.new)
            (resolving name.now (found_name result) ∷ []) };

    /// Opens the file of this name to read it.
    fn open<'n>(&mut self, name: &'n str) -> io::Result<OpenFile<'n, Self::File>>
        ensures call { AddsDiskCalls (calls self.old) (calls self.new)
            (opening name.now (done result) ∷ []) }
        ensures name { IfOk result (λ file. file.name.now ≡ name.now) };

    /// Reads what comes next of an open file into the buffer, and returns how many bytes: none at
    /// the end of the file.
    fn read(&mut self, file: &mut OpenFile<'_, Self::File>, buffer: &mut [u8]) -> io::Result<usize>
        requires { 0 < length buffer.old }
        ensures bound { ReadsAtMost result buffer.new }
        ensures call { AddsDiskCalls (calls self.old) (calls self.new)
            (getting file.old.name.now (got_in buffer.new result) ∷ []) }
        ensures name { file.new.name.now ≡ file.old.name.now };

    /// Makes a file of this name, and fails if there is something under this name already.
    fn create_new<'n>(&mut self, name: &'n str) -> io::Result<OpenFile<'n, Self::File>>
        ensures call { AddsDiskCalls (calls self.old) (calls self.new)
            (creating name.now (done result) ∷ []) }
        ensures name { IfOk result (λ file. file.name.now ≡ name.now) };

    /// Opens the file of this name, without its bytes. It is made if there is none.
    fn create<'n>(&mut self, name: &'n str) -> io::Result<OpenFile<'n, Self::File>>
        ensures call { AddsDiskCalls (calls self.old) (calls self.new)
            (emptying name.now (done result) ∷ []) }
        ensures name { IfOk result (λ file. file.name.now ≡ name.now) };

    /// Sets the permissions of an open file.
    fn set_permissions(
        &mut self,
        file: &mut OpenFile<'_, Self::File>,
        permissions: Permissions,
    ) -> io::Result<()>
        ensures call { AddsDiskCalls (calls self.old) (calls self.new)
            (allowing file.old.name.now permissions result ∷ []) }
        ensures name { file.new.name.now ≡ file.old.name.now };

    /// Appends some of these bytes to an open file, and returns how many.
    fn write(&mut self, file: &mut OpenFile<'_, Self::File>, bytes: &[u8]) -> io::Result<usize>
        ensures bound { WritesAtMost result bytes.now }
        ensures call { AddsDiskCalls (calls self.old) (calls self.new)
            (appending file.old.name.now bytes.now result ∷ []) }
        ensures name { file.new.name.now ≡ file.old.name.now };

    /// Gives the file of the first name the second one. A file of that name is replaced.
    fn rename(&mut self, from: &str, to: &str) -> io::Result<()>
        ensures { AddsDiskCalls (calls self.old) (calls self.new)
            (renaming from.now to.now result ∷ []) };

    /// Removes the file of this name.
    fn remove(&mut self, name: &str) -> io::Result<()>
        ensures { AddsDiskCalls (calls self.old) (calls self.new) (removing name.now result ∷ []) };
}

/// Returns whether a call failed with an error of this kind.
pub fn has_kind(error: &io::Error, kind: ErrorKind) -> bool
    ensures { MatchBool result (error_kind error.now ≡ kind) (error_kind error.now ≡ kind → ⊥) }
{
    error.kind() == kind
}
