//! What is true at each moment of a write, and what is read. A law is the contract of a function
//! that does nothing.
ghost use Rattle.std.specs.Prelude.{◌≡◌, ◌⊎◌, ℕ, List, ◌++◌, take, Bool, Option, Ok, Some};
ghost use Rattle.system_files.specs.Prelude.{Bytes, DiskCall, DoneOrError, PathText, WritesInRun};
ghost use Rattle.system_files.specs.Prelude.{IsInPlace};
ghost use Rattle.system_files.specs.Prelude.{KeepsOldOrNew, Files, InPlace, AtEachMoment, AllLeave};
ghost use Rattle.system_files.specs.Prelude.{OldOrBeginning, ReadsFrom, GetsBytes, GetsAll, Opens};
ghost use Rattle.system_files.specs.Prelude.{ReadsUpTo, HasBytes, Differs};

/// At each moment of a [`write`](crate::write), also if the run is killed, the file has its old
/// bytes or the new ones, unless it is written in place.
pub fn a_file_is_old_or_new()
    ensures { (old new : Option ℕ) (name : PathText) (bytes : Bytes) (calls : List DiskCall)
        (result : DoneOrError) → WritesInRun old new name bytes calls result
        → IsInPlace calls ⊎ KeepsOldOrNew name bytes calls result }
{}

/// At each moment of a file that is written in place, also if the run is killed, the file has its
/// old bytes or a beginning of the new ones. If all calls succeed, it has the new ones.
pub fn a_file_in_place_is_old_or_a_beginning()
    ensures moments { (name : PathText) (bytes : Bytes) (calls : List DiskCall)
        (result : DoneOrError) (files : Files) → InPlace name bytes calls result
        → AtEachMoment name (OldOrBeginning name bytes) calls files }
    ensures whole { (name : PathText) (bytes : Bytes) (calls : List DiskCall) (old new : Files)
        → InPlace name bytes calls (Ok tt) → AllLeave calls old new → new name ≡ Some bytes }
{}

/// What is read of a file that nobody changes meanwhile: all of its bytes, or a beginning. So
/// [`read`](crate::read) returns its bytes, or the first `most`, and
/// [`has_bytes`](crate::has_bytes) returns whether it has these.
pub fn a_file_is_read_as_it_is()
    ensures all { (name : PathText) (bytes got : Bytes) (calls : List DiskCall)
        → ReadsFrom bytes calls → GetsAll name calls got → got ≡ bytes }
    ensures beginning { (name : PathText) (bytes got : Bytes) (calls : List DiskCall)
        → ReadsFrom bytes calls → GetsBytes name calls got
        → (rest : Bytes) × (bytes ≡ got ++ rest) }
    ensures read { (most : ℕ) (name : PathText) (bytes got : Bytes) (calls : List DiskCall)
        → ReadsFrom bytes calls → Opens (ReadsUpTo most name) name calls (Ok got)
        → got ≡ take most bytes }
    ensures compared { (name : PathText) (bytes wanted : Bytes) (calls : List DiskCall)
        (same : Bool) → ReadsFrom bytes calls → HasBytes wanted name calls (Ok same)
        → Differs wanted bytes same calls }
{}
