//! What a run leaves that is killed. A law is the contract of a function that does nothing.
ghost use Rattle.std.specs.Prelude.{◌≡◌, ◌⊎◌, ℕ, ◌++◌, ◌∷◌, List, Option};
ghost use Rattle.disk_folder.specs.Prelude.{FileValue, Outcome, OutputValue, Files, Step, AreSteps};
ghost use Rattle.disk_folder.specs.Prelude.{Words, ArgumentsRun, calls_in, LeavesFiles, AreWritten};
ghost use Rattle.disk_folder.specs.Prelude.{HaveBytes};

/// A run reads, and then writes its files. At each moment of its calls on the disk, even if it is
/// killed in one, a beginning of the files is new, and all others but the next one are as they
/// were.
pub fn a_beginning_of_the_files_is_new()
    ensures { (words : Words) (steps : List Step) (outcome : Outcome OutputValue)
        (start end : Option ℕ) → ArgumentsRun words (calls_in steps) outcome
        → AreSteps start end steps → LeavesFiles steps }
{}

/// So each file is as it was, or all files before it are new. A dyndep file comes after the maps
/// and the info file of its target: if it is new, they are.
pub fn a_new_file_follows_new_ones()
    ensures { (before after : List FileValue) (file : FileValue) (old now : Files)
        → AreWritten (before ++ file ∷ after) old now
        → (now file.name ≡ old file.name) ⊎ HaveBytes before now }
{}
