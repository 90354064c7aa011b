//! The program over a disk.

ghost use Rattle.disk_folder.specs.Prelude.{IsDiskRun, HasNoCalls, words_of};

use crate::folder::DiskFolder;
use commands::program_run;
use ninja_text::{Counted, WriteCall};
use std::alloc::Global;
use std::io;
use system_files::Disk;

/// Runs the program on its arguments, the program's own name the first of them, over a disk on
/// which no call was made yet. Returns the exit status, and the disk.
pub fn run<D: Disk, O: WriteCall, E: WriteCall>(
    alloc: Global,
    arguments: &io::Result<Vec<String>>,
    disk: D,
    out: &mut Counted<O>,
    err: &mut Counted<E>,
) -> (u8, D)
    requires { HasNoCalls (D.calls disk) }
    ensures { ∥ IsDiskRun O.contents E.contents (D.calls disk) (D.calls result.1)
        out.old out.new err.old err.new (words_of arguments.now) result.0 ∥₁ }
{
    let mut folder = DiskFolder::new(alloc, disk);
    let status = program_run(alloc, arguments, &mut folder, out, err);
    (status, folder.disk)
}
