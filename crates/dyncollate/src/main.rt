//! The program `dyncollate`: it reads the files that its arguments name, runs the command, writes
//! the files that the command leaves, and ends with the run's status.
//!
//! Status 0: success. 1: the input is invalid. 2: the arguments are not a valid command line. 3: a
//! file could not be read or written, or memory ran out. Every status other than 0 comes with one
//! line on standard error, which gives the reason.
//!
//! What it does between the system calls is, with its promises, in the library `commands`. `main`
//! gets the arguments, passes the files of the system's disk as a `Folder` and its two outputs as
//! writers whose calls are counted, and ends with the status. How a file is read and written is in
//! the library `system_files`.
#![tactic(auto)]

use disk_folder::run;
use ninja_text::Counted;
use std::env;
use std::process::ExitCode;
use system_files::SystemDisk;

fn main(rt: HostRuntime) -> ExitCode {
    let arguments = env::args(&rt).and_then(|words| Ok(words.collect(rt.alloc())?));
    let disk = SystemDisk { rt: &rt };
    let mut out = Counted::new(rt.stdout());
    let mut err = Counted::new(rt.stderr());
    let (status, _) = run(rt.alloc(), &arguments, disk, &mut out, &mut err);
    ExitCode::from(status)
}
