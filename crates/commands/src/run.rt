//! The whole program, except for the calls of the system: the task of its arguments, the run, and
//! the writing and printing of what it leaves.

ghost use Rattle.commands.specs.Prelude.{Runs, task_value, words_of, ArgumentsRun, IsProgramRun};
ghost use Rattle.commands.specs.Prelude.{TaskRun, file_value, WritesFile, WritesFiles};

use crate::answer::{Answer, print};
use crate::edges::{effect_of_read, order_of_read, show_of_read};
use crate::folder::{Folder, read, read_file};
use crate::location::Location;
use crate::projects::project;
use crate::stop::{self, Output, OutputFile, Stop};
use crate::target::{collate, one};
use build_effect::ListingReader;
use command_line::{Task, task_of};
use dyndep_file::DyndepReader;
use ninja_text::{Counted, Failure, WriteCall};
use std::alloc::Global;
use std::io;
use std::io::ErrorKind;

/// Runs the program on its arguments, the program's own name the first of them: runs their task,
/// writes its files to the `Folder` and its texts to the two writers, and returns the exit status.
/// If the arguments cannot be read, the command line is not valid. (Running out of memory is
/// reported as such.)
pub fn program_run<'f, F: Folder<'f>, O: WriteCall, E: WriteCall>(
    alloc: Global,
    arguments: &io::Result<Vec<String>>,
    folder: &mut F,
    out: &mut Counted<O>,
    err: &mut Counted<E>,
) -> u8
    ensures { IsProgramRun O.contents E.contents (F.calls folder.old) (F.calls folder.new)
        out.old out.new err.old err.new (words_of arguments.now) result }
{
    let outcome = arguments_run(alloc, arguments, folder);
    let answer = Answer::of(alloc, outcome);
    print(&answer, out, err)
}

/// Runs the task of the arguments, and writes its files.
fn arguments_run<'f, F: Folder<'f>>(
    alloc: Global,
    arguments: &io::Result<Vec<String>>,
    folder: &mut F,
) -> Result<Output, Stop>
    ensures { Runs (F.calls folder.old) (F.calls folder.new)
        (ArgumentsRun (words_of arguments.now)) result }
{
    let task = match arguments {
        Ok(words) => task_of(alloc, words)?,
        Err(error) if error.kind() == ErrorKind::OutOfMemory => return Err(Failure::Memory),
        Err(_) => None,
    };
    let Some(task) = task else {
        let message = Vec::from_slice(alloc, b"usage");
        return Err(stop::stopped(2, message, Location::nowhere()));
    };
    let output = task_run(alloc, &task, folder)?;
    write_files(alloc, &output, folder)?;
    Ok(output)
}

/// Runs a task. The files that it names are read, each when its turn comes; none is written.
pub fn task_run<'f, F: Folder<'f>>(
    alloc: Global,
    task: &Task,
    folder: &mut F,
) -> Result<Output, Stop>
    ensures { Runs (F.calls folder.old) (F.calls folder.new) (TaskRun (task_value task.now))
        result }
{
    match task {
        Task::One { scan, dir, ext } => {
            let scan = read(alloc, scan, folder)?;
            one(alloc, &scan, dir, ext)
        }
        Task::Collate(target) => {
            let document = read(alloc, target, folder)?;
            collate(alloc, &document, folder)
        }
        Task::Show(dyndep) => {
            let dyndep = read_file(alloc, dyndep, DyndepReader::new(alloc), folder)?;
            show_of_read(alloc, dyndep)
        }
        Task::Effect {
            name,
            edges,
            dyndep,
        } => {
            let listing = read_file(alloc, edges, ListingReader::new(alloc), folder)?;
            let dyndep = read_file(alloc, dyndep, DyndepReader::new(alloc), folder)?;
            effect_of_read(alloc, name, &listing, dyndep)
        }
        Task::Order(edges) => {
            let listing = read_file(alloc, edges, ListingReader::new(alloc), folder)?;
            order_of_read(alloc, &listing)
        }
        Task::Project(document) => {
            let document = read(alloc, document, folder)?;
            project(alloc, &document, folder)
        }
    }
}

/// Writes the files of an output, in order, up to the first that can't be written. The run stops
/// with the name of that file; the files before it stay. A file that has its bytes is left alone if
/// the output says so.
pub fn write_files<'f, F: Folder<'f>>(
    alloc: Global,
    output: &Output,
    folder: &mut F,
) -> Result<(), Stop>
    ensures { Runs (F.calls folder.old) (F.calls folder.new) (WritesFiles output.now.files) result }
{
    for file in &output.files {
        write(alloc, file, folder)?;
    }
    Ok(())
}

/// Writes a file, or leaves it alone if it may be left alone and has its bytes.
fn write<'f, F: Folder<'f>>(alloc: Global, file: &OutputFile, folder: &mut F) -> Result<(), Stop>
    ensures { Runs (F.calls folder.old) (F.calls folder.new) (WritesFile (file_value file.now))
        result }
{
    if file.keeps && folder.has(file.name.as_str(), file.bytes.as_slice()) {
        return Ok(());
    }
    match folder.write(file.name.as_str(), file.bytes.as_slice()) {
        Ok(()) => Ok(()),
        Err(error) => Err(stop::of_unwritten(alloc, file.name.as_str(), error)),
    }
}
