//! The arguments of the program `dyncollate`: [`task_of`] says which [`Task`] they call for
//! (`specs/Tasks.antt`).
//!
//! It uses `clap`, which parses them: one command with a subcommand for each command of the
//! program. What its contract says of a parse, and that this is what `specs/Tasks.antt` means by
//! operands, is shown in `proofs/`: of the words after a command in `Positionals.antt`, and of the
//! command's own and of all arguments in `Commands.antt`.
#![tactic(auto)]

ghost use Rattle.std.specs.Prelude.{◌≡◌, map, option_map, string_bytes, IfOk};
ghost use Rattle.clap.specs.Words.{app_of, first_value, found_of, with_subcommand};
ghost use Rattle.command_line.specs.Tasks.{AreCallOf, task_value};
ghost use Rattle.command_line.specs.inner.Parses.{command_app, program, task_by};

use clap::error::ErrorKind;
use clap::{Arg, ArgMatches, Command};
use std::alloc::{AllocError, Global};

/// What the program has to do.
#[derive(Clone, Copy)]
pub enum Task<'a> {
    /// Write the dyndep text of one scan document.
    One {
        scan: &'a str,
        dir: &'a str,
        ext: &'a str,
    },
    /// Write the files of the target of this target document.
    Collate(&'a str),
    /// Print the statements of this dyndep file.
    Show(&'a str),
    /// Print an edge list as a dyndep file changes it. Edges refer to the file by this name.
    Effect {
        name: &'a str,
        edges: &'a str,
        dyndep: &'a str,
    },
    /// Print the edges of this edge list in build order.
    Order(&'a str),
    /// Write the files of the targets of this project document.
    Project(&'a str),
}

/// Returns the task that the arguments ask for, or `None` if they are not a valid command line. The
/// first argument is the program's own name.
///
/// A command line is the name of a command and exactly as many operands as the command takes. The
/// first `--` after the command is dropped. Before it, an argument of two or more bytes that begins
/// with `-` is a flag, and no command has flags. Every other argument is an operand, including the
/// empty string and `-`. Returns an error if an allocation fails.
pub fn task_of<'a>(alloc: Global, arguments: &'a [String]) -> Result<Option<Task<'a>>, AllocError>
    ensures { IfOk result (AreCallOf (map string_bytes arguments.now)) }
{
    let command = program(alloc)?;
    match command.try_get_matches_from(arguments) {
        Ok(matches) => match matches.subcommand() {
            Some((command, given)) => Ok(task_by(command, given)),
            None => Ok(None),
        },
        Err(error) => match error.kind() {
            ErrorKind::OutOfMemory => Err(AllocError),
            _ => Ok(None),
        },
    }
}

/// The name and the operands of each command.
const COMMANDS: [(&str, &[&str]); 6] = [
    ("one", &["scan", "dir", "ext"]),
    ("collate", &["target"]),
    ("show", &["dyndep"]),
    ("effect", &["name", "edges", "dyndep"]),
    ("order", &["edges"]),
    ("project", &["document"]),
];

/// Returns the program's commands with their operands.
fn program<'a>(alloc: Global) -> Result<Command<'a>, AllocError>
    ensures { IfOk result (λ c. app_of c ≡ program) }
{
    let mut program = Command::new(alloc, "dyncollate")
        .disable_help_flag(true)
        .disable_help_subcommand(true)
        .subcommand_required(true);
    for (name, operands) in &COMMANDS {
        program = with_command(alloc, program, name, operands)?;
    }
    Ok(program)
}

/// Adds a command with these operands.
fn with_command<'a>(
    alloc: Global,
    program: Command<'a>,
    name: &'static str,
    operands: &[&'static str],
) -> Result<Command<'a>, AllocError>
    ensures { IfOk result (λ c. app_of c ≡ with_subcommand (app_of program.entry)
        (command_app name.now (map (λ o. o.now) operands.now)).top) }
{
    let mut command = Command::new(alloc, name);
    for operand in operands {
        command = command.arg(Arg::new(alloc, *operand).required(true))?;
    }
    program.subcommand(command)
}

/// Returns the task of a command, or `None` if an operand is missing.
fn task_by<'a>(command: &str, given: &ArgMatches<'a>) -> Option<Task<'a>>
    ensures { option_map task_value result
        ≡ task_by command.now (first_value (found_of given.now)) }
{
    match command {
        "one" => Some(Task::One {
            scan: given.get_str("scan")?,
            dir: given.get_str("dir")?,
            ext: given.get_str("ext")?,
        }),
        "collate" => Some(Task::Collate(given.get_str("target")?)),
        "show" => Some(Task::Show(given.get_str("dyndep")?)),
        "effect" => Some(Task::Effect {
            name: given.get_str("name")?,
            edges: given.get_str("edges")?,
            dyndep: given.get_str("dyndep")?,
        }),
        "order" => Some(Task::Order(given.get_str("edges")?)),
        "project" => Some(Task::Project(given.get_str("document")?)),
        _ => None,
    }
}
