//! What a run leaves that succeeds, and why a run stops.

ghost use Rattle.std.specs.Prelude.{◌≡◌, ◌∷◌, ◌++◌, [], Err, codes, map, IfOk};
ghost use Rattle.commands.specs.Prelude.{failed, ForFault};
ghost use Rattle.commands.specs.Prelude.{file_value, reading, printed, written, IsUnread, Reports};
ghost use Rattle.commands.specs.Prelude.{IsTargetOutcome, target_text, effect_error};
ghost use Rattle.commands.specs.Prelude.{IsStoppedWith, IsFailedCall, OrStops, ReportsPrinted};
ghost use Rattle.commands.specs.Prelude.{refused_error, unlocated};

use crate::location::{Document, Located, Location};
use crate::refusal::{effect_text, refused_text};
use build_effect::EffectFault;
use collate_core::RefusedTarget;
use ninja_text::Failure;
use std::alloc::{AllocError, Global};
use std::fmt::Display;
use std::io;
use std::io::ErrorKind;
use std::marker::Model;

/// What a run that succeeds leaves: its text for standard output, and the files to write, in order.
#[derive(Drop)]
pub struct Output {
    pub text: Vec<u8>,
    pub files: Vec<OutputFile>,
}

/// A file to be written: its name, its bytes, and whether it is left alone if it has them already.
#[derive(Drop)]
pub struct OutputFile {
    pub name: String,
    pub bytes: Vec<u8>,
    pub keeps: bool,
}

impl Model for Output {
    ghost use Rattle.std.specs.Prelude.{map};
    ghost use Rattle.commands.specs.Answers.{file_value};
    ghost use Rattle.commands.specs.Outcomes.{OutputValue};

    ghost Value = { OutputValue };

    ghost view = { λ o. record { text = o.text.items; files = map file_value o.files.items } };
}

impl Output {
    /// Returns an output that prints this text and has no files.
    pub(crate) fn text(alloc: Global, text: Vec<u8>) -> Output
        ensures { result ≡ printed text.items }
    {
        let files = Vec::new(alloc);
        Output { text, files }
    }

    /// Returns an output that prints nothing and has these files.
    pub(crate) fn files(alloc: Global, files: Vec<OutputFile>) -> Output
        ensures { result ≡ written (map file_value files.items) }
    {
        let text = Vec::new(alloc);
        Output { text, files }
    }
}

/// The exit status of a run that fails, the message that says why, and the error's location.
#[derive(Drop)]
pub struct Line {
    pub status: u8,
    pub message: Vec<u8>,
    pub at: Location,
}

impl Model for Line {
    ghost use Rattle.commands.specs.Outcomes.{LineValue};

    ghost Value = { LineValue };

    ghost view = { λ l. record { status = l.status; message = l.message.items; at = l.at } };
}

/// Why a run stops: memory ran out, or with this line.
pub type Stop = Failure<Line>;

/// Stops the run with this status and message at an error that is there, unless there was no memory
/// for the message.
pub(crate) fn stopped(status: u8, message: Result<Vec<u8>, AllocError>, at: Location) -> Stop
    ensures { IsStoppedWith status message at result }
{
    match message {
        Ok(message) => Failure::Fault(Line {
            status,
            message,
            at,
        }),
        Err(AllocError) => Failure::Memory,
    }
}

/// Stops the run at a file that can't be read, or because memory ran out in the call.
pub(crate) fn of_unread(alloc: Global, name: &str, error: io::Error) -> Stop
    ensures { IsUnread name.now (reading name.now (Err error) ∷ []) result }
{
    let message = format!(in alloc; "cannot read {name}");
    of_failed_call(&error, message.map(String::into_bytes))
}

/// Stops the run at a file that can't be written, or because memory ran out in the call.
pub(crate) fn of_unwritten(alloc: Global, name: &str, error: io::Error) -> Stop
    ensures { ForFault (λ l. l ≡ failed 3 (unlocated (codes "cannot write " ++ name.now))) result }
{
    let message = format!(in alloc; "cannot write {name}");
    of_failed_call(&error, message.map(String::into_bytes))
}

/// Stops the run because memory ran out, if that is the error, and with this message otherwise.
fn of_failed_call(error: &io::Error, message: Result<Vec<u8>, AllocError>) -> Stop
    ensures { IsFailedCall error.now message result }
{
    if error.kind() == ErrorKind::OutOfMemory {
        return Failure::Memory;
    }
    stopped(3, message, Location::nowhere())
}

/// Returns the value, or stops the run at the fault, which is reported after this prefix, and is in
/// this document, if it names none itself.
pub(crate) fn or_stop<T, F: Display + Located + Drop>(
    alloc: Global,
    prefix: &str,
    document: Option<Document>,
    outcome: Result<T, Failure<F>>,
) -> Result<T, Stop>
    ensures { OrStops (ReportsPrinted prefix.now document F.output F.location) outcome result }
{
    match outcome {
        Ok(value) => Ok(value),
        Err(Failure::Memory) => Err(Failure::Memory),
        Err(Failure::Fault(fault)) => {
            let message = format!(in alloc; "{prefix}{fault}");
            let at = match document {
                Some(_) => Location {
                    document,
                    ..fault.location()
                },
                None => fault.location(),
            };
            Err(stopped(1, message.map(String::into_bytes), at))
        }
    }
}

/// Stops the run at statements that have no effect.
pub(crate) fn of_effect(alloc: Global, failure: Failure<EffectFault>) -> Stop
    ensures { Reports effect_error failure result }
{
    let Failure::Fault(fault) = failure else {
        return Failure::Memory;
    };
    stopped(1, effect_text(alloc, &fault), fault.location())
}

/// Stops the run at a target that is rejected. Its info files are named by the names in them.
pub(crate) fn of_target(alloc: Global, failure: Failure<RefusedTarget>) -> Stop
    ensures { Reports refused_error failure result }
{
    let Failure::Fault(refused) = failure else {
        return Failure::Memory;
    };
    let message = refused_text(alloc, &refused);
    let at = refused.refusal.location();
    // Dropped here: at the end of the function, the compiler would drop each field by
    // itself, and the proof would be longer.
    drop(refused);
    stopped(1, message, at)
}

/// Returns the outcome of a part about the target of this index: an error gets the index.
pub(crate) fn at_target<T>(alloc: Global, index: usize, outcome: Result<T, Stop>) -> Result<T, Stop>
    ensures { IsTargetOutcome index outcome result }
{
    match outcome {
        Ok(value) => Ok(value),
        Err(Failure::Memory) => Err(Failure::Memory),
        Err(Failure::Fault(line)) => {
            let message = target_text(alloc, index, &line.message);
            let at = Location {
                target: Some(index),
                ..line.at
            };
            Err(stopped(line.status, message, at))
        }
    }
}

/// Returns the message about the target of this index.
pub(crate) fn target_text(alloc: Global, index: usize, text: &[u8]) -> Result<Vec<u8>, AllocError>
    ensures { IfOk result (λ message. message.items ≡ target_text index text.now) }
{
    let mut message = format!(in alloc; "target {index}: ")?.into_bytes();
    message.extend_from_slice(text)?;
    Ok(message)
}
