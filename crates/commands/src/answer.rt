//! What a run returns as a value, and how that is written to two writers.

ghost use Rattle.std.specs.Prelude.{◌≡◌, ◌⊎◌, ◌++◌, ◌∷◌, [], map, OnOk};
ghost use Rattle.commands.specs.Prelude.{line_feed, visible, IsAnswered, IsPrinted, IsUnprinted};

use crate::location::Location;
use crate::stop::{Output, OutputFile, Stop};
use ninja_text::{Counted, Failure, WriteCall};
use std::alloc::{AllocError, Global};

/// What a run returns: the exit status, the bytes for standard output and for standard error, the
/// location of the error of a run that failed, and the files to be written, in order.
#[derive(Drop)]
pub struct Answer {
    pub status: u8,
    pub out: Vec<u8>,
    pub err: Vec<u8>,
    pub at: Option<Location>,
    pub files: Vec<OutputFile>,
}

impl Answer {
    /// Returns the answer of a run with this outcome. A message becomes a line on standard error.
    pub fn of(alloc: Global, outcome: Result<Output, Stop>) -> Result<Answer, AllocError>
        ensures { IsAnswered outcome result }
    {
        match outcome {
            Ok(output) => Ok(Answer {
                status: 0,
                out: output.text,
                err: Vec::new(alloc),
                at: None,
                files: output.files,
            }),
            Err(Failure::Memory) => Err(AllocError),
            Err(Failure::Fault(line)) => {
                let mut err = Vec::from_slice(alloc, b"dyncollate: ")?;
                push_line(&mut err, &line.message)?;
                Ok(Answer {
                    status: line.status,
                    out: Vec::new(alloc),
                    err,
                    at: Some(line.at),
                    files: Vec::new(alloc),
                })
            }
        }
    }
}

/// Appends a line. Control bytes become `?`.
pub(crate) fn push_line(text: &mut Vec<u8>, line: &[u8]) -> Result<(), AllocError>
    ensures { OnOk result (text.new.items
        ≡ text.old.items ++ map visible line.now ++ line_feed ∷ []) }
{
    for byte in line {
        text.push(if byte.is_ascii_control() { b'?' } else { *byte })?;
    }
    text.push(b'\n')?;
    Ok(())
}

/// Writes the texts of a run's answer, and returns the exit status. If memory ran out or standard
/// output can't be written, a line on standard error says so and the status is 3. A call of
/// standard error that fails changes nothing: there is nothing left that would report it.
pub fn print<O: WriteCall, E: WriteCall>(
    answer: &Result<Answer, AllocError>,
    out: &mut Counted<O>,
    err: &mut Counted<E>,
) -> u8
    ensures { IsPrinted O.contents E.contents out.old out.new err.old err.new answer.now result
        ⊎ IsUnprinted O.contents E.contents out.old out.new err.old err.new answer.now result }
{
    let (status, out_text, err_text) = match answer {
        Ok(answer) => (answer.status, answer.out.as_slice(), answer.err.as_slice()),
        Err(AllocError) => (3, b"".as_slice(), b"dyncollate: out of memory\n".as_slice()),
    };
    match out.write_text(out_text) {
        Ok(()) => {
            let _ = err.write_text(err_text);
            status
        }
        Err(_) => {
            let _ = err.write_text(b"dyncollate: cannot write standard output\n");
            3
        }
    }
}
