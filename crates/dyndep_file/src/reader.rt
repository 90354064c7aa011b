//! Reads dyndep files, line by line.
ghost use Rattle.std.specs.Prelude.{◌≡◌, ◌++◌, [], IfOk, IfErr, Some};
ghost use Rattle.dyndep_file.specs.Prelude.{Bytes, ForFault, Failure, DyndepReaderState};
ghost use Rattle.dyndep_file.specs.Prelude.{HasReadDyndep, IsReadFaultOf, FeedsDyndep};
ghost use Rattle.dyndep_file.specs.Prelude.{EndsDyndepFile, StandsForOnly, IsReadFrom, ReadFault};

use crate::fault::{LineFault, ReadFault};
use crate::progress::{Progress, Stage};
use crate::text::Dyndep;
use ninja_text::{Counted, Failure, LineReader, ReadCall};
use std::alloc::Global;
use std::marker::Model;

/// Reads a dyndep file that arrives in pieces (Ninja 1.11 manual, "Dyndep file reference"). A piece
/// may end anywhere, also within a continuation or between CR and LF. The result is the same for
/// all divisions of a text into pieces.
#[derive(Drop)]
pub struct DyndepReader {
    lines: LineReader<Progress, ReadFault>,
}

impl Model for DyndepReader {
    ghost Value = { DyndepReaderState };

    ghost view = { λ r. r.lines };
}

impl DyndepReader {
    /// Returns a reader that has read nothing. It does not allocate.
    pub fn new(alloc: Global) -> DyndepReader
        ensures { HasReadDyndep [] result }
    {
        let progress = Progress {
            stage: Stage::BeforeVersion,
            statements: Vec::new(alloc),
        };
        DyndepReader {
            lines: LineReader::new(alloc, progress),
        }
    }

    /// Reads the next piece of the text, all of it.
    ///
    /// # Errors
    ///
    /// Returns the error of the first faulty line as soon as the line is complete, `LineTooLong` as
    /// soon as 1,048,576 bytes contain no end of a line, or [`Failure::Memory`] if an allocation
    /// fails. It never returns `Io`. After an error every later call returns the same error.
    pub fn feed(&mut self, piece: &[u8]) -> Result<(), Failure<ReadFault>>
        ensures failed { (failure : Failure ReadFault) → self.old.failed ≡ Some failure →
            (result ≡ Err failure) × (self.new ≡ self.old) }
        // Whatever bytes it was fed before this piece.
        ensures all { (bytes : Bytes) → HasReadDyndep bytes self.old →
            FeedsDyndep (bytes ++ piece.now) result self.new }
    {
        self.lines.feed(piece)
    }

    /// Returns the statements of the text, or the error of an earlier `feed` again, `Truncated` if
    /// the last line has no end, or `NoVersion` if there was no version line.
    pub fn finish(self) -> Result<Dyndep, Failure<ReadFault>>
        ensures failed { (failure : Failure ReadFault) → self.failed ≡ Some failure →
            result ≡ Err failure }
        ensures all { (bytes : Bytes) → HasReadDyndep bytes self → EndsDyndepFile bytes result }
    {
        let (progress, next_line) = self.lines.finish()?;
        let Progress { stage, statements } = progress;
        match stage {
            Stage::BeforeVersion => Err(Failure::Fault(LineFault::NoVersion.at(next_line))),
            Stage::NoneOpen | Stage::Open => Ok(Dyndep { statements }),
        }
    }
}

impl Dyndep {
    /// Returns the statements of a whole dyndep file (Ninja 1.11 manual, "Dyndep file reference"),
    /// or the error of the first faulty line or of the end, as [`DyndepReader`] does, or
    /// [`Failure::Memory`] if an allocation fails. It never returns `Io`.
    pub fn of(alloc: Global, text: &[u8]) -> Result<Dyndep, Failure<ReadFault>>
        ensures statements { IfOk result (StandsForOnly text.now) }
        ensures fault { IfErr result (ForFault (IsReadFaultOf text.now)) }
    {
        let mut reader = DyndepReader::new(alloc);
        reader.feed(text)?;
        reader.finish()
    }
}

/// Reads a dyndep file up to the reader's end, at most 4,096 bytes per call.
///
/// # Errors
///
/// Returns `Io` if a call of the reader fails, or if 2^64 - 1 bytes were read without reaching the
/// end. Returns the other errors as [`DyndepReader`] does. After the end or an error the reader is
/// not called again.
pub fn read_all<R: ReadCall>(
    alloc: Global,
    input: &mut Counted<R>,
) -> Result<Dyndep, Failure<ReadFault>>
    ensures { IsReadFrom R.remaining R.reads input.old input.new result }
{
    let mut reader = DyndepReader::new(alloc);
    let mut piece = [0; 4096];
    'read: for calls in 0..u64::MAX {
        match input.read(&mut piece) {
            Ok(0) => return reader.finish(),
            Ok(count) => reader.feed(&piece[..count])?,
            Err(_) => return Err(Failure::Fault(ReadFault::Io)),
        }
    }
    Err(Failure::Fault(ReadFault::Io))
}
