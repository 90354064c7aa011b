//! Reads the lines of a text that arrives in pieces into a state, one by one.
ghost use Rattle.std.specs.Prelude.{◌++◌, ◌≡◌, [], Err, List, Some, false};
ghost use Rattle.ninja_text.specs.Prelude.{Bytes, EndsLines, FeedsLines, HasLent, HasLentAll};
ghost use Rattle.ninja_text.specs.Prelude.{LinesRead, LogicalLine, ReadsLine, StaysRefused};
ghost use Rattle.ninja_text.specs.Prelude.{seen_line};
ghost use Rattle.ninja_text.specs.inner.PieceReading.{ReadsPiece};
ghost use Rattle.ninja_text.specs.declared.fault.CutFault.{CutFault};
ghost use Rattle.ninja_text.specs.declared.failure.Failure.{Failure};

use crate::cutter::{Line, LineCutter};
use crate::failure::Failure;
use crate::fault::CutFault;
use std::alloc::Global;
use std::marker::Model;

/// The state of a reader between two lines. `passes` relates the state before a line, the line, and
/// the state after it. `refuses` relates the state, a line that is rejected, and its fault.
pub trait LineState {
    /// Why a line is rejected.
    type Fault;

    ghost passes: { Self → LogicalLine → Self → Type 0 };

    ghost refuses: { Self → LogicalLine → Self.Fault → Type 0 };

    // the fault that stands for a fault of the cutter
    ghost of_cutter: { CutFault → Self.Fault };

    /// Reads a line. Returns its fault, or [`Failure::Memory`] if an allocation fails. The state is
    /// of no use then.
    fn read_line(&mut self, alloc: Global, line: Line<'_>) -> Result<(), Failure<Self::Fault>>
        ensures { ReadsLine passes refuses self.old (seen_line line.entry) result self.new };

    /// Returns the fault that stands for a fault of the cutter.
    fn cut_fault(fault: CutFault) -> Self::Fault
        ensures { result ≡ of_cutter fault };
}

/// Reads a text that arrives in pieces into a state, line by line. A piece may end anywhere, also
/// within a continuation or between CR and LF. The result is the same for all divisions of a text
/// into pieces.
#[derive(Drop)]
pub struct LineReader<S, F> {
    alloc: Global,
    cutter: LineCutter,
    state: S,
    failed: Option<Failure<F>>,
}

impl<S, F> Model for LineReader<S, F> {
    ghost Value = { LinesRead S F };

    ghost view = { λ r. record { cutter = r.cutter; state = r.state; failed = r.failed } };

    ghost invariant = { λ r. r.cutter.waits ≡ false };
}

impl<F: Copy, S: LineState<Fault = F> + Drop> LineReader<S, F> {
    /// Returns a reader that has read nothing. It does not allocate.
    pub fn new(alloc: Global, state: S) -> LineReader<S, F>
        ensures nothing { HasLentAll [] [] result }
        ensures state { result.state ≡ state }
    {
        LineReader {
            alloc,
            cutter: LineCutter::new(alloc),
            state,
            failed: None,
        }
    }

    /// Reads the next piece of the text, all of it. Returns the fault of the first line that the
    /// state rejects, as soon as the line is complete, or `LineTooLong` as soon as
    /// [`LINE_LIMIT`](crate::LINE_LIMIT) bytes contain no end of a line. Returns
    /// [`Failure::Memory`] if an allocation fails. After an error every later call returns the same
    /// error.
    pub fn feed(&mut self, piece: &[u8]) -> Result<(), Failure<F>>
        ensures failed { StaysRefused self.old result self.new }
        // Whatever bytes it was fed before this piece, and whatever lines they were.
        ensures all { (bytes : Bytes) (lent : List LogicalLine) → HasLentAll bytes lent self.old
            → FeedsLines S.passes S.refuses S.of_cutter (bytes ++ piece.now) lent
            self.old.state result self.new }
    {
        if let Some(failure) = self.failed {
            return Err(failure);
        }
        let read = read_piece(self.alloc, &mut self.cutter, &mut self.state, piece);
        self.failed = read.err();
        read
    }

    /// Returns the state after all lines, and the number of the line that would come next; or the
    /// error of an earlier `feed` again, or `Truncated` if the last line has no end.
    pub fn finish(self) -> Result<(S, u64), Failure<F>>
        ensures failed { (failure : Failure F) → self.failed ≡ Some failure → result ≡ Err failure }
        ensures all { (bytes : Bytes) (lent : List LogicalLine) → HasLentAll bytes lent self
            → EndsLines S.of_cutter bytes lent self.state result }
    {
        if let Some(failure) = &self.failed {
            return Err(*failure);
        }
        match self.cutter.finish() {
            Ok(()) => Ok((self.state, self.cutter.number())),
            Err(fault) => Err(Failure::Fault(S::cut_fault(fault))),
        }
    }
}

/// Feeds the cutter the whole piece and reads each line that it returns.
fn read_piece<S: LineState>(
    alloc: Global,
    cutter: &mut LineCutter,
    state: &mut S,
    piece: &[u8],
) -> Result<(), Failure<S::Fault>>
    requires { cutter.old.waits ≡ false }
    ensures waits_not { cutter.new.waits ≡ false }
    ensures all { (bytes : Bytes) (lent : List LogicalLine) → HasLent bytes lent cutter.old
        → ReadsPiece S.passes S.refuses S.of_cutter (bytes ++ piece.now) lent
        state.old result cutter.new state.new }
{
    let mut rest = piece;
    while !rest.is_empty() {
        let taken = match cutter.feed(rest) {
            Ok(taken) => taken,
            Err(failure) => return Err(failure.map(|fault| S::cut_fault(fault))),
        };
        rest = &rest[taken..];
        match cutter.next_line() {
            Err(fault) => return Err(Failure::Fault(S::cut_fault(fault))),
            Ok(None) => {}
            Ok(Some(line)) => state.read_line(alloc, line)?,
        }
    }
    Ok(())
}
