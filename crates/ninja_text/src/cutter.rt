//! Logical lines, and a cutter that divides bytes which arrive in pieces into them.
ghost use Rattle.std.specs.Prelude.{◌+◌, ◌<◌, ◌^◌, ◌≡◌, ◌≤◌, [], IfOk, List, false, length};
ghost use Rattle.ninja_text.specs.Prelude.{PhaseFits, is_comment, line_feeds_in, scan_from};
ghost use Rattle.ninja_text.specs.Prelude.{seen_line, step_of};
ghost use Rattle.ninja_text.specs.inner.Reaching.{Reaches};

use crate::failure::Failure;
use crate::fault::CutFault;
use std::alloc::Global;
use std::marker::Model;

/// The maximum length of a logical line in bytes, including its end.
pub const LINE_LIMIT: usize = 1_048_576;

/// A logical line, borrowed from a cutter.
#[derive(Clone, Copy)]
pub struct Line<'a> {
    pub(crate) text: &'a [u8],
    pub(crate) number: u64,
    pub(crate) is_comment: bool,
}

impl<'a> Line<'a> {
    /// Returns the line without its end. Continuations are included as they were read.
    pub fn text(&self) -> &'a [u8]
        ensures { result.now ≡ (seen_line self.now).text }
    {
        self.text
    }

    /// Returns the number of its first physical line, from 1. Numbers stay at `u64::MAX` once it is
    /// reached.
    pub fn number(&self) -> u64
        ensures { result ≡ (seen_line self.now).number }
    {
        self.number
    }

    /// Returns whether its first byte other than space is `#`. A comment may contain any bytes and
    /// has neither tokens nor lexical errors.
    pub fn is_comment(&self) -> bool
        ensures { result ≡ (seen_line self.now).comment }
    {
        self.is_comment
    }
}

/// Divides bytes that arrive in pieces of any size into logical lines (Ninja 1.11 manual, "Lexical
/// syntax"). Feed it a piece. If a line is complete, take the line with
/// [`next_line`](LineCutter::next_line) and feed the rest of the piece. A line ends at its first LF
/// that is not escaped by `$`; a comment ends at its first LF. The cutter keeps the bytes of an
/// unfinished line, at most [`LINE_LIMIT`], and the state of the search for its end, so that no
/// byte is searched twice.
#[derive(Drop)]
pub struct LineCutter {
    buffer: Vec<u8>,
    phase: Phase,
    number: u64,
}

#[derive(Clone, Copy)]
enum Phase {
    /// The buffer holds the beginning of a line.
    Gathering(ScanState),
    /// The buffer holds a complete line whose text has this length.
    Waiting { text_len: usize },
    /// The buffer holds a line that was handed out; its bytes are stale.
    Lent,
    /// The line is too long.
    Failed,
}

impl Model for LineCutter {
    ghost use Rattle.ninja_text.specs.Cutting.{CutterState};
    ghost use Rattle.ninja_text.specs.CutterViews.{state_of, IsKept};

    ghost Value = { CutterState };

    ghost view = { state_of };

    ghost invariant = { IsKept };
}

impl LineCutter {
    ghost use Rattle.ninja_text.specs.Prelude.{Bytes, Cuts, Feeds, FeedsAll, Finishes, Lends};
    ghost use Rattle.ninja_text.specs.Prelude.{LogicalLine, new_cutter};
    ghost use Rattle.std.specs.Borrow.{sem};
    ghost use Rattle.ninja_text.specs.Lending.{EndsLent};

    /// Returns a cutter without any bytes. It does not allocate.
    pub fn new(alloc: Global) -> LineCutter
        ensures value { result ≡ new_cutter }
        ensures nothing { Cuts [] [] result }
    {
        LineCutter {
            buffer: Vec::new(alloc),
            phase: Phase::Gathering(ScanState::Start),
            number: 1,
        }
    }

    /// Takes bytes from the front of the piece, up to and including the end of the next line, or
    /// the whole piece if no line ends in it. Returns the number of bytes taken, which is 0 while a
    /// line waits.
    ///
    /// Returns `LineTooLong` as soon as the first [`LINE_LIMIT`] bytes of a line contain no end.
    /// Every later `feed`, `next_line` and `finish` returns the same error. Returns
    /// [`Failure::Memory`] if an allocation fails, never while a line waits. Nothing was taken
    /// then, and the same piece can be fed again.
    pub fn feed(&mut self, piece: &[u8]) -> Result<usize, Failure<CutFault>>
        ensures exact { Feeds self.old piece.now result self.new }
        ensures within { IfOk result (λ n. n ≤ length piece.now) }
        ensures some { self.old.waits ≡ false → 0 < length piece.now → IfOk result (λ n. 0 < n) }
        // Whatever was taken and handed out before, this call takes as many bytes as it returns.
        ensures all { (taken : Bytes) (lent : List LogicalLine) → Cuts taken lent self.old
            → FeedsAll taken lent piece.now result self.new }
    {
        let too_long = Err(Failure::Fault(CutFault::LineTooLong { line: self.number }));
        let state = match self.phase {
            Phase::Failed => return too_long,
            Phase::Waiting { .. } => return Ok(0),
            Phase::Gathering(state) => state,
            Phase::Lent => {
                self.buffer.clear();
                ScanState::Start
            }
        };
        self.phase = Phase::Gathering(state);
        // The bytes are scanned before memory for them is allocated.
        let Some((taken, phase)) = reach_of(self.buffer.as_slice(), state, piece) else {
            self.phase = Phase::Failed;
            return too_long;
        };
        self.buffer.extend_from_slice(&piece[..taken])?;
        self.phase = phase;
        Ok(taken)
    }

    /// Returns the line that waits, borrowed from the cutter, or `None` if no line waits, or
    /// `LineTooLong` if an earlier call did. Each line is returned once.
    pub fn next_line(&mut self) -> Result<Option<Line<'_>>, CutFault>
        ensures line { Lends self.old result }
        // Once the line is no longer borrowed, it has been handed out.
        ensures* after { sem 𝓛 (EndsLent self.entry) }
    {
        match self.phase {
            Phase::Failed => Err(CutFault::LineTooLong { line: self.number }),
            Phase::Waiting { text_len } => {
                let number = self.number;
                let line = self.buffer.as_slice();
                self.number = number.saturating_add(line_feeds(line));
                self.phase = Phase::Lent;
                let text = &line[..text_len];
                Ok(Some(Line {
                    text,
                    number,
                    is_comment: begins_comment(line),
                }))
            }
            Phase::Lent | Phase::Gathering(_) => Ok(None),
        }
    }

    /// Returns the number of the line that waits, or of the next line if none waits.
    pub fn number(&self) -> u64
        ensures { result ≡ self.now.number }
    {
        self.number
    }

    /// Returns `Truncated` if bytes without a line's end are left, or `LineTooLong` if an earlier
    /// call did. No line may wait.
    pub fn finish(&self) -> Result<(), CutFault>
        requires { self.now.waits ≡ false }
        ensures { Finishes self.now result }
    {
        let line = self.number;
        match self.phase {
            Phase::Failed => Err(CutFault::LineTooLong { line }),
            Phase::Gathering(_) if !self.buffer.is_empty() => Err(CutFault::Truncated { line }),
            _ => Ok(()),
        }
    }
}

/// Returns how many bytes of the piece belong to the line that begins in the buffer, and the phase
/// after them, or `None` if the line exceeds the limit.
fn reach_of(buffer: &[u8], state: ScanState, piece: &[u8]) -> Option<(usize, Phase)>
    requires { PhaseFits (Phase.Gathering state) buffer.now }
    ensures { Reaches buffer.now piece.now result }
{
    let held = buffer.len();
    let reach = piece.len().min(LINE_LIMIT - held);
    match scan_bytes(held, state, &piece[..reach]) {
        Scanned::End { text_len, line_len } => Some((line_len - held, Phase::Waiting { text_len })),
        Scanned::Open(_) if held + reach == LINE_LIMIT => None,
        Scanned::Open(next) => Some((reach, Phase::Gathering(next))),
    }
}

fn begins_comment(bytes: &[u8]) -> bool
    ensures { result ≡ is_comment bytes.now }
{
    matches!(bytes.iter().find(|byte| **byte != b' '), Some(b'#'))
}

fn line_feeds(bytes: &[u8]) -> u64
    ensures { result ≡ line_feeds_in bytes.now }
{
    bytes.iter().filter(|byte| **byte == b'\n').count() as u64
}

/// What is known about an unfinished line at its last byte.
#[derive(Clone, Copy)]
pub(crate) enum ScanState {
    /// Only spaces so far.
    Start,
    Comment,
    /// A comment whose last byte is CR.
    CommentReturn,
    Plain,
    /// The last unit is a CR.
    Return,
    /// A `$` without the byte that it escapes.
    Dollar,
    /// `$` and CR: an escape, or the beginning of a continuation.
    DollarReturn,
}

/// Where a scan stopped.
pub(crate) enum Scanned {
    /// The line ends. These are the length of its text and of the whole line.
    End { text_len: usize, line_len: usize },
    /// The bytes end before the line does.
    Open(ScanState),
}

/// Scans bytes that begin at this offset of the line, up to its end.
pub(crate) fn scan_bytes(index: usize, from: ScanState, bytes: &[u8]) -> Scanned
    requires { index + length bytes.now < 2 ^ 64 }
    ensures { result ≡ scan_from index from bytes.now }
{
    let mut state = from;
    for (i, byte) in bytes.iter().enumerate() {
        // Nearly every byte of a line leaves the state plain.
        if matches!(state, ScanState::Plain) && !matches!(*byte, b'\n' | b'\r' | b'$') {
            continue;
        }
        let at = index + i;
        let Some(next) = next_state(state, *byte) else {
            // A CR just before the LF belongs to the end of the line.
            let text_len = match state {
                ScanState::Return | ScanState::CommentReturn => at.saturating_sub(1),
                _ => at,
            };
            let line_len = at + 1;
            return Scanned::End { text_len, line_len };
        };
        state = next;
    }
    Scanned::Open(state)
}

/// Returns the next state, or `None` if the byte ends the line.
fn next_state(state: ScanState, byte: u8) -> Option<ScanState>
    ensures { result ≡ step_of state byte }
{
    match (state, byte) {
        (ScanState::Comment | ScanState::CommentReturn, b'\n') => None,
        (ScanState::Comment | ScanState::CommentReturn, b'\r') => Some(ScanState::CommentReturn),
        (ScanState::Comment | ScanState::CommentReturn, _) => Some(ScanState::Comment),
        (ScanState::Dollar, b'\r') => Some(ScanState::DollarReturn),
        (ScanState::Dollar, _) | (ScanState::DollarReturn, b'\n') => Some(ScanState::Plain),
        (ScanState::Start, b' ') => Some(ScanState::Start),
        (ScanState::Start, b'#') => Some(ScanState::Comment),
        // All other bytes begin a unit.
        (_, b'\n') => None,
        (_, b'\r') => Some(ScanState::Return),
        (_, b'$') => Some(ScanState::Dollar),
        (_, _) => Some(ScanState::Plain),
    }
}
