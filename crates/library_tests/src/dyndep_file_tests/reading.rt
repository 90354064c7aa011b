//! Texts that are read in pieces of every size. The lines that are rejected, and further lines that
//! are accepted, are rows of `tests/rows`.
ghost use Rattle.std.specs.Prelude.{◌≤◌, length};

use super::TWO_STATEMENTS;
use crate::failing::{Bytewise, bytewise_reader, has_given};
use dyndep_file::{Dyndep, DyndepReader, LineFault, ReadFault, read_all};
use ninja_text::{Counted, Failure};
use std::alloc::{AllocError, Global};
use std::test::Fail;

pub(super) fn line_fault(line: u64, fault: LineFault) -> ReadFault {
    ReadFault::AtLine { line, fault }
}

/// Whether the statements have this text.
fn has_text(alloc: Global, dyndep: &Dyndep, text: &[u8]) -> Result<bool, AllocError> {
    match dyndep.to_text(alloc) {
        Ok(found) => Ok(found.as_slice() == text),
        Err(Failure::Memory) => Err(AllocError),
        Err(Failure::Fault(_fault)) => Ok(false),
    }
}

/// Whether a reader returned statements that are written so, or this fault.
pub(super) fn is_answer(
    alloc: Global,
    answer: Result<Dyndep, Failure<ReadFault>>,
    wanted: Result<&[u8], ReadFault>,
) -> Result<bool, AllocError> {
    match (answer, wanted) {
        (Ok(dyndep), Ok(text)) => has_text(alloc, &dyndep, text),
        (Err(Failure::Memory), _) => Err(AllocError),
        (Err(Failure::Fault(found)), Err(fault)) => Ok(found == fault),
        _ => Ok(false),
    }
}

/// Whether a text that is fed in pieces of this size has this result. A reader that rejected a
/// piece is also fed the others, and returns the same at its end.
pub(super) fn answers_in_pieces(
    alloc: Global,
    text: &[u8],
    size: usize,
    wanted: Result<&[u8], ReadFault>,
) -> Result<bool, AllocError> {
    let mut reader = DyndepReader::new(alloc);
    for piece in text.chunks(size.max(1)) {
        let _ = reader.feed(piece);
    }
    is_answer(alloc, reader.finish(), wanted)
}

/// Whether a text that is fed in two pieces, the first of this length, has this result.
fn answers_in_two(
    alloc: Global,
    text: &[u8],
    len: usize,
    wanted: Result<&[u8], ReadFault>,
) -> Result<bool, AllocError>
    requires { len ≤ length text.now }
{
    let mut reader = DyndepReader::new(alloc);
    let _ = reader.feed(&text[..len]);
    let _ = reader.feed(&text[len..]);
    is_answer(alloc, reader.finish(), wanted)
}

/// Whether the text has this result in pieces of every size, and cut in two at every index.
fn always_answers(
    alloc: Global,
    text: &[u8],
    wanted: Result<&[u8], ReadFault>,
) -> Result<bool, AllocError> {
    for size in 1..=text.len() {
        if !answers_in_pieces(alloc, text, size, wanted)?
            || !answers_in_two(alloc, text, size, wanted)?
        {
            return Ok(false);
        }
    }
    Ok(true)
}

/// Continuations within a word and after one, and how the statement is written.
const CONTINUATIONS: &[(&[u8], &[u8])] = &[
    (
        b"ninja_dyndep_version = 1\nbuild a$\n  b.o: dyndep\n",
        b"ninja_dyndep_version = 1\nbuild ab.o: dyndep\n",
    ),
    (
        b"ninja_dyndep_version = 1\r\nbuild a$\r\n  b.o: dyndep\r\n",
        b"ninja_dyndep_version = 1\nbuild ab.o: dyndep\n",
    ),
    (
        b"ninja_dyndep_version = 1\nbuild a.o $\n: dyndep\n",
        b"ninja_dyndep_version = 1\nbuild a.o: dyndep\n",
    ),
];

#[test]
fn a_continuation_is_answered_alike_in_every_cutting(rt: HostRuntime) -> Result<(), Fail> {
    for (text, wanted) in CONTINUATIONS {
        assert!(rt; always_answers(rt.alloc(), text, Ok(*wanted))?);
    }
    Ok(())
}

/// Lines of every kind, with both ends of a line, and continuations over both.
const EVERY_LINE: &[u8] =
    b"# $\n\r\nninja_dyndep_version=1.0\r\nbuild a$\r\n  b.o $\n: dyndep | d$ e $$f$$\r\n  # why \0$\r\r\n  restat = x $\n  y\r\nbuild a$\n$:b: dyndep\n\n";

#[test]
fn a_text_is_answered_alike_in_every_cutting(rt: HostRuntime) -> Result<(), Fail> {
    let text =
        b"ninja_dyndep_version = 1\nbuild ab.o: dyndep | d$ e $$f$$\n  restat = 1\nbuild a$:b: dyndep\n";
    assert!(rt; always_answers(rt.alloc(), TWO_STATEMENTS, Ok(TWO_STATEMENTS))?);
    assert!(rt; always_answers(rt.alloc(), EVERY_LINE, Ok(text))?);
    let truncated = Err(line_fault(4, LineFault::Truncated));
    assert!(rt; always_answers(rt.alloc(), &TWO_STATEMENTS[..90], truncated)?);
    let text = b"ninja_dyndep_version = 1\nbuild a $\r\n: dyndep\nrule cc\n build\n";
    let bad_line = Err(line_fault(4, LineFault::BadLine));
    assert!(rt; always_answers(rt.alloc(), text, bad_line)?);
    Ok(())
}

/// Whether a reader is read with this result, in this many calls, this many of which failed.
fn reads_as(
    alloc: Global,
    input: Counted<Bytewise<'_>>,
    wanted: Result<&[u8], ReadFault>,
    calls: usize,
    failures: u128,
) -> Result<bool, AllocError> {
    let mut input = input;
    let answer = read_all(alloc, &mut input);
    Ok(is_answer(alloc, answer, wanted)? && has_given(input, calls, failures))
}

#[test]
fn a_reader_is_read_to_its_end_a_failure_or_a_refusal(rt: HostRuntime) -> Result<(), Fail> {
    let input = bytewise_reader(TWO_STATEMENTS, 0);
    assert!(rt; reads_as(rt.alloc(), input, Ok(TWO_STATEMENTS), 124, 0)?);
    for call in 1..124usize {
        let input = bytewise_reader(TWO_STATEMENTS, call);
        assert!(rt; reads_as(rt.alloc(), input, Err(ReadFault::Io), call, 1)?);
    }
    let input = bytewise_reader(b"ninja_dyndep_version = 2\n", 26);
    let refused = Err(line_fault(1, LineFault::BadVersion));
    assert!(rt; reads_as(rt.alloc(), input, refused, 25, 0)?);
    Ok(())
}
