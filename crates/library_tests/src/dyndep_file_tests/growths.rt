//! Dyndep files that are read and written in ways that the program does not, byte by byte and by
//! calls which it does not make, while `tests/growths.py` fails each allocation in turn. A test
//! returns `AllocError` or `Failure::Memory` if and only if a call did. Every other result has to
//! be the example's.

use super::reading::{answers_in_pieces, is_answer, line_fault};
use super::{Row, TWO_ROWS, TWO_STATEMENTS, dyndep_of, text_of};
use dyndep_file::{LineFault, WriteFault, read_all, write};
use ninja_text::{Counted, Failure};
use std::alloc::{AllocError, Global};
use std::test::Fail;

/// Byte by byte, what is read and what is rejected. A reader that ran out of memory returns that
/// again.
#[test]
fn reading_in_pieces(rt: HostRuntime) -> Result<(), Fail> {
    assert!(rt; answers_in_pieces(rt.alloc(), TWO_STATEMENTS, 1, Ok(TWO_STATEMENTS))?);
    let text = b"ninja_dyndep_version = 1\nbuild a.o | mod/A.bmi: dyndep | $\n  mod/B.bmi || x\n";
    let wanted = Err(line_fault(2, LineFault::OrderOnly));
    assert!(rt; answers_in_pieces(rt.alloc(), text, 1, wanted)?);
    Ok(())
}

#[test]
fn reading_to_the_end(rt: HostRuntime) -> Result<(), Fail> {
    let mut input = Counted::new(TWO_STATEMENTS);
    let answer = read_all(rt.alloc(), &mut input);
    assert!(rt; is_answer(rt.alloc(), answer, Ok(TWO_STATEMENTS))?);
    Ok(())
}

/// What is written of these rows to a vector with this capacity, or the failure if nothing is.
fn written(alloc: Global, rows: &[Row], room: usize) -> Result<Vec<u8>, Failure<WriteFault>> {
    let mut out = Counted::new(Vec::with_capacity(alloc, room)?);
    let dyndep = dyndep_of(alloc, rows)?;
    let answer = write(alloc, &dyndep, &mut out);
    let bytes = out.into_inner();
    match answer {
        Err(failure) if bytes.is_empty() => Err(failure),
        _ => Ok(bytes),
    }
}

/// To a writer and in memory. If memory runs out, nothing was written.
#[test]
fn writing(rt: HostRuntime) -> Result<(), Fail> {
    let found = written(rt.alloc(), TWO_ROWS, TWO_STATEMENTS.len())?;
    assert!(rt; found.as_slice() == TWO_STATEMENTS);
    let found = text_of(rt.alloc(), TWO_ROWS)?;
    assert!(rt; found.as_slice() == TWO_STATEMENTS);
    Ok(())
}

/// Whether nothing is written for this fault.
fn is_unwritten(alloc: Global, rows: &[Row], fault: WriteFault) -> Result<bool, AllocError> {
    match written(alloc, rows, 0) {
        Ok(_bytes) => Ok(false),
        Err(Failure::Memory) => Err(AllocError),
        Err(Failure::Fault(found)) => Ok(found == fault),
    }
}

#[test]
fn a_path_without_a_spelling(rt: HostRuntime) -> Result<(), Fail> {
    let fault = WriteFault::Unwritable {
        statement: 0,
        path: 0,
    };
    assert!(rt; is_unwritten(rt.alloc(), &[(b"a|b", &[], &[])], fault)?);
    Ok(())
}
