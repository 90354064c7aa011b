//! What no clause says: that a call succeeds when memory is available, texts in every cutting, and
//! readers and writers that fail. The results for texts, and escaped paths, are rows of
//! `tests/rows`.
mod growths;
mod reading;

use crate::failing::{has_got, refusing_writer};
use dyndep_file::{Dyndep, DyndepText, LentStatement, Statement, WriteFault, write};
use ninja_text::Failure;
use std::alloc::{AllocError, Global};
use std::test::Fail;

/// The dyndep text of two statements, the first of which needs the module of the second.
pub(crate) const TWO_STATEMENTS: &[u8] =
    b"ninja_dyndep_version = 1\nbuild a.o | mod/A.bmi: dyndep | mod/B.bmi\n  restat = 1\nbuild b.o | mod/B.bmi: dyndep\n  restat = 1\n";

/// The output, the implicit outputs and the implicit inputs of a statement.
type Row = (
    &'static [u8],
    &'static [&'static [u8]],
    &'static [&'static [u8]],
);

/// The rows of the two statements.
const TWO_ROWS: &[Row] = &[
    (b"a.o", &[b"mod/A.bmi"], &[b"mod/B.bmi"]),
    (b"b.o", &[b"mod/B.bmi"], &[]),
];

fn paths(alloc: Global, texts: &[&[u8]]) -> Result<Vec<Vec<u8>>, AllocError> {
    let mut paths = Vec::new(alloc);
    for text in texts {
        paths.push(Vec::from_slice(alloc, text)?)?;
    }
    Ok(paths)
}

/// Appends a statement whose flag is set.
fn push_statement(
    alloc: Global,
    statements: &mut Vec<Statement>,
    output: &[u8],
    outputs: &[&[u8]],
    inputs: &[&[u8]],
) -> Result<(), AllocError> {
    let statement = Statement {
        output: Vec::from_slice(alloc, output)?,
        implicit_outputs: paths(alloc, outputs)?,
        implicit_inputs: paths(alloc, inputs)?,
        restat: true,
    };
    statements.push(statement)?;
    Ok(())
}

/// The statements of these rows, whose flags are set.
fn dyndep_of(alloc: Global, rows: &[Row]) -> Result<Dyndep, AllocError> {
    let mut statements = Vec::new(alloc);
    for (output, outputs, inputs) in rows {
        push_statement(alloc, &mut statements, output, outputs, inputs)?;
    }
    Ok(Dyndep { statements })
}

/// The text of these rows in memory.
fn text_of(alloc: Global, rows: &[Row]) -> Result<Vec<u8>, Failure<WriteFault>> {
    let dyndep = dyndep_of(alloc, rows)?;
    dyndep.to_text(alloc)
}

/// Puts a statement of these paths between one without a fault and one with a fault.
fn push_three(
    alloc: Global,
    statements: &mut Vec<Statement>,
    output: &[u8],
    outputs: &[&[u8]],
    inputs: &[&[u8]],
) -> Result<(), AllocError> {
    push_statement(alloc, statements, b"a b", &[], &[])?;
    push_statement(alloc, statements, output, outputs, inputs)?;
    push_statement(alloc, statements, b"|", &[], &[])
}

/// The error of these statements.
fn fault_among(
    alloc: Global,
    output: &[u8],
    outputs: &[&[u8]],
    inputs: &[&[u8]],
) -> Option<Failure<WriteFault>> {
    let mut statements = Vec::new(alloc);
    match push_three(alloc, &mut statements, output, outputs, inputs) {
        Ok(()) => Dyndep { statements }.to_text(alloc).err(),
        Err(_refused) => None,
    }
}

/// Whether a path without an escaped form is reported with its index, wherever it is.
fn is_reported_everywhere(alloc: Global, unwritable: &[u8]) -> bool {
    for path in 0..5 {
        let mut names: [&[u8]; 5] = [b"o", b"p", b"q", b"r", b"s"];
        names[path] = unwritable;
        let [output, p, q, r, s] = names;
        let fault = WriteFault::Unwritable { statement: 1, path };
        if fault_among(alloc, output, &[p, q], &[r, s]) != Some(Failure::Fault(fault)) {
            return false;
        }
    }
    true
}

/// Whether, for a path without an escaped form and a line that is too long, the path is reported,
/// wherever both are.
fn path_comes_first(alloc: Global, long: &[u8]) -> bool {
    let first = WriteFault::Unwritable {
        statement: 1,
        path: 0,
    };
    let third = WriteFault::Unwritable {
        statement: 1,
        path: 2,
    };
    let too_long = WriteFault::StatementTooLong { statement: 1 };
    fault_among(alloc, b"|", &[b"p"], &[b"|"]) == Some(Failure::Fault(first))
        && fault_among(alloc, long, &[b"p"], &[b"|"]) == Some(Failure::Fault(third))
        && fault_among(alloc, b"|", &[b"p"], &[long]) == Some(Failure::Fault(first))
        && fault_among(alloc, long, &[b"p"], &[b"x"]) == Some(Failure::Fault(too_long))
}

/// A statement of these paths, whose flag is set.
fn lent<'p>(
    output: &'p [u8],
    outputs: &'p [&'p [u8]],
    inputs: &'p [&'p [u8]],
) -> LentStatement<'p> {
    LentStatement {
        output,
        implicit_outputs: outputs,
        implicit_inputs: inputs,
        restat: true,
    }
}

/// The text of these rows, which are added one by one.
fn added(alloc: Global, rows: &[Row]) -> Result<Vec<u8>, Failure<WriteFault>> {
    let mut text = DyndepText::new(alloc)?;
    for (output, outputs, inputs) in rows {
        text.add(&lent(output, outputs, inputs))?;
    }
    Ok(text.finish())
}

#[test]
fn lent_statements_are_added(rt: HostRuntime) -> Result<(), Fail> {
    assert!(rt; added(rt.alloc(), TWO_ROWS)?.as_slice() == TWO_STATEMENTS);
    Ok(())
}

#[test]
fn the_first_fault_of_the_first_statement_counts(rt: HostRuntime) -> Result<(), Fail> {
    let unwritable: &[&[u8]] = &[b"", b"a|b", b"\0", b"x\r", b"\ny", b"a\\|"];
    for path in unwritable {
        assert!(rt; is_reported_everywhere(rt.alloc(), path));
    }
    let long = vec![in rt.alloc(); b'a'; 1_048_562]?;
    assert!(rt; path_comes_first(rt.alloc(), &long));
    Ok(())
}

/// Whether a writer that takes this prefix of the two statements' text, at most that many bytes per
/// call, gets it in as many calls as that takes. If the prefix is not the whole text, one call more
/// is made, which fails and is returned.
fn is_answered(
    alloc: Global,
    taken: &[u8],
    most: usize,
    by_error: bool,
) -> Result<bool, AllocError> {
    let mut out = refusing_writer(alloc, taken.len(), most, by_error)?;
    let dyndep = dyndep_of(alloc, TWO_ROWS)?;
    let answer = write(alloc, &dyndep, &mut out);
    let written = taken.len() as u128;
    let (wanted, refused) = if taken == TWO_STATEMENTS {
        (Ok(()), 0)
    } else {
        (Err(Failure::Fault(WriteFault::Io { written })), 1)
    };
    let calls = taken.len().div_ceil(most.max(1)).saturating_add(refused);
    let is_held = has_got(out, taken, calls, refused as u128);
    Ok(is_held && answer == wanted)
}

#[test]
fn a_writer_holds_what_it_took(rt: HostRuntime) -> Result<(), Fail> {
    for left in 0..=TWO_STATEMENTS.len() {
        let taken = &TWO_STATEMENTS[..left];
        assert!(rt; is_answered(rt.alloc(), taken, 200, true)?);
        assert!(rt; is_answered(rt.alloc(), taken, 3, true)?);
        assert!(rt; is_answered(rt.alloc(), taken, 200, false)?);
        assert!(rt; is_answered(rt.alloc(), taken, 3, false)?);
    }
    Ok(())
}
