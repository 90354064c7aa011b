//! Lines byte by byte, paths and values, while `tests/growths.py` fails each allocation in turn. A
//! cutter that ran out of memory is unchanged, and takes the same byte the second time. A vector to
//! which nothing was appended has what it had.

use crate::common::{path, value};
use ninja_text::{
    Assignment, Failure, Line, LineCutter, Path, Words, assignment, escape_into, words,
};
use std::alloc::{AllocError, Global};
use std::test::Fail;

/// Whether the piece is taken, if only the second time.
fn takes(cutter: &mut LineCutter, piece: &[u8]) -> bool {
    let taken = cutter.feed(piece);
    taken == Ok(piece.len())
        || taken == Err(Failure::Memory) && cutter.feed(piece) == Ok(piece.len())
}

/// Whether these bytes are taken one by one, and then this line is returned.
fn lends_bytewise(cutter: &mut LineCutter, bytes: &[u8], text: &[u8]) -> bool {
    for byte in bytes {
        if !takes(cutter, &[*byte]) {
            return false;
        }
    }
    match cutter.next_line() {
        Ok(Some(line)) => line.text() == text,
        _ => false,
    }
}

/// Lines with their ends, and without.
const LINES: &[(&[u8], &[u8])] = &[
    (
        b"build a$\r\n  b.o: dyndep |@ a-longer-word\r\n",
        b"build a$\r\n  b.o: dyndep |@ a-longer-word",
    ),
    (b"# $\n", b"# $"),
    (b"build b\n", b"build b"),
];

#[test]
fn lines_byte_by_byte(rt: HostRuntime) {
    let mut cutter = LineCutter::new(rt.alloc());
    for (bytes, text) in LINES {
        assert!(rt; lends_bytewise(&mut cutter, bytes, text));
    }
}

/// Whether all of these bytes are in a vector after a call that appends to it. If the call ran out
/// of memory, the vector has to have what it had.
fn has_all(
    answer: Result<(), AllocError>,
    out: &[u8],
    before: &[u8],
    all: &[u8],
) -> Result<bool, AllocError> {
    match answer {
        Ok(()) => Ok(out == all),
        Err(refused) if out == before => Err(refused),
        Err(_refused) => Ok(false),
    }
}

/// Many bytes that are escaped, so that a vector grows in their midst.
const ESCAPES: &str = "a b$c:d e$f:g h$i:j k$l:m n$o:p";

const ESCAPED: &[u8] = b"xa$ b$$c$:d$ e$$f$:g$ h$$i$:j$ k$$l$:m$ n$$o$:p";

/// Whether the path is appended in its escaped form.
fn appends_escaped(alloc: Global, path: &Path) -> Result<bool, AllocError> {
    let mut out = vec![in alloc; b'x']?;
    let answer = escape_into(path.bytes(), &mut out);
    has_all(answer, &out, b"x", ESCAPED)
}

/// Whether both kinds of copy of the path are equal to it.
fn is_copied(alloc: Global, path: &Path) -> Result<bool, AllocError> {
    Ok(path.clone()? == *path && path.copy(alloc)? == *path)
}

#[test]
fn a_path_is_escaped_as_a_whole(rt: HostRuntime) -> Result<(), Fail> {
    let path = path(rt.alloc(), ESCAPES)?;
    assert!(rt; appends_escaped(rt.alloc(), &path)?);
    assert!(rt; is_copied(rt.alloc(), &path)?);
    Ok(())
}

/// An assignment of the same bytes, escaped.
const ASSIGNMENT: &[u8] = b"v = a$ b$$c$:d$ e$$f$:g$ h$$i$:j$ k$$l$:m$ n$$o$:p\n";

const VALUE: &[u8] = b"xa b$c:d e$f:g h$i:j k$l:m n$o:p";

/// Whether the value of the assignment is appended.
fn appends_value(alloc: Global, found: Assignment<'_>) -> Result<bool, AllocError> {
    let mut out = vec![in alloc; b'x']?;
    let answer = found.value_into(&mut out);
    has_all(answer, &out, b"x", VALUE)
}

/// Whether the third word, which starts at index 4, is appended.
fn appends_third_word(alloc: Global, tokens: Words<'_>) -> Result<bool, AllocError> {
    let mut all = true;
    for token in tokens {
        let mut out = vec![in alloc; b'x']?;
        let answer = token.value_into(&mut out);
        all = all && (token.start() != 4 || has_all(answer, &out, b"x", VALUE)?);
    }
    Ok(all)
}

/// Whether the value of the line is appended, as a value and as the third word.
fn appends_values(alloc: Global, line: Line<'_>) -> Result<bool, AllocError> {
    if line.is_comment() {
        return Ok(false);
    }
    let (Ok(Some(found)), Ok(tokens)) = (assignment(line), words(line)) else {
        return Ok(false);
    };
    Ok(appends_value(alloc, found)? && appends_third_word(alloc, tokens)?)
}

#[test]
fn a_value_is_appended_as_a_whole(rt: HostRuntime) -> Result<(), Fail> {
    let mut cutter = LineCutter::new(rt.alloc());
    let _ = value(cutter.feed(ASSIGNMENT))?;
    match cutter.next_line() {
        Ok(Some(line)) => assert!(rt; appends_values(rt.alloc(), line)?),
        _ => return Err(Fail::new("there is no line")),
    }
    Ok(())
}
