//! What no clause says: that a call succeeds when memory is available, and readers and writers that
//! fail. What paths mean, and which strings are not paths, are rows of `tests/rows`.
ghost use Rattle.std.specs.Prelude.{◌≡◌};

mod assigning;
mod cutter;
mod growths;
mod lexing;

use crate::failing::{Bytewise, Refusing, bytewise_reader, has_given, has_got, refusing_writer};
use ninja_text::{
    Counted, Failure, Line, LineCutter, Path, PathFault, ReadCall, assignment, words,
};
use std::alloc::{AllocError, Global};
use std::io;
use std::io::ErrorKind;
use std::rc::RcSlice;
use std::test::Fail;

/// Whether a call returns that this many bytes went in or out.
fn is_count(answer: io::Result<usize>, wanted: usize) -> bool {
    match answer {
        Ok(count) => count == wanted,
        Err(_error) => false,
    }
}

/// Whether a call returns the error of the tests' readers and writers.
fn is_interrupted(answer: io::Result<usize>) -> bool {
    match answer {
        Ok(_) => false,
        Err(error) => error.kind() == ErrorKind::Interrupted,
    }
}

/// Whether this many bytes of a piece are taken, and this many calls failed by then. An empty piece, of
/// which nothing can be taken, does not fail.
fn takes(out: &mut Counted<Refusing>, piece: &[u8], taken: usize, failures: u128) -> bool {
    is_count(out.write(piece), taken) && out.failures() == failures
}

/// What is written, how many bytes of it are taken, and how many calls failed by then.
const WRITES: &[(&[u8], usize, u128)] = &[
    (b"", 0, 0),
    (b"abcd", 3, 0),
    (b"de", 2, 0),
    (b"f", 0, 1),
    (b"", 0, 1),
    (b"fg", 0, 2),
];

#[test]
fn each_write_is_one_call_and_counted_where_it_fails(rt: HostRuntime) -> Result<(), Fail> {
    let mut out = refusing_writer(rt.alloc(), 5, 3, false)?;
    for (piece, taken, failures) in WRITES {
        assert!(rt; takes(&mut out, piece, *taken, *failures));
    }
    assert!(rt; has_got(out, b"abcde", 6, 2));
    let mut out = refusing_writer(rt.alloc(), 0, 3, true)?;
    assert!(rt; is_interrupted(out.write(b"f")));
    assert!(rt; has_got(out, b"", 1, 1));
    Ok(())
}

/// Whether a reader that fails at its second call gives a byte, an error, and its end, of which the
/// second alone counts as failed.
fn gives_each(input: &mut Counted<Bytewise<'_>>) -> bool {
    let mut buf = [0; 4];
    is_count(input.read(&mut buf), 1)
        && buf[0] == 7
        && input.failures() == 0
        && is_interrupted(input.read(&mut buf))
        && input.failures() == 1
        && is_count(input.read(&mut buf), 0)
}

/// A source that counts its calls, and says so.
#[derive(Drop)]
struct Tally {
    calls: u64,
}

impl ReadCall for Tally {
    ghost use Rattle.std.specs.Prelude.{◌≡◌, ◌+◌, ◌-◌, ◌^◌, min, None};

    ghost remaining = { λ _. None };

    ghost reads = { λ old new _ _. new.calls ≡ min (old.calls + 1) (2 ^ 64 - 1) };

    fn read_call(&mut self, _buf: &mut [u8]) -> io::Result<usize> {
        self.calls = self.calls.saturating_add(1);
        Err(ErrorKind::Interrupted.into())
    }
}

/// Returns how many calls of a source two reads make. That the result is 2 is proved from what the
/// source says about its calls.
fn calls_of_two_reads() -> u64
    ensures { result ≡ 2 }
{
    let mut input = Counted::new(Tally { calls: 0 });
    let _ = input.read(&mut []);
    let _ = input.read(&mut []);
    input.into_inner().calls
}

#[test]
fn each_read_is_one_call_and_counted_where_it_fails(rt: HostRuntime) {
    let mut input = bytewise_reader(b"\x07", 2);
    assert!(rt; gives_each(&mut input));
    assert!(rt; has_given(input, 3, 1));
    assert!(rt; calls_of_two_reads() == 2);
}

#[test]
fn an_unwritable_byte_is_reported_with_its_offset(rt: HostRuntime) {
    let fault = Failure::Fault(PathFault::Unwritable { place: 1 });
    assert!(rt; Path::of(rt.alloc(), b"a|b/../c").err() == Some(fault));
}

/// Whether a call returns this path.
fn is_path(path: Result<Path, Failure<PathFault>>, wanted: &[u8]) -> bool {
    match path {
        Ok(path) => path.bytes() == wanted,
        Err(_) => false,
    }
}

/// Whether a call returns these bytes.
fn is_value(value: Result<Vec<u8>, AllocError>, wanted: &[u8]) -> bool {
    match value {
        Ok(value) => value.as_slice() == wanted,
        Err(_) => false,
    }
}

#[test]
fn a_part_of_a_string_is_a_path(rt: HostRuntime) -> Result<(), Fail> {
    let text = RcSlice::from_slice(rt.alloc(), b"a/b ./c a|b".as_slice())?;
    assert!(rt; is_path(Path::within(rt.alloc(), &text, 0, 3), b"a/b"));
    assert!(rt; is_path(Path::within(rt.alloc(), &text, 4, 7), b"c"));
    let fault = Failure::Fault(PathFault::Unwritable { place: 1 });
    assert!(rt; Path::within(rt.alloc(), &text, 8, 11).err() == Some(fault));
    Ok(())
}

/// Whether this is the value of a line's first word, or of its assignment.
fn has_value(alloc: Global, line: Line<'_>, wanted: &[u8]) -> bool {
    if line.is_comment() {
        return false;
    }
    if let Ok(Some(found)) = assignment(line) {
        return is_value(found.value(alloc), wanted);
    }
    let Ok(mut tokens) = words(line) else {
        return false;
    };
    match tokens.next() {
        Some(token) => is_value(token.value(alloc), wanted),
        None => false,
    }
}

/// The same of a line with its end, all of which a cutter takes.
fn is_line_of_value(alloc: Global, text: &[u8], wanted: &[u8]) -> bool {
    let mut cutter = LineCutter::new(alloc);
    let is_taken = cutter.feed(text) == Ok(text.len());
    match cutter.next_line() {
        Ok(Some(line)) => is_taken && has_value(alloc, line, wanted),
        _ => false,
    }
}

/// Lines, and the values.
const VALUES: &[(&[u8], &[u8])] = &[
    (b"a/b: c\n", b"a/b"),
    (b"a$ b: c\n", b"a b"),
    (b"  dyndep = a$ b\n", b"a b"),
];

#[test]
fn words_and_assignments_have_values(rt: HostRuntime) {
    for (line, wanted) in VALUES {
        assert!(rt; is_line_of_value(rt.alloc(), line, wanted));
    }
}
