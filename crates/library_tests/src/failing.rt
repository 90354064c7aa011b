//! A reader and a writer that fail.
use ninja_text::Counted;
use std::alloc::{AllocError, Global};
use std::io;
use std::io::{ErrorKind, Read, Write};

/// A writer that takes `left` bytes, at most `most` per call, and fails from then on, by an error
/// or by taking nothing. It counts its calls.
#[derive(Drop)]
pub(crate) struct Refusing {
    left: usize,
    most: usize,
    by_error: bool,
    calls: usize,
    got: Vec<u8>,
}

impl Write for Refusing {
    fn write(&mut self, piece: &[u8]) -> io::Result<usize> {
        self.calls = self.calls.saturating_add(1);
        let n = piece.len().min(self.left).min(self.most);
        if n == 0 && self.by_error {
            return Err(ErrorKind::Interrupted.into());
        }
        self.got.extend_from_slice(&piece[..n])?;
        self.left -= n;
        Ok(n)
    }

    fn flush(&mut self) -> io::Result<()> {
        Ok(())
    }
}

/// A writer that takes that many bytes, with room for them.
pub(crate) fn refusing_writer(
    alloc: Global,
    left: usize,
    most: usize,
    by_error: bool,
) -> Result<Counted<Refusing>, AllocError> {
    Ok(Counted::new(Refusing {
        left,
        most,
        by_error,
        calls: 0,
        got: Vec::with_capacity(alloc, left)?,
    }))
}

/// Whether the writer got these bytes in that many calls, of which that many failed.
pub(crate) fn has_got(out: Counted<Refusing>, bytes: &[u8], calls: usize, failures: u128) -> bool {
    let failed = out.failures();
    let writer = out.into_inner();
    writer.got.as_slice() == bytes && writer.calls == calls && failed == failures
}

/// A reader that gives one byte per call, and an error at the call of this number, counted from 1.
#[derive(Drop)]
pub(crate) struct Bytewise<'a> {
    text: &'a [u8],
    calls: usize,
    fails_at: usize,
}

impl<'a> Read for Bytewise<'a> {
    fn read(&mut self, buf: &mut [u8]) -> io::Result<usize> {
        self.calls = self.calls.saturating_add(1);
        if self.calls == self.fails_at {
            return Err(ErrorKind::Interrupted.into());
        }
        let at = self.calls.saturating_sub(1);
        if at >= self.text.len() || buf.is_empty() {
            return Ok(0);
        }
        buf[0] = self.text[at];
        Ok(1)
    }
}

pub(crate) fn bytewise_reader(text: &[u8], fails_at: usize) -> Counted<Bytewise<'_>> {
    Counted::new(Bytewise {
        text,
        calls: 0,
        fails_at,
    })
}

/// Whether the reader was called that many times, and that many calls failed.
pub(crate) fn has_given(input: Counted<Bytewise<'_>>, calls: usize, failures: u128) -> bool {
    input.failures() == failures && input.into_inner().calls == calls
}
