//! The units of a line (single bytes, escapes and continuations), what they stand for, and the
//! kinds of tokens and lexical errors that they make.
ghost use Rattle.std.specs.Prelude.{◌++◌, ◌+◌, ◌<◌, ◌∷◌, ◌≡◌, ◌≤◌, IfOk, OnErr, OnOk, drop};
ghost use Rattle.ninja_text.specs.Prelude.{is_blank, length, lexical_fault, result_err, tokens_at};
ghost use Rattle.ninja_text.specs.Prelude.{unit_fault, unit_len, units, value_of};
ghost use Rattle.ninja_text.specs.inner.Runs.{Run, spaces_at};
ghost use Rattle.ninja_text.specs.inner.TokenStarts.{BeginsToken, BeginsPiece, IsFirstToken};
ghost use Rattle.ninja_text.specs.inner.PlainTexts.{is_suspect};

use crate::fault::LexFault;
use std::alloc::{AllocError, Global};

/// The kind of a token.
#[derive(Clone, Copy, Debug, PartialEq, Eq)]
pub enum TokenKind {
    /// A run of pieces: ordinary bytes, and escapes such as `$ ` and `$:`.
    Word,
    /// `|`
    Bar,
    /// `||`
    DoubleBar,
    /// `|@`
    BarAt,
    /// `:`
    Colon,
}

pub(crate) fn check_units(text: &[u8]) -> Result<(), LexFault>
    ensures { result_err result ≡ lexical_fault text.now }
{
    // Hardly any line has such a byte.
    if !text.iter().any(is_suspect) {
        return Ok(());
    }
    let mut index = 0;
    while index < text.len() {
        let unit = unit_at(text, index);
        check_unit(index, unit)?;
        index += unit.len();
    }
    Ok(())
}

/// Returns whether an error, or a unit of several bytes, can begin with this byte.
fn is_suspect(byte: &u8) -> bool
    ensures { result ≡ is_suspect byte.now }
{
    matches!(*byte, b'$' | 0 | b'\r')
}

fn check_unit(place: usize, unit: LineUnit) -> Result<(), LexFault>
    ensures { result_err result ≡ unit_fault place unit }
{
    match unit {
        LineUnit::Escape(byte) if byte.is_ascii_alphanumeric() => Err(LexFault::Variable { place }),
        LineUnit::Escape(b'{' | b'_' | b'-') => Err(LexFault::Variable { place }),
        LineUnit::Escape(b'$' | b' ' | b':') => Ok(()),
        LineUnit::Escape(_) => Err(LexFault::BadEscape { place }),
        LineUnit::Byte(0) => Err(LexFault::Nul { place }),
        LineUnit::Byte(b'\r') => Err(LexFault::LoneCr { place }),
        LineUnit::Byte(_) | LineUnit::Continuation(_) => Ok(()),
    }
}

/// Skips blanks. Returns the offset of the next token, or the length of the text.
pub(crate) fn blank_end(text: &[u8], from: usize) -> usize
    requires { from ≤ length text.now }
    ensures within { (from ≤ result) × (result ≤ length text.now) }
    ensures run { Run is_blank text.now from result }
    ensures same { tokens_at text.now result ≡ tokens_at text.now from }
    ensures begins { BeginsToken text.now result }
{
    let mut index = from;
    while index < text.len() {
        match unit_at(text, index) {
            LineUnit::Continuation(len) => index += len,
            LineUnit::Byte(b' ') => index += 1,
            LineUnit::Byte(_) | LineUnit::Escape(_) => return index,
        }
    }
    index
}

/// Returns the kind and the end of the token that begins at an offset.
pub(crate) fn token_at(text: &[u8], start: usize) -> (TokenKind, usize)
    requires in_text { start < length text.now }
    requires begins { BeginsToken text.now start }
    ensures within { (start < result.1) × (result.1 ≤ length text.now) }
    ensures first { IsFirstToken text.now start result.0 result.1 }
{
    match &text[start..] {
        [b':', ..] => (TokenKind::Colon, start + 1),
        // The longest of `||`, `|@` and `|`.
        [b'|', b'|', ..] => (TokenKind::DoubleBar, start + 2),
        [b'|', b'@', ..] => (TokenKind::BarAt, start + 2),
        [b'|', ..] => (TokenKind::Bar, start + 1),
        _ => (TokenKind::Word, word_end(text, start)),
    }
}

/// Returns the end of the word that begins at an offset. Continuations after its last piece do not
/// belong to the word.
fn word_end(text: &[u8], start: usize) -> usize
    requires in_text { start < length text.now }
    requires begins { BeginsPiece text.now start }
    ensures within { (start < result) × (result ≤ length text.now) }
    ensures first { IsFirstToken text.now start TokenKind.Word result }
{
    let first = unit_at(text, start);
    let mut index = start + first.len();
    let mut end = index;
    while index < text.len() {
        // Nearly every byte of a word is a piece of it by itself.
        if !matches!(text[index], b'$' | b' ' | b':' | b'|') {
            index += 1;
            end = index;
            continue;
        }
        let unit = unit_at(text, index);
        match unit {
            LineUnit::Byte(b' ' | b':' | b'|') => return end,
            LineUnit::Continuation(len) => index += len,
            LineUnit::Byte(_) | LineUnit::Escape(_) => {
                index += unit.len();
                end = index;
            }
        }
    }
    end
}

/// A unit of a line that is not a comment.
#[derive(Clone, Copy)]
pub(crate) enum LineUnit {
    /// `$` and a line's end, with the spaces after it. This is their length.
    Continuation(usize),
    /// `$` and this byte.
    Escape(u8),
    /// This byte by itself.
    Byte(u8),
}

impl LineUnit {
    pub(crate) fn len(&self) -> usize
        ensures { result ≡ unit_len self.now }
    {
        match self {
            LineUnit::Continuation(len) => *len,
            LineUnit::Escape(_) => 2,
            LineUnit::Byte(_) => 1,
        }
    }
}

/// Returns the unit that begins at this offset.
pub(crate) fn unit_at(text: &[u8], index: usize) -> LineUnit
    requires { index < length text.now }
    ensures within { index + unit_len result ≤ length text.now }
    ensures some { 0 < unit_len result }
    ensures first { units (drop index text.now)
        ≡ result ∷ units (drop (index + unit_len result) text.now) }
{
    match &text[index..] {
        [b'$', b'\n', rest @ ..] => LineUnit::Continuation(2 + leading_spaces(rest)),
        [b'$', b'\r', b'\n', rest @ ..] => LineUnit::Continuation(3 + leading_spaces(rest)),
        [b'$', escaped, ..] => LineUnit::Escape(*escaped),
        bytes => LineUnit::Byte(bytes[0]),
    }
}

/// Returns what the bytes of a word or a value stand for.
pub(crate) fn meaning(alloc: Global, raw: &[u8]) -> Result<Vec<u8>, AllocError>
    ensures { IfOk result (λ value. value.items ≡ value_of raw.now) }
{
    let mut value = Vec::with_capacity(alloc, raw.len())?;
    append_meaning(raw, &mut value)?;
    Ok(value)
}

/// Appends what the bytes of a word or a value stand for. If an allocation fails, the vector is
/// unchanged.
pub(crate) fn append_meaning(raw: &[u8], out: &mut Vec<u8>) -> Result<(), AllocError>
    ensures ok { OnOk result (out.new.items ≡ out.old.items ++ value_of raw.now) }
    ensures err { OnErr result (out.new.items ≡ out.old.items) }
{
    // Without a `$` each byte stands for itself.
    if !raw.contains(&b'$') {
        return out.extend_from_slice(raw);
    }
    let before = out.len();
    let mut index = 0;
    while index < raw.len() {
        let unit = unit_at(raw, index);
        let appended = match unit {
            LineUnit::Continuation(_) => Ok(()),
            LineUnit::Escape(byte) | LineUnit::Byte(byte) => out.extend_from_slice(&[byte]),
        };
        if let Err(e) = appended {
            out.truncate(before);
            return Err(e);
        }
        index += unit.len();
    }
    Ok(())
}

fn leading_spaces(bytes: &[u8]) -> usize
    ensures value { result ≡ spaces_at bytes.now }
    ensures within { result ≤ length bytes.now }
{
    bytes.iter().take_while(|byte| **byte == b' ').count()
}
