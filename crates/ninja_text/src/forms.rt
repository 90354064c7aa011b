//! What a line is by how it begins, its tokens, and how an assignment is parsed: a name, `=` and a
//! value.
ghost use Rattle.std.specs.Prelude.{◌≡◌, ◌≤◌, IfOk, IfSome, false, length};
ghost use Rattle.ninja_text.specs.Prelude.{AllByRecursion, IsAssignment, IsLineForm, IsSlice};
ghost use Rattle.ninja_text.specs.Prelude.{IsWords, LiesIn, RiseFrom, is_name_unit, seen_line};
ghost use Rattle.ninja_text.specs.Prelude.{seen_assignment, tokens_left};
ghost use Rattle.ninja_text.specs.inner.Runs.{Run};

use crate::cutter::Line;
use crate::fault::LexFault;
use crate::lexing::{LineUnit, blank_end, check_units, unit_at};
use crate::token::{Assignment, Words};

/// What a line is, by how it begins.
#[derive(Clone, Copy)]
pub enum LineForm<'a> {
    /// A comment.
    Comment,
    /// A line without tokens.
    Blank,
    /// A line that begins with the keyword `build` at its first byte. These are the tokens after
    /// the keyword.
    Build(Words<'a>),
    /// An indented line, and the assignment that it is, if it is one.
    Indented(Option<Assignment<'a>>),
    /// Any other line, and the assignment that it is, if it is one.
    Unindented(Option<Assignment<'a>>),
}

/// Returns what a line is (Ninja 1.11 manual, "Lexical syntax", "Build statements"), or the first
/// lexical error of a line that is not a comment.
pub fn line_form(line: Line<'_>) -> Result<LineForm<'_>, LexFault>
    ensures { IsLineForm (seen_line line.entry) result }
{
    if line.is_comment() {
        return Ok(LineForm::Comment);
    }
    let mut tokens = words(line)?;
    let Some(first) = tokens.next() else {
        return Ok(LineForm::Blank);
    };
    if first.start() == 0 && first.is_keyword(b"build") {
        return Ok(LineForm::Build(tokens));
    }
    let found = assignment(line)?;
    if line.text().starts_with(b" ") {
        Ok(LineForm::Indented(found))
    } else {
        Ok(LineForm::Unindented(found))
    }
}

/// Returns an iterator over the tokens of a line (Ninja 1.11 manual, "Lexical syntax"), or the
/// first lexical error of the line. The line must not be a comment.
pub fn words(line: Line<'_>) -> Result<Words<'_>, LexFault>
    requires { (seen_line line).comment ≡ false }
    ensures tokens { IsWords (seen_line line.entry) result }
    // The tokens' bytes are slices of the text, and their spans rise.
    ensures slices { IfOk result
        (λ words. AllByRecursion (IsSlice (seen_line line.entry).text) (tokens_left words)) }
    ensures rise { IfOk result (λ words. RiseFrom 0 (tokens_left words)) }
{
    let text = line.text();
    check_units(text)?;
    Ok(Words { text, index: 0 })
}

/// Returns the assignment in a line, or `None` if the line is not an assignment, or the first
/// lexical error of the line. The line must not be a comment.
///
/// The name begins at the first byte that is not blank. It is followed by `=` and the value, which
/// extends to the end of the line. Spaces and continuations may come between them.
pub fn assignment(line: Line<'_>) -> Result<Option<Assignment<'_>>, LexFault>
    requires { (seen_line line).comment ≡ false }
    ensures found { IsAssignment (seen_line line.entry) result }
    // The name and the value are slices of the text, the name before the value.
    ensures slices { IfOk result (λ found. IfSome found
        (λ a. LiesIn (seen_line line.entry).text (seen_assignment a))) }
{
    let text = line.text();
    check_units(text)?;
    let name_start = blank_end(text, 0);
    let name_end = name_end(text, name_start);
    let sign = blank_end(text, name_end);
    if name_start == name_end || sign == text.len() {
        return Ok(None);
    }
    let LineUnit::Byte(b'=') = unit_at(text, sign) else {
        return Ok(None);
    };
    let value_start = blank_end(text, sign + 1);
    Ok(Some(Assignment {
        name_start,
        name: &text[name_start..name_end],
        raw_value: &text[value_start..],
    }))
}

/// Returns the end of the name that begins at an offset.
fn name_end(text: &[u8], from: usize) -> usize
    requires { from ≤ length text.now }
    ensures within { (from ≤ result) × (result ≤ length text.now) }
    ensures run { Run is_name_unit text.now from result }
{
    let mut index = from;
    while index < text.len() {
        let LineUnit::Byte(byte) = unit_at(text, index) else {
            return index;
        };
        if !byte.is_ascii_alphanumeric() && !matches!(byte, b'_' | b'.' | b'-') {
            return index;
        }
        index += 1;
    }
    index
}
