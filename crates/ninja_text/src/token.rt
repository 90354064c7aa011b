//! Tokens, an iterator over the tokens of a line, and the name and the value of an assignment.
ghost use Rattle.std.specs.Prelude.{◌++◌, ◌≡◌, ◌≤◌, IfOk, OnErr, OnOk, length};

use crate::lexing::{TokenKind, append_meaning, blank_end, meaning, token_at};
use std::alloc::{AllocError, Global};

/// A token and its position in the line's text.
#[derive(Clone, Copy)]
pub struct Token<'a> {
    kind: TokenKind,
    start: usize,
    end: usize,
    raw: &'a [u8],
}

impl<'a> Token<'a> {
    ghost use Rattle.ninja_text.specs.Prelude.{is_keyword, seen_token, value_of};

    /// Returns the kind of the token.
    pub fn kind(&self) -> TokenKind
        ensures { result ≡ (seen_token self.now).kind }
    {
        self.kind
    }

    /// Returns the offset of its first byte in the line's text.
    pub fn start(&self) -> usize
        ensures { result ≡ (seen_token self.now).start }
    {
        self.start
    }

    /// Returns the offset after its last byte.
    pub fn end(&self) -> usize
        ensures { result ≡ (seen_token self.now).end }
    {
        self.end
    }

    /// Returns its bytes in the line's text, from `start` to `end`, with escapes and continuations.
    pub fn raw(&self) -> &'a [u8]
        ensures { result.now ≡ (seen_token self.now).raw }
    {
        self.raw
    }

    /// Returns whether it is this word, without escapes: a keyword.
    pub fn is_keyword(&self, word: &[u8]) -> bool
        ensures { result ≡ is_keyword word.now (seen_token self.now) }
    {
        matches!(self.kind, TokenKind::Word) && self.raw == word
    }

    /// Returns its value, as [`Token::value_into`] does, or an error if an allocation fails.
    pub fn value(&self, alloc: Global) -> Result<Vec<u8>, AllocError>
        ensures { IfOk result (λ value. value.items ≡ value_of (seen_token self.now).raw) }
    {
        meaning(alloc, self.raw)
    }

    /// Appends its value to a vector, with escapes resolved: an escape stands for its second byte,
    /// and a continuation for nothing. If an allocation fails, returns an error, and the vector is
    /// unchanged.
    pub fn value_into(&self, out: &mut Vec<u8>) -> Result<(), AllocError>
        ensures ok { OnOk result
            (out.new.items ≡ out.old.items ++ value_of (seen_token self.now).raw) }
        ensures err { OnErr result (out.new.items ≡ out.old.items) }
    {
        append_meaning(self.raw, out)
    }
}

/// An iterator over the tokens of a line, in order.
#[derive(Clone, Copy)]
pub struct Words<'a> {
    pub(crate) text: &'a [u8],
    pub(crate) index: usize,
    ghost in_text: { index ≤ length text.now },
}

impl<'a> Words<'a> {
    ghost use Rattle.ninja_text.specs.Prelude.{SignTaken, WordTaken, option_map, seen_token};
    ghost use Rattle.ninja_text.specs.Prelude.{symbols_left};

    /// Takes and returns the next token if it is a word. Otherwise takes nothing.
    pub fn next_word(&mut self) -> Option<Token<'a>>
        ensures { WordTaken (symbols_left self.old) (option_map seen_token result)
            (symbols_left self.new) }
    {
        let mut ahead = *self;
        let token = ahead.next()?;
        if token.kind() != TokenKind::Word {
            return None;
        }
        *self = ahead;
        Some(token)
    }

    /// Takes the next token if it is this sign. Returns whether it is.
    pub fn take_sign(&mut self, sign: TokenKind) -> bool
        ensures { SignTaken sign (symbols_left self.old) result (symbols_left self.new) }
    {
        let mut ahead = *self;
        let next = ahead.next();
        let is_there = next.is_some_and(|token| token.kind() == sign && sign != TokenKind::Word);
        if is_there {
            *self = ahead;
        }
        is_there
    }
}

impl<'a> Iterator for Words<'a> {
    ghost use Rattle.ninja_text.specs.Prelude.{seen_token, tokens_left};
    ghost use Rattle.std.specs.Iterator.{YieldsFirstBy, item_count};

    type Item = Token<'a>;

    ghost next_gives = { YieldsFirstBy seen_token tokens_left };

    ghost remaining = { item_count tokens_left };

    fn next(&mut self) -> Option<Token<'a>> {
        let text = self.text;
        let start = blank_end(text, self.index);
        self.index = start;
        if start == text.len() {
            return None;
        }
        let (kind, end) = token_at(text, start);
        self.index = end;
        Some(Token {
            kind,
            start,
            end,
            raw: &text[start..end],
        })
    }
}

/// The name and the value of an assignment, as slices of the line's text.
#[derive(Clone, Copy)]
pub struct Assignment<'a> {
    pub(crate) name_start: usize,
    pub(crate) name: &'a [u8],
    pub(crate) raw_value: &'a [u8],
}

impl<'a> Assignment<'a> {
    ghost use Rattle.ninja_text.specs.Prelude.{seen_assignment, value_of};

    /// Returns the offset of the name in the line's text. It is 0 if the line is not indented.
    pub fn name_start(&self) -> usize
        ensures { result ≡ (seen_assignment self.now).name_start }
    {
        self.name_start
    }

    /// Returns the name: one or more letters, digits, `_`, `.` or `-`.
    pub fn name(&self) -> &'a [u8]
        ensures { result.now ≡ (seen_assignment self.now).name }
    {
        self.name
    }

    /// Returns the rest of the line after `=` and the blanks that follow, with escapes and
    /// continuations as they were read.
    pub fn raw_value(&self) -> &'a [u8]
        ensures { result.now ≡ (seen_assignment self.now).raw_value }
    {
        self.raw_value
    }

    /// Returns the value, as [`Assignment::value_into`] does, or an error if an allocation fails.
    pub fn value(&self, alloc: Global) -> Result<Vec<u8>, AllocError>
        ensures { IfOk result (λ value.
            value.items ≡ value_of (seen_assignment self.now).raw_value) }
    {
        meaning(alloc, self.raw_value)
    }

    /// Appends the value to a vector, with escapes resolved: an escape stands for its second byte,
    /// a continuation for nothing, and any other byte for itself. Spaces at the end are kept. If an
    /// allocation fails, returns an error, and the vector is unchanged.
    pub fn value_into(&self, out: &mut Vec<u8>) -> Result<(), AllocError>
        ensures ok { OnOk result
            (out.new.items ≡ out.old.items ++ value_of (seen_assignment self.now).raw_value) }
        ensures err { OnErr result (out.new.items ≡ out.old.items) }
    {
        append_meaning(self.raw_value, out)
    }
}
