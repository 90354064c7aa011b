//! The strings of a build line or a statement, one after another in one text, the paths that share
//! it, and the parts of a build line.
ghost use Rattle.std.specs.Prelude.{◌≡◌, ◌<◌, ◌≤◌, ◌≢◌, ◌∷◌, ◌++◌, List, [], length, get_or, IfOk};
ghost use Rattle.build_effect.specs.Prelude.{OnOk, slice_range, rc_slice_items, rows, Text, Gives};
ghost use Rattle.build_effect.specs.Prelude.{path_of, front_words, past_words, words_of_part};
ghost use Rattle.build_effect.specs.Prelude.{symbols_past_part, seen_token, symbols_left, value_of};
ghost use Rattle.build_effect.specs.Prelude.{path_texts, is_rule_name, GivesEdge, edge_texts};
ghost use Rattle.build_effect.specs.Prelude.{paths_of, edge_paths, texts_of, AreWithin};

use crate::graph::Edge;
use dyndep_file::Statement;
use ninja_text::{Failure, Path, PathFault, Token, TokenKind, Words};
use std::alloc::{AllocError, Global};
use std::marker::Model;
use std::rc::RcSlice;

/// Strings that are still appended to. They lie one after another in one text, so none of them has
/// memory of its own.
#[derive(Drop)]
pub(crate) struct Strings {
    text: Vec<u8>,
    spans: Vec<Span>,
}

/// The bytes of a string in the text, from `start` to `end`.
#[derive(Clone, Copy)]
pub(crate) struct Span {
    pub(crate) start: usize,
    pub(crate) end: usize,
}

impl Model for Strings {
    ghost Value = { List Text };

    ghost view = { λ s. texts_of s.text.items s.spans.items };

    ghost invariant = { λ s. AreWithin s.text.items s.spans.items };
}

impl Strings {
    /// Returns no strings, with room for `bytes` bytes.
    pub(crate) fn with_capacity(alloc: Global, bytes: usize) -> Result<Strings, AllocError>
        ensures { IfOk result (λ strings. strings ≡ []) }
    {
        Ok(Strings {
            text: Vec::with_capacity(alloc, bytes)?,
            spans: Vec::with_capacity(alloc, 8)?,
        })
    }

    /// Returns how many strings there are.
    pub(crate) fn len(&self) -> usize
        ensures { result ≡ length self.now }
    {
        self.spans.len()
    }

    /// Appends a string.
    pub(crate) fn push(&mut self, text: &[u8]) -> Result<(), AllocError>
        ensures { OnOk result (self.new ≡ self.old ++ text.now ∷ []) }
    {
        let start = self.text.len();
        self.text.extend_from_slice(text)?;
        let end = self.text.len();
        self.spans.push(Span { start, end })?;
        Ok(())
    }

    /// Appends strings.
    pub(crate) fn extend_from_slice(&mut self, texts: &[Vec<u8>]) -> Result<(), AllocError>
        ensures { OnOk result (self.new ≡ self.old ++ rows texts.now) }
    {
        for text in texts {
            self.push(text)?;
        }
        Ok(())
    }

    /// Appends the value of a token.
    pub(crate) fn push_value(&mut self, token: Token<'_>) -> Result<(), AllocError>
        ensures { OnOk result (self.new ≡ self.old ++ value_of (seen_token token.entry).raw ∷ []) }
    {
        let start = self.text.len();
        token.value_into(&mut self.text)?;
        let end = self.text.len();
        self.spans.push(Span { start, end })?;
        Ok(())
    }

    /// Returns the same strings, whose text paths can share from now on.
    pub(crate) fn share(self) -> Result<SharedStrings, AllocError>
        ensures { IfOk result (λ shared. shared ≡ self) }
    {
        let Strings { mut text, spans } = self;
        text.shrink_to_fit();
        Ok(SharedStrings {
            text: RcSlice::from_vec(text)?,
            spans,
        })
    }
}

/// Strings in a text that paths share.
#[derive(Drop)]
pub(crate) struct SharedStrings {
    text: RcSlice<u8>,
    spans: Vec<Span>,
}

impl Model for SharedStrings {
    ghost Value = { List Text };

    ghost view = { λ s. texts_of (rc_slice_items s.text) s.spans.items };

    ghost invariant = { λ s. AreWithin (rc_slice_items s.text) s.spans.items };
}

impl SharedStrings {
    /// Returns the strings of a statement that have to be paths.
    pub(crate) fn of(alloc: Global, statement: &Statement) -> Result<SharedStrings, AllocError>
        ensures { IfOk result (λ strings. strings ≡ path_texts statement.now) }
    {
        let mut strings = Strings::with_capacity(alloc, statement.output.len())?;
        strings.push(&statement.output)?;
        strings.extend_from_slice(&statement.implicit_outputs)?;
        strings.extend_from_slice(&statement.implicit_inputs)?;
        strings.share()
    }

    /// Returns how many strings there are.
    pub(crate) fn len(&self) -> usize
        ensures { result ≡ length self.now }
    {
        self.spans.len()
    }

    /// Returns the path of the string at an index, or the error of a string that is not a valid
    /// path. The path shares the text.
    pub(crate) fn path(&self, alloc: Global, index: usize) -> Result<Path, Failure<PathFault>>
        requires { index < length self.now }
        ensures { Gives (λ path. path) result (path_of (get_or self.now index [])) }
    {
        let span = self.spans[index];
        Path::within(alloc, &self.text, span.start, span.end)
    }

    /// Returns the paths of the strings from index `from` to index `to`, or the error of the first
    /// one that is not a valid path. The paths share the text.
    pub(crate) fn paths(
        &self,
        alloc: Global,
        from: usize,
        to: usize,
    ) -> Result<Vec<Path>, Failure<PathFault>>
        requires order { from ≤ to }
        requires within { to ≤ length self.now }
        ensures { Gives (λ paths. paths.items) result (paths_of (slice_range self.now from to)) }
    {
        let mut paths = Vec::with_capacity(alloc, to - from)?;
        for index in from..to {
            paths.push(self.path(alloc, index)?)?;
        }
        Ok(paths)
    }
}

/// A build line, with strings in the place of an edge's paths. It has an output.
#[derive(Drop)]
pub(crate) struct EdgeTexts {
    rule: Vec<u8>,
    /// The strings of all five lists, from left to right.
    strings: Strings,
    /// How many strings there are up to the end of each list. The last list, that of the order-only
    /// inputs, has the rest.
    outputs: usize,
    implicit_outputs: usize,
    inputs: usize,
    implicit_inputs: usize,
}

impl Model for EdgeTexts {
    ghost use Rattle.build_effect.specs.ListingLines.{EdgeTexts};
    ghost use Rattle.build_effect.specs.inner.Strings.{AreEnds, edge_texts_of};

    ghost Value = { EdgeTexts };

    ghost view = { λ t. edge_texts_of t.rule.items t.strings
        t.outputs t.implicit_outputs t.inputs t.implicit_inputs };

    ghost invariant = { λ t. AreEnds t.strings
        t.outputs t.implicit_outputs t.inputs t.implicit_inputs };
}

/// Returns what a build line says, by its tokens after `build`, or `None` if it is not a build
/// line. Its strings have at most `bytes` bytes.
pub(crate) fn edge_texts(
    alloc: Global,
    bytes: usize,
    words: Words<'_>,
) -> Result<Option<EdgeTexts>, AllocError>
    ensures { IfOk result (λ texts. texts ≡ edge_texts (symbols_left words.entry)) }
{
    let mut tokens = words;
    let mut strings = Strings::with_capacity(alloc, bytes)?;
    let outputs = front_words(&mut tokens, &mut strings)?;
    let implicit_outputs = part(&mut tokens, TokenKind::Bar, &mut strings)?;
    if !tokens.take_sign(TokenKind::Colon) {
        return Ok(None);
    }
    let Some(rule) = tokens.next_word() else {
        return Ok(None);
    };
    let inputs = front_words(&mut tokens, &mut strings)?;
    let implicit_inputs = part(&mut tokens, TokenKind::Bar, &mut strings)?;
    part(&mut tokens, TokenKind::DoubleBar, &mut strings)?;
    if outputs == 0 || !is_rule_name(rule.raw()) || tokens.next().is_some() {
        return Ok(None);
    }
    Ok(Some(EdgeTexts {
        rule: Vec::from_slice(alloc, rule.raw())?,
        strings,
        outputs,
        implicit_outputs,
        inputs,
        implicit_inputs,
    }))
}

/// Takes the words at the front, and appends their values. Returns how many strings there are then.
fn front_words(tokens: &mut Words<'_>, strings: &mut Strings) -> Result<usize, AllocError>
    ensures words { OnOk result
        (strings.new ≡ strings.old ++ front_words (symbols_left tokens.old)) }
    ensures rest { OnOk result (symbols_left tokens.new ≡ past_words (symbols_left tokens.old)) }
    ensures count { IfOk result (λ count. count ≡ length strings.new) }
{
    while let Some(token) = tokens.next_word() {
        strings.push_value(token)?;
    }
    Ok(strings.len())
}

/// Takes the part that begins with this sign, and appends its words. If the sign is not at the
/// front, takes nothing. Returns how many strings there are then.
fn part(tokens: &mut Words<'_>, sign: TokenKind, strings: &mut Strings) -> Result<usize, AllocError>
    ensures words { OnOk result
        (strings.new ≡ strings.old ++ words_of_part sign (symbols_left tokens.old)) }
    ensures rest { OnOk result
        (symbols_left tokens.new ≡ symbols_past_part sign (symbols_left tokens.old)) }
    ensures count { IfOk result (λ count. count ≡ length strings.new) }
{
    if tokens.take_sign(sign) {
        front_words(tokens, strings)
    } else {
        Ok(strings.len())
    }
}

/// Returns whether a rule may have this name.
fn is_rule_name(name: &[u8]) -> bool
    ensures { result ≡ is_rule_name name.now }
{
    let mut bytes = name.iter();
    !name.is_empty() && bytes.all(|b| b.is_ascii_alphanumeric() || matches!(*b, b'_' | b'.' | b'-'))
}

/// Returns the edge of a build line, without bindings, or the error of its first string that is not
/// a valid path.
pub(crate) fn edge_of(alloc: Global, texts: EdgeTexts) -> Result<Edge, Failure<PathFault>>
    ensures edge { GivesEdge result (edge_paths texts) }
    ensures outputs { IfOk result (λ edge. edge.outputs ≢ []) }
{
    let strings = texts.strings.share()?;
    Ok(Edge {
        outputs: strings.paths(alloc, 0, texts.outputs)?,
        implicit_outputs: strings.paths(alloc, texts.outputs, texts.implicit_outputs)?,
        inputs: strings.paths(alloc, texts.implicit_outputs, texts.inputs)?,
        implicit_inputs: strings.paths(alloc, texts.inputs, texts.implicit_inputs)?,
        order_only: strings.paths(alloc, texts.implicit_inputs, strings.len())?,
        rule: texts.rule,
        dyndep: None,
        restat: false,
    })
}
