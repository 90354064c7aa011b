//! Where the tokens of a line are. What words stand for, and the lexical faults, are rows of
//! `tests/rows`.
use ninja_text::TokenKind::{Bar, BarAt, Colon, DoubleBar, Word};
use ninja_text::{Line, LineCutter, TokenKind, Words, words};
use std::alloc::Global;

/// A token's kind, its start and its end.
type Span = (TokenKind, usize, usize);

/// Whether these are all tokens.
fn are_tokens(tokens: Words<'_>, wanted: &[Span]) -> bool {
    let mut left = wanted;
    for token in tokens {
        let Some((span, rest)) = left.split_first() else {
            return false;
        };
        if *span != (token.kind(), token.start(), token.end()) {
            return false;
        }
        left = rest;
    }
    left.is_empty()
}

/// Whether these are the tokens of the line.
fn has_tokens(line: Line<'_>, wanted: &[Span]) -> bool {
    if line.is_comment() {
        return false;
    }
    match words(line) {
        Ok(tokens) => are_tokens(tokens, wanted),
        Err(_fault) => false,
    }
}

/// The same of a line with its end.
fn is_divided(alloc: Global, text: &[u8], wanted: &[Span]) -> bool {
    let mut cutter = LineCutter::new(alloc);
    let _ = cutter.feed(text);
    match cutter.next_line() {
        Ok(Some(line)) => has_tokens(line, wanted),
        _ => false,
    }
}

/// Lines, and their tokens.
const LINES: &[(&[u8], &[Span])] = &[
    (
        b"build a$\n  b.o: dyndep\n",
        &[(Word, 0, 5), (Word, 6, 14), (Colon, 14, 15), (Word, 16, 22)],
    ),
    (
        b"build a$\r\n  b.o: dyndep\r\n",
        &[(Word, 0, 5), (Word, 6, 15), (Colon, 15, 16), (Word, 17, 23)],
    ),
    (b"a $\n b\n", &[(Word, 0, 1), (Word, 5, 6)]),
    (
        b"build a.o $\n: dyndep\n",
        &[(Word, 0, 5), (Word, 6, 9), (Colon, 12, 13), (Word, 14, 20)],
    ),
    (
        b"a|||@b| |\n",
        &[
            (Word, 0, 1),
            (DoubleBar, 1, 3),
            (BarAt, 3, 5),
            (Word, 5, 6),
            (Bar, 6, 7),
            (Bar, 8, 9),
        ],
    ),
    (
        b"my$ mods/$$x$:y/A.bmi: dyndep\n",
        &[(Word, 0, 21), (Colon, 21, 22), (Word, 23, 29)],
    ),
    (b"\ta b\n", &[(Word, 0, 2), (Word, 3, 4)]),
    (b" $\n  \n", &[]),
];

/// A word continues over a continuation, and a space before one ends it. The longest of the bars is
/// the token, an escape is part of a word, and so is a tab; spaces alone have no token.
#[test]
fn tokens_have_their_spans(rt: HostRuntime) {
    for (text, spans) in LINES {
        assert!(rt; is_divided(rt.alloc(), text, spans));
    }
}
