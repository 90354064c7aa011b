//! Reads the lines of a dyndep file: the statements so far, what each kind of line does to them,
//! and the tokens of a build line.
ghost use Rattle.std.specs.Prelude.{◌≡◌, is_some, IfOk, OnOk, codes, option_map};
ghost use Rattle.dyndep_file.specs.Prelude.{seen_assignment, symbols_past_part, unindented_fault};
ghost use Rattle.dyndep_file.specs.Prelude.{seen_line, misplaced, PassesOr, IsBuildOf, with_name};
ghost use Rattle.dyndep_file.specs.Prelude.{words_of_part, symbols_left, ProgressValue, PassesLine};
ghost use Rattle.dyndep_file.specs.Prelude.{is_version_one, indented_fault, value_assigned, texts};
ghost use Rattle.dyndep_file.specs.Prelude.{IsDyndepLine, build_fault, IsBindingOf, RefusesLine};
ghost use Rattle.dyndep_file.specs.Prelude.{text_line_fault, IsVersionLineOf, fault_of_cutter};

use crate::fault::{LineFault, ReadFault};
use crate::text::Statement;
use ninja_text::{
    Assignment, CutFault, Failure, Line, LineForm, LineState, TokenKind, Words, line_form,
};
use std::alloc::{AllocError, Global};
use std::marker::Model;

/// The stage of a file: which lines are allowed next.
#[derive(Clone, Copy)]
pub(crate) enum Stage {
    /// No version line was read.
    BeforeVersion,
    /// A binding is not allowed.
    NoneOpen,
    /// A binding belongs to the last statement.
    Open,
}

/// The statements so far and the stage of the file.
#[derive(Drop)]
pub(crate) struct Progress {
    pub(crate) stage: Stage,
    pub(crate) statements: Vec<Statement>,
}

impl Model for Progress {
    ghost Value = { ProgressValue };

    ghost view = { λ p. record { stage = p.stage; statements = p.statements.items } };
}

impl LineState for Progress {
    type Fault = ReadFault;

    ghost passes = { PassesLine };

    ghost refuses = { RefusesLine };

    ghost of_cutter = { fault_of_cutter };

    fn read_line(&mut self, alloc: Global, line: Line<'_>) -> Result<(), Failure<ReadFault>> {
        let number = line.number();
        read_text(alloc, self, line).map_err(|failure| failure.map(|fault| fault.at(number)))
    }

    fn cut_fault(fault: CutFault) -> ReadFault {
        match fault {
            CutFault::LineTooLong { line } => LineFault::LineTooLong.at(line),
            CutFault::Truncated { line } => LineFault::Truncated.at(line),
        }
    }
}

type Passed = Result<(), Failure<LineFault>>;

/// Reads the text of a line.
fn read_text(alloc: Global, progress: &mut Progress, line: Line<'_>) -> Passed
    ensures { let view = seen_line line.entry in
        PassesOr (text_line_fault progress.old.stage view.text view.comment)
        (IsDyndepLine view.text view.comment) progress.old result progress.new }
{
    match line_form(line) {
        Err(fault) => Err(Failure::Fault(LineFault::Lexical(fault))),
        Ok(LineForm::Comment) => Ok(()),
        Ok(LineForm::Blank) => {
            // A blank line closes the open statement.
            if let Stage::Open = progress.stage {
                progress.stage = Stage::NoneOpen;
            }
            Ok(())
        }
        Ok(LineForm::Build(tokens)) => build_line(alloc, progress, tokens),
        Ok(LineForm::Indented(found)) => indented_line(alloc, progress, found),
        Ok(LineForm::Unindented(found)) => unindented_line(alloc, progress, found),
    }
}

/// An indented line sets the open statement's flag if it assigns to `restat`, and closes it.
fn indented_line(alloc: Global, progress: &mut Progress, found: Option<Assignment<'_>>) -> Passed
    ensures { let view = option_map seen_assignment found.entry in
        let restat = is_some (value_assigned (codes "restat") view) in
        PassesOr (indented_fault progress.old.stage restat)
        (IsBindingOf view) progress.old result progress.new }
{
    match progress.stage {
        Stage::BeforeVersion => return Err(Failure::Fault(LineFault::NoVersion)),
        Stage::NoneOpen => return Err(Failure::Fault(LineFault::Indent)),
        Stage::Open => {}
    }
    let Some(binding) = named(found, b"restat") else {
        return Err(Failure::Fault(LineFault::BadBinding));
    };
    let value = binding.value(alloc)?;
    if let Some(statement) = progress.statements.last_mut() {
        statement.restat = !value.is_empty();
    }
    progress.stage = Stage::NoneOpen;
    Ok(())
}

/// A build line opens a statement. These are the tokens after its keyword, and the first one that
/// is not allowed decides the error.
fn build_line(alloc: Global, progress: &mut Progress, words: Words<'_>) -> Passed
    ensures { PassesOr (build_fault progress.old.stage (symbols_left words.entry))
        (IsBuildOf (symbols_left words.entry)) progress.old result progress.new }
{
    match progress.stage {
        Stage::BeforeVersion => return Err(Failure::Fault(LineFault::NoVersion)),
        Stage::NoneOpen | Stage::Open => {}
    }
    let mut words = words;
    let Some(token) = words.next_word() else {
        return Err(Failure::Fault(LineFault::NoOutput));
    };
    let output = token.value(alloc)?;
    let implicit_outputs = part(alloc, &mut words)?;
    if !words.take_sign(TokenKind::Colon) {
        let fault = misplaced(words, LineFault::SecondOutput);
        return Err(Failure::Fault(fault.unwrap_or(LineFault::BadLine)));
    }
    match words.next() {
        Some(token) if token.is_keyword(b"dyndep") => {}
        _ => return Err(Failure::Fault(LineFault::BadRule)),
    }
    let implicit_inputs = part(alloc, &mut words)?;
    if let Some(fault) = misplaced(words, LineFault::ExplicitInput) {
        return Err(Failure::Fault(fault));
    }
    progress.statements.push(Statement {
        output,
        implicit_outputs,
        implicit_inputs,
        restat: false,
    })?;
    progress.stage = Stage::Open;
    Ok(())
}

/// A line that is neither indented nor a build line is a version line, or it is not allowed. A
/// version line is allowed once, before all statements, with the value `1` or `1.0`.
fn unindented_line(alloc: Global, progress: &mut Progress, found: Option<Assignment<'_>>) -> Passed
    ensures { let view = option_map seen_assignment found.entry in
        let version = value_assigned (codes "ninja_dyndep_version") view in
        PassesOr (unindented_fault progress.old.stage version None)
        (IsVersionLineOf view) progress.old result progress.new }
{
    let version = match named(found, b"ninja_dyndep_version") {
        Some(version) if version.name_start() == 0 => version,
        _ => return Err(Failure::Fault(match progress.stage {
            Stage::BeforeVersion => LineFault::NoVersion,
            Stage::NoneOpen | Stage::Open => LineFault::BadLine,
        })),
    };
    let Stage::BeforeVersion = progress.stage else {
        return Err(Failure::Fault(LineFault::SecondVersion));
    };
    let value = version.value(alloc)?;
    if !is_version_one(&value) {
        return Err(Failure::Fault(LineFault::BadVersion));
    }
    progress.stage = Stage::NoneOpen;
    Ok(())
}

/// Returns the assignment if it assigns to this name.
fn named<'a>(assignment: Option<Assignment<'a>>, name: &[u8]) -> Option<Assignment<'a>>
    ensures { option_map seen_assignment result
        ≡ with_name name.now (option_map seen_assignment assignment.entry) }
{
    assignment.filter(|found| found.name() == name)
}

/// Returns whether a version is the number `1` or `1.0`. Other text may follow.
fn is_version_one(value: &[u8]) -> bool
    ensures { result ≡ is_version_one value.now }
{
    match value {
        [b'1'] | [b'1', b'.', b'0'] => true,
        [b'1', b'.', b'0', byte, ..] => !byte.is_ascii_digit(),
        [b'1', byte, ..] => !byte.is_ascii_digit() && *byte != b'.',
        _ => false,
    }
}

/// Takes `|` and the words after it, if it is there. Returns the values of the words.
fn part(alloc: Global, words: &mut Words<'_>) -> Result<Vec<Vec<u8>>, AllocError>
    ensures words { IfOk result
        (λ values. texts values.items ≡ words_of_part TokenKind.Bar (symbols_left words.old)) }
    ensures rest { OnOk result
        (symbols_left words.new ≡ symbols_past_part TokenKind.Bar (symbols_left words.old)) }
{
    let mut values = Vec::new(alloc);
    if !words.take_sign(TokenKind::Bar) {
        return Ok(values);
    }
    while let Some(token) = words.next_word() {
        values.push(token.value(alloc)?)?;
    }
    Ok(values)
}

/// Returns the error of the next token, which may not be there, or `None` at the end of the line.
/// `word` is the error of a word.
fn misplaced(words: Words<'_>, word: LineFault) -> Option<LineFault>
    ensures { result ≡ misplaced word (symbols_left words.entry) }
{
    let mut words = words;
    Some(match words.next()?.kind() {
        TokenKind::Word => word,
        TokenKind::DoubleBar => LineFault::OrderOnly,
        TokenKind::BarAt => LineFault::Validation,
        TokenKind::Bar | TokenKind::Colon => LineFault::BadLine,
    })
}
