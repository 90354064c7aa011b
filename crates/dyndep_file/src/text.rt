//! The statements of a dyndep file, and the text that is built of them and written.
ghost use Rattle.std.specs.Prelude.{◌≡◌, ◌∷◌, ◌++◌, List, [], map, IfOk, IfErr, OnOk, OnErr, All};
ghost use Rattle.dyndep_file.specs.Prelude.{MatchResult, None, Some, held, IsWritten, IsWritable};
ghost use Rattle.dyndep_file.specs.Prelude.{Gives, ForFault, StandsForOnly, StatementValue};
ghost use Rattle.dyndep_file.specs.Prelude.{TextValue, IsTextOf, IsFinished, paths_of};
ghost use Rattle.dyndep_file.specs.Prelude.{statement_fault, write_fault, text_or_fault};
ghost use Rattle.dyndep_file.specs.Prelude.{LeavesWriter, WritesInTurn, AnswersWriteFault};
ghost use Rattle.dyndep_file.specs.Prelude.{part_text, dyndep_text, texts, lent_texts};

use crate::fault::WriteFault;
use ninja_text::{Counted, Failure, LINE_LIMIT, Stopped, WriteCall, escape_into, is_writable};
use std::alloc::{AllocError, Global};
use std::marker::Model;

/// What a dyndep file adds to one build statement of the manifest (Ninja 1.11 manual, "Dyndep file
/// reference"). Paths are without escapes. They need not be canonical.
#[derive(Debug, Drop)]
pub struct Statement {
    /// The explicit output, which identifies the build statement.
    pub output: Vec<u8>,
    /// The implicit outputs that are added.
    pub implicit_outputs: Vec<Vec<u8>>,
    /// The implicit inputs that are added.
    pub implicit_inputs: Vec<Vec<u8>>,
    /// Whether the statement has a `restat` binding whose value is not empty.
    pub restat: bool,
}

impl Model for Statement {
    ghost Value = { StatementValue };

    ghost view = { λ s. record {
      output = s.output.items;
      implicit_outputs = map (λ path. path.items) s.implicit_outputs.items;
      implicit_inputs = map (λ path. path.items) s.implicit_inputs.items;
      restat = s.restat;
    } };
}

/// A [`Statement`] with borrowed paths.
#[derive(Drop)]
pub struct LentStatement<'a> {
    pub output: &'a [u8],
    pub implicit_outputs: &'a [&'a [u8]],
    pub implicit_inputs: &'a [&'a [u8]],
    pub restat: bool,
}

impl<'a> Model for LentStatement<'a> {
    ghost Value = { StatementValue };

    ghost view = { λ s. record {
      output = s.output.now;
      implicit_outputs = map (λ path. path.now) s.implicit_outputs.now;
      implicit_inputs = map (λ path. path.now) s.implicit_inputs.now;
      restat = s.restat;
    } };
}

/// The statements of a dyndep file, in order.
#[derive(Debug, Drop)]
pub struct Dyndep {
    pub statements: Vec<Statement>,
}

impl Model for Dyndep {
    ghost Value = { List StatementValue };

    ghost view = { λ d. d.statements.items };
}

/// The text of a dyndep file, to which statements are added one after another (Ninja 1.11 manual,
/// "Dyndep file reference"). It has the version line, and for each statement the build line and, if
/// the flag is set, a `restat` binding. Lines end in LF, and paths are escaped.
#[derive(Drop)]
pub struct DyndepText {
    text: Vec<u8>,
    /// The number of statements.
    count: usize,
    /// The lines of the statement that is being added. They are appended as a whole, so that the
    /// text is unchanged after an error.
    lines: Vec<u8>,
}

impl Model for DyndepText {
    ghost Value = { TextValue };

    ghost view = { λ t. record { bytes = t.text.items; count = t.count } };
}

impl DyndepText {
    /// Returns the text without statements, the version line, or an error if an allocation fails.
    pub fn new(alloc: Global) -> Result<DyndepText, AllocError>
        ensures { IfOk result (IsTextOf []) }
    {
        let mut text = Vec::new(alloc);
        text.extend_from_slice(b"ninja_dyndep_version = 1\n")?;
        Ok(DyndepText {
            text,
            count: 0,
            lines: Vec::new(alloc),
        })
    }

    /// Adds the lines of a statement.
    ///
    /// # Errors
    ///
    /// Returns Y1 `Unwritable` if a path cannot be escaped. Otherwise returns Y2 `StatementTooLong`
    /// if the build line has more than 1,048,576 bytes, including its end. Returns
    /// [`Failure::Memory`] if an allocation fails. After an error the text is unchanged, and other
    /// statements can be added.
    pub fn add(&mut self, statement: &LentStatement<'_>) -> Result<(), Failure<WriteFault>>
        // Whatever statements were added before this one.
        ensures added { OnOk result ((statements : List StatementValue) →
            IsTextOf statements self.old → IsTextOf (statements ++ statement.now ∷ []) self.new) }
        ensures fault { IfErr result (ForFault (λ fault.
            statement_fault self.old.count statement.now ≡ Some fault)) }
        ensures unchanged { OnErr result (self.new ≡ self.old) }
    {
        let output = [statement.output];
        let mut paths = output
            .iter()
            .chain(statement.implicit_outputs.iter())
            .chain(statement.implicit_inputs.iter());
        if let Some(path) = paths.position(|path| !is_writable(*path)) {
            return Err(Failure::Fault(WriteFault::Unwritable {
                statement: self.count,
                path,
            }));
        }
        self.add_writable(statement)
    }

    /// Adds the lines of a statement, as [`add`](DyndepText::add) does, but does not check that the
    /// paths can be escaped. They must be.
    pub fn add_writable(&mut self, statement: &LentStatement<'_>) -> Result<(), Failure<WriteFault>>
        requires { All IsWritable (paths_of statement.now) }
        ensures added { OnOk result ((statements : List StatementValue) →
            IsTextOf statements self.old → IsTextOf (statements ++ statement.now ∷ []) self.new) }
        ensures fault { IfErr result (ForFault (λ fault.
            statement_fault self.old.count statement.now ≡ Some fault)) }
        ensures unchanged { OnErr result (self.new ≡ self.old) }
    {
        self.lines.clear();
        self.lines.extend_from_slice(b"build ")?;
        escape_into(statement.output, &mut self.lines)?;
        push_part(statement.implicit_outputs, &mut self.lines)?;
        self.lines.extend_from_slice(b": dyndep")?;
        push_part(statement.implicit_inputs, &mut self.lines)?;
        self.lines.extend_from_slice(b"\n")?;
        if self.lines.len() > LINE_LIMIT {
            return Err(Failure::Fault(WriteFault::StatementTooLong {
                statement: self.count,
            }));
        }
        if statement.restat {
            self.lines.extend_from_slice(b"  restat = 1\n")?;
        }
        self.text.extend_from_slice(&self.lines)?;
        // A text cannot have enough statements to saturate the count.
        self.count = self.count.saturating_add(1);
        Ok(())
    }

    /// Returns the text. It stands for the statements that were added, and for no others.
    pub fn finish(self) -> Vec<u8>
        ensures { (statements : List StatementValue) →
            IsTextOf statements self → IsFinished statements result.items }
    {
        self.text
    }
}

impl Dyndep {
    /// Returns the text of the statements, as [`DyndepText`] builds it, or the error of the first
    /// statement that has one, or [`Failure::Memory`] if an allocation fails.
    pub fn to_text(&self, alloc: Global) -> Result<Vec<u8>, Failure<WriteFault>>
        ensures text { Gives (λ text. text.items) result (text_or_fault self.now) }
        ensures unfaulted { IfOk result (λ _. write_fault self.now ≡ None) }
        ensures meaning { IfOk result (λ text. StandsForOnly text.items self.now) }
    {
        let mut text = DyndepText::new(alloc)?;
        let mut outputs = Vec::new(alloc);
        let mut inputs = Vec::new(alloc);
        for statement in &self.statements {
            lend(&statement.implicit_outputs, &mut outputs)?;
            lend(&statement.implicit_inputs, &mut inputs)?;
            text.add(&LentStatement {
                output: &statement.output,
                implicit_outputs: &outputs,
                implicit_inputs: &inputs,
                restat: statement.restat,
            })?;
        }
        Ok(text.finish())
    }
}

/// Writes the text of a dyndep file. Each call of the writer gets what is left of the text.
///
/// # Errors
///
/// Returns Y1 or Y2 if a statement cannot be written, or [`Failure::Memory`] if an allocation
/// fails. Nothing is written then. Returns `Io` after the first failed call; exactly the first
/// `written` bytes of the text were written.
pub fn write<W: WriteCall>(
    alloc: Global,
    dyndep: &Dyndep,
    out: &mut Counted<W>,
) -> Result<(), Failure<WriteFault>>
    ensures text { MatchResult result
        (λ _. IsWritten W.contents out.old out.new (dyndep_text dyndep.now))
        (λ failure. LeavesWriter W.contents out.old out.new (dyndep_text dyndep.now) failure) }
    ensures calls { WritesInTurn W.writes (held out.old) (held out.new)
        (dyndep_text dyndep.now) result }
    ensures fault { AnswersWriteFault (write_fault dyndep.now) result }
    ensures meaning { OnOk result (StandsForOnly (dyndep_text dyndep.now) dyndep.now) }
{
    let text = dyndep.to_text(alloc)?;
    match out.write_text(&text) {
        Ok(()) => Ok(()),
        Err(Stopped { written }) => Err(Failure::Fault(WriteFault::Io { written })),
    }
}

/// Replaces the contents of the vector with the borrowed paths.
fn lend<'p>(paths: &'p [Vec<u8>], lent: &mut Vec<&'p [u8]>) -> Result<(), AllocError>
    ensures { OnOk result (lent_texts lent.new.items ≡ texts paths.now) }
{
    lent.clear();
    for path in paths {
        lent.push(path.as_slice())?;
    }
    Ok(())
}

/// Appends a part of a build line.
fn push_part(paths: &[&[u8]], text: &mut Vec<u8>) -> Result<(), AllocError>
    requires { All IsWritable (lent_texts paths.now) }
    ensures { OnOk result (text.new.items ≡ text.old.items ++ part_text (lent_texts paths.now)) }
{
    if paths.is_empty() {
        return Ok(());
    }
    text.extend_from_slice(b" |")?;
    for path in paths {
        text.extend_from_slice(b" ")?;
        escape_into(*path, text)?;
    }
    Ok(())
}
