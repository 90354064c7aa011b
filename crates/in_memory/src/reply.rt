//! What a call leaves in memory of its caller, and what it reports; and the statements of a dyndep
//! file, as data.

ghost use Rattle.std.specs.Prelude.{◌≡◌, ◌++◌, ⊤, Ok, IfOk, OnOk, flat_map};
ghost use Rattle.in_memory.specs.Prelude.{Puts, without, answer_reply, Tells, fault_reply};
ghost use Rattle.in_memory.specs.Prelude.{error_numbers, location_numbers};
ghost use Rattle.in_memory.specs.Prelude.{statement_numbers, statement_paths, statements_reply};

use commands::{Answer, Document, Entry, Location};
use dyndep_file::{Dyndep, ReadFault, Statement};
use ninja_text::Failure;
use std::alloc::{AllocError, Global};
use std::marker::Model;

/// What a call reports.
#[repr(C)]
#[derive(Clone, Copy, Debug, Drop)]
pub struct Outcome {
    /// The exit status of the command, 0, 1 or 3; or 4 if an allocation failed, or 5 if the lengths
    /// do not add up to the length of the text of files, or a string is not UTF-8.
    pub status: u32,
    /// 1 if the numbers and the text were written, or 0 if there are none, or too little room.
    pub written: u32,
    /// How many numbers there are.
    pub numbers: usize,
    /// How many bytes the text has.
    pub text: usize,
}

impl Outcome {
    /// Returns the outcome of a call that has nothing to write, for the reason of this status.
    pub(crate) fn without(status: u32) -> Outcome
        ensures { result ≡ without status }
    {
        Outcome {
            status,
            written: 0,
            numbers: 0,
            text: 0,
        }
    }
}

/// A status, numbers, and a text of which the numbers tell the parts.
#[derive(Drop)]
pub(crate) struct Reply {
    pub status: u32,
    pub numbers: Vec<usize>,
    /// How many of the numbers, at the end, are left out if there is no room for them.
    pub extra: usize,
    pub text: Vec<u8>,
}

impl Model for Reply {
    ghost use Rattle.in_memory.specs.Replies.{ReplyValue};

    ghost Value = { ReplyValue };

    ghost view = { λ r. record {
      status = r.status;
      numbers = r.numbers.items;
      extra = r.extra;
      text = r.text.items;
    } };
}

impl Reply {
    /// Returns the reply of a command that has this answer: its texts, and then the name and the
    /// bytes of each file to be written.
    pub(crate) fn of(alloc: Global, answer: &Answer) -> Result<Reply, AllocError>
        ensures { IfOk result (λ reply. reply ≡ answer_reply answer.now) }
    {
        let mut numbers = Vec::from_slice(alloc, &[answer.out.len(), answer.err.len()])?;
        push_location(&mut numbers, &answer.at)?;
        let mut text = Vec::from_slice(alloc, &answer.out)?;
        text.extend_from_slice(&answer.err)?;
        for file in &answer.files {
            let keeps = usize::from(file.keeps);
            numbers.extend_from_slice(&[file.name.len(), file.bytes.len(), keeps])?;
            text.extend_from_slice(file.name.as_bytes())?;
            text.extend_from_slice(&file.bytes)?;
        }
        Ok(Reply {
            status: u32::from(answer.status),
            numbers,
            extra: match answer.at {
                Some(_) => 10,
                None => 0,
            },
            text,
        })
    }
}

/// Stands for a number that an error does not have.
const ABSENT: usize = usize::MAX;

/// Appends the numbers of the location, if there is one.
fn push_location(numbers: &mut Vec<usize>, at: &Option<Location>) -> Result<(), AllocError>
    ensures { OnOk result (numbers.new.items ≡ numbers.old.items ++ error_numbers at.now) }
{
    match at {
        Some(at) => numbers.extend_from_slice(&location_numbers(at)),
        None => Ok(()),
    }
}

/// Returns the numbers of a location in the order of `dyncollate_location` in `dyncollate.h`.
fn location_numbers(at: &Location) -> [usize; 10]
    ensures { result ≡ location_numbers at.now }
{
    let (document, index) = match at.document {
        None => (0, ABSENT),
        Some(Document::Target) => (1, ABSENT),
        Some(Document::Project) => (2, ABSENT),
        Some(Document::Scan(index)) => (3, index),
        Some(Document::Info(index)) => (4, index),
        Some(Document::Edges) => (5, ABSENT),
        Some(Document::Name) => (6, ABSENT),
        Some(Document::Dyndep) => (7, ABSENT),
    };
    let (letter, number) = match at.code {
        None => (0, 0),
        Some(code) => (usize::from(code.letter), usize::from(code.number)),
    };
    let (list, entry) = match at.entry {
        None => (0, ABSENT),
        Some(Entry::Provides(index)) => (1, index),
        Some(Entry::Requires(index)) => (2, index),
        Some(Entry::Path(index)) => (3, index),
    };
    let target = at.target.unwrap_or(ABSENT);
    let line = at.line.unwrap_or(ABSENT as u64) as usize;
    let item = at.item.unwrap_or(ABSENT);
    let offset = at.offset.unwrap_or(ABSENT);
    [
        document, letter, number, list, target, index, line, item, entry, offset,
    ]
}

/// Writes a reply, if there is room for all of it, and returns the outcome.
pub(crate) fn put(
    reply: Result<Reply, AllocError>,
    numbers: &mut [usize],
    text: &mut [u8],
) -> Outcome
    ensures { Puts ⊤ (λ it. reply ≡ Ok it) numbers.old text.old numbers.new text.new result }
{
    let Ok(reply) = reply else {
        return Outcome::without(4);
    };
    let all = reply.numbers.len();
    let needed = all.saturating_sub(reply.extra);
    let fits = needed <= numbers.len() && reply.text.len() <= text.len();
    if fits {
        let count = if numbers.len() < all { needed } else { all };
        numbers[..count].copy_from_slice(&reply.numbers[..count]);
        text[..reply.text.len()].copy_from_slice(&reply.text);
    }
    Outcome {
        status: reply.status,
        written: u32::from(fits),
        numbers: needed,
        text: reply.text.len(),
    }
}

/// Reads a dyndep file, and writes its statements into memory of the caller, or the line of its
/// error and what is wrong there.
pub fn statements_into(
    alloc: Global,
    dyndep: &[u8],
    numbers: &mut [usize],
    text: &mut [u8],
) -> Outcome
    ensures { Puts ⊤ (Tells dyndep.now) numbers.old text.old numbers.new text.new result }
{
    match Dyndep::of(alloc, dyndep) {
        Ok(dyndep) => put(of_statements(alloc, &dyndep), numbers, text),
        Err(Failure::Fault(fault)) => put(of_fault(alloc, fault), numbers, text),
        Err(Failure::Memory) => Outcome::without(4),
    }
}

/// Returns what is reported of these statements.
fn of_statements(alloc: Global, dyndep: &Dyndep) -> Result<Reply, AllocError>
    ensures { IfOk result (λ reply. reply ≡ statements_reply dyndep.now) }
{
    let mut numbers = Vec::new(alloc);
    let mut text = Vec::new(alloc);
    for statement in &dyndep.statements {
        push_statement(statement, &mut numbers, &mut text)?;
    }
    Ok(Reply {
        status: 0,
        numbers,
        extra: 0,
        text,
    })
}

/// Appends what is reported of a statement.
fn push_statement(
    statement: &Statement,
    numbers: &mut Vec<usize>,
    text: &mut Vec<u8>,
) -> Result<(), AllocError>
    ensures { OnOk result (
        (numbers.new.items ≡ numbers.old.items ++ statement_numbers statement.now)
        × (text.new.items
        ≡ text.old.items ++ flat_map (λ path. path) (statement_paths statement.now))) }
{
    numbers.extend_from_slice(&[
        usize::from(statement.restat),
        statement.implicit_outputs.len(),
        statement.implicit_inputs.len(),
        statement.output.len(),
    ])?;
    text.extend_from_slice(&statement.output)?;
    let outputs = statement.implicit_outputs.iter();
    for path in outputs.chain(statement.implicit_inputs.iter()) {
        numbers.push(path.len())?;
        text.extend_from_slice(path)?;
    }
    Ok(())
}

/// Returns what is reported of a fault.
fn of_fault(alloc: Global, fault: ReadFault) -> Result<Reply, AllocError>
    ensures { IfOk result (λ reply. reply ≡ fault_reply fault) }
{
    let mut numbers = Vec::new(alloc);
    let text = match fault {
        ReadFault::AtLine { line, fault } => {
            numbers.push(line as usize)?;
            format!(in alloc; "{fault}")?
        }
        ReadFault::Io => format!(in alloc; "{fault}")?,
    };
    Ok(Reply {
        status: 1,
        numbers,
        extra: 0,
        text: text.into_bytes(),
    })
}
