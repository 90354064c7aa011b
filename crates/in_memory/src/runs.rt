//! The commands over files that are values, and into memory of the caller, also for files that lie
//! one after another in one text.

ghost use Rattle.std.specs.Prelude.{◌≡◌, ◌⊎◌, ⊤, [], IsUtf8, IfSome, IfNone, IfOk, IfErr};
ghost use Rattle.in_memory.specs.Prelude.{Numbers, Bytes, OneRun, ShowRun, EffectRun, OrderRun};
ghost use Rattle.in_memory.specs.Prelude.{CollateRun, ProjectRun, Answers, Over, AreNamesOf};
ghost use Rattle.in_memory.specs.Prelude.{GivenFile, AreCut, IsCut, OfCut, BeginsWithFile, Puts};
ghost use Rattle.in_memory.specs.Prelude.{Replies, HasAnswer, without};

use crate::files::{File, Files};
use crate::reply::{Outcome, Reply, put};
use commands::Answer;
use ninja_text::Failure;
use scan_docs::project_read;
use std::alloc::{AllocError, Global};

/// Runs `one SCAN DIR EXT` on the bytes of a scan document. As every run it returns [`AllocError`]
/// if an allocation fails. Whatever is wrong with the input is in the answer.
pub fn one_run(alloc: Global, scan: &[u8], dir: &str, ext: &str) -> Result<Answer, AllocError>
    ensures { Answers (OneRun scan.now dir.now ext.now []) result }
{
    Answer::of(alloc, commands::one(alloc, scan, dir, ext))
}

/// Runs `show DYNDEP` on the bytes of a dyndep file.
pub fn show_run(alloc: Global, dyndep: &[u8]) -> Result<Answer, AllocError>
    ensures { Answers (ShowRun dyndep.now []) result }
{
    Answer::of(alloc, commands::show(alloc, dyndep))
}

/// Runs `effect NAME EDGES DYNDEP` on a name, and on the bytes of an edge list and of the dyndep
/// file of that name.
pub fn effect_run(
    alloc: Global,
    name: &str,
    edges: &[u8],
    dyndep: &[u8],
) -> Result<Answer, AllocError>
    ensures { Answers (EffectRun name.now edges.now dyndep.now []) result }
{
    Answer::of(alloc, commands::effect(alloc, name, edges, dyndep))
}

/// Runs `order EDGES` on the bytes of an edge list.
pub fn order_run(alloc: Global, edges: &[u8]) -> Result<Answer, AllocError>
    ensures { Answers (OrderRun edges.now []) result }
{
    Answer::of(alloc, commands::order(alloc, edges))
}

/// Runs `collate TARGETFILE` on the bytes of a target document. For a name in the document, the
/// first file with that name is read; a name without a file is a file that cannot be read. The
/// answer has the files to be written, and writes none.
pub fn collate_run(alloc: Global, document: &[u8], files: &[File<'_>]) -> Result<Answer, AllocError>
    ensures { Answers (Over files.now (CollateRun document.now)) result }
{
    let mut folder = Files::new(alloc, files)?;
    Answer::of(alloc, commands::collate(alloc, document, &mut folder))
}

/// Runs `project FILE` on the bytes of a project document. The target documents are among the
/// files, and all else is as for [`collate_run`].
pub fn project_run(alloc: Global, document: &[u8], files: &[File<'_>]) -> Result<Answer, AllocError>
    ensures { Answers (Over files.now (ProjectRun document.now)) result }
{
    let mut folder = Files::new(alloc, files)?;
    Answer::of(alloc, commands::project(alloc, document, &mut folder))
}

/// Returns the names of the target documents of a project document, in its order, or none if the
/// document is rejected.
pub fn project_names(alloc: Global, document: &[u8]) -> Result<Vec<String>, AllocError>
    ensures { IfOk result (λ names. AreNamesOf document.now names.items) }
{
    match project_read(alloc, document) {
        Ok(project) => Ok(project.targets),
        Err(Failure::Fault(_)) => Ok(Vec::new(alloc)),
        Err(Failure::Memory) => Err(AllocError),
    }
}

/// Runs `one`, as [`one_run`] does.
pub fn one_into(
    alloc: Global,
    scan: &[u8],
    dir: &[u8],
    ext: &[u8],
    numbers: &mut [usize],
    text: &mut [u8],
) -> Outcome
    ensures { Puts (IsUtf8 dir.now × IsUtf8 ext.now) (Replies (OneRun scan.now dir.now ext.now []))
        numbers.old text.old numbers.new text.new result }
{
    let (Ok(dir), Ok(ext)) = (str::from_utf8(dir), str::from_utf8(ext)) else {
        return Outcome::without(5);
    };
    put_answer(alloc, one_run(alloc, scan, dir, ext), numbers, text)
}

/// Runs `show`, as [`show_run`] does.
pub fn show_into(alloc: Global, dyndep: &[u8], numbers: &mut [usize], text: &mut [u8]) -> Outcome
    ensures { Puts ⊤ (Replies (ShowRun dyndep.now []))
        numbers.old text.old numbers.new text.new result }
{
    put_answer(alloc, show_run(alloc, dyndep), numbers, text)
}

/// Runs `effect`, as [`effect_run`] does.
pub fn effect_into(
    alloc: Global,
    name: &[u8],
    edges: &[u8],
    dyndep: &[u8],
    numbers: &mut [usize],
    text: &mut [u8],
) -> Outcome
    ensures { Puts (IsUtf8 name.now) (Replies (EffectRun name.now edges.now dyndep.now []))
        numbers.old text.old numbers.new text.new result }
{
    match str::from_utf8(name) {
        Ok(name) => put_answer(alloc, effect_run(alloc, name, edges, dyndep), numbers, text),
        Err(_) => Outcome::without(5),
    }
}

/// Runs `order`, as [`order_run`] does.
pub fn order_into(alloc: Global, edges: &[u8], numbers: &mut [usize], text: &mut [u8]) -> Outcome
    ensures { Puts ⊤ (Replies (OrderRun edges.now []))
        numbers.old text.old numbers.new text.new result }
{
    put_answer(alloc, order_run(alloc, edges), numbers, text)
}

/// Runs `collate`, as [`collate_run`] does, on files that lie one after another in one text.
pub fn collate_into(
    alloc: Global,
    document: &[u8],
    lengths: &[usize],
    files: &[u8],
    numbers: &mut [usize],
    text: &mut [u8],
) -> Outcome
    ensures { Puts (IsCut lengths.now files.now) (λ reply. OfCut lengths.now files.now
        (λ given. Replies (Over given (CollateRun document.now)) reply))
        numbers.old text.old numbers.new text.new result }
{
    match files_of(alloc, lengths, files) {
        Ok(given) => put_answer(alloc, collate_run(alloc, document, &given), numbers, text),
        Err(outcome) => outcome,
    }
}

/// Runs `project`, as [`project_run`] does, on files that lie one after another in one text.
pub fn project_into(
    alloc: Global,
    document: &[u8],
    lengths: &[usize],
    files: &[u8],
    numbers: &mut [usize],
    text: &mut [u8],
) -> Outcome
    ensures { Puts (IsCut lengths.now files.now) (λ reply. OfCut lengths.now files.now
        (λ given. Replies (Over given (ProjectRun document.now)) reply))
        numbers.old text.old numbers.new text.new result }
{
    match files_of(alloc, lengths, files) {
        Ok(given) => put_answer(alloc, project_run(alloc, document, &given), numbers, text),
        Err(outcome) => outcome,
    }
}

/// Writes the reply of a command that has this answer.
fn put_answer(
    alloc: Global,
    answer: Result<Answer, AllocError>,
    numbers: &mut [usize],
    text: &mut [u8],
) -> Outcome
    ensures { Puts ⊤ (HasAnswer answer) numbers.old text.old numbers.new text.new result }
{
    match answer {
        Ok(answer) => put(Reply::of(alloc, &answer), numbers, text),
        Err(AllocError) => Outcome::without(4),
    }
}

/// Returns the files of a text in which they lie one after another, the name of each before its
/// bytes, and whose parts have these lengths.
///
/// # Errors
///
/// Returns the outcome 5 if the lengths do not cut the text, or a name is not UTF-8, whether or not
/// there is memory for the files. Otherwise returns the outcome 4 if an allocation fails.
fn files_of<'a>(alloc: Global, lengths: &[usize], text: &'a [u8]) -> Result<Vec<File<'a>>, Outcome>
    ensures files { IfOk result (λ files. AreCut lengths.now text.now files.items) }
    ensures outcome { IfErr result (λ outcome.
        (IsCut lengths.now text.now × (outcome ≡ without 4))
        ⊎ ((IsCut lengths.now text.now → ⊥) × (outcome ≡ without 5))) }
{
    let mut files = Vec::new(alloc);
    let mut stored = true;
    let mut left = lengths;
    let mut rest = text;
    while let Some((file, more, after)) = first_file(left, rest) {
        stored &= files.push(file).is_ok();
        left = more;
        rest = after;
    }
    if !left.is_empty() || !rest.is_empty() {
        return Err(Outcome::without(5));
    }
    if !stored {
        return Err(Outcome::without(4));
    }
    Ok(files)
}

/// Returns the first file of a text whose parts have these lengths, and the lengths and the text
/// after it.
fn first_file<'a, 'l>(
    lengths: &'l [usize],
    text: &'a [u8],
) -> Option<(File<'a>, &'l [usize], &'a [u8])>
    ensures some { IfSome result (λ first.
        BeginsWithFile lengths.now text.now first.0 first.1.now first.2.now) }
    ensures none { IfNone result ((file : GivenFile) (more : Numbers) (after : Bytes) →
        BeginsWithFile lengths.now text.now file more after → ⊥) }
{
    let [name_len, bytes_len, more @ ..] = lengths else {
        return None;
    };
    let (name, others) = text.split_at_checked(*name_len)?;
    let (bytes, after) = others.split_at_checked(*bytes_len)?;
    let name = str::from_utf8(name).ok()?;
    Some((File { name, bytes }, more, after))
}
