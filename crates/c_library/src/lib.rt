//! The C library `libdyncollate`: the commands of `dyncollate`, and a reader of dyndep files, for
//! programs in any language that have their files in memory.
//!
//! Each export is the function of `in_memory` that it calls, with its clause. It uses nothing else,
//! and of the system `malloc`, `realloc` and `free`.
#![tactic(auto)]

ghost use Rattle.std.specs.Prelude.{◌≡◌};
ghost use Rattle.in_memory.specs.Prelude.{[], IsUtf8, ⊤, IsCut, OfCut, Over, OneRun};
ghost use Rattle.in_memory.specs.Prelude.{CollateRun, ProjectRun, EffectRun, OrderRun, ShowRun};
ghost use Rattle.in_memory.specs.Prelude.{Puts, Replies, Tells};

use in_memory::{
    Outcome, collate_into, effect_into, one_into, order_into, project_into, show_into,
    statements_into,
};
use std::alloc::Global;

/// Runs `collate` on a target document, and on files that lie one after another in one text.
#[unsafe(no_mangle)]
pub extern "C" fn dyncollate_collate(
    alloc: Global,
    document: &[u8],
    lengths: &[usize],
    files: &[u8],
    numbers: &mut [usize],
    text: &mut [u8],
) -> Outcome
    ensures { Puts (IsCut lengths.now files.now) (λ reply. OfCut lengths.now files.now
        (λ given. Replies (Over given (CollateRun document.now)) reply))
        numbers.old text.old numbers.new text.new result }
{
    collate_into(alloc, document, lengths, files, numbers, text)
}

/// Runs `project` on a project document, and on files that lie one after another in one text.
#[unsafe(no_mangle)]
pub extern "C" fn dyncollate_project(
    alloc: Global,
    document: &[u8],
    lengths: &[usize],
    files: &[u8],
    numbers: &mut [usize],
    text: &mut [u8],
) -> Outcome
    ensures { Puts (IsCut lengths.now files.now) (λ reply. OfCut lengths.now files.now
        (λ given. Replies (Over given (ProjectRun document.now)) reply))
        numbers.old text.old numbers.new text.new result }
{
    project_into(alloc, document, lengths, files, numbers, text)
}

/// Runs `one` on a scan document.
#[unsafe(no_mangle)]
pub extern "C" fn dyncollate_one(
    alloc: Global,
    scan: &[u8],
    dir: &[u8],
    ext: &[u8],
    numbers: &mut [usize],
    text: &mut [u8],
) -> Outcome
    ensures { Puts (IsUtf8 dir.now × IsUtf8 ext.now) (Replies (OneRun scan.now dir.now ext.now []))
        numbers.old text.old numbers.new text.new result }
{
    one_into(alloc, scan, dir, ext, numbers, text)
}

/// Runs `effect` on a name, an edge list and a dyndep file.
#[unsafe(no_mangle)]
pub extern "C" fn dyncollate_effect(
    alloc: Global,
    name: &[u8],
    edges: &[u8],
    dyndep: &[u8],
    numbers: &mut [usize],
    text: &mut [u8],
) -> Outcome
    ensures { Puts (IsUtf8 name.now) (Replies (EffectRun name.now edges.now dyndep.now []))
        numbers.old text.old numbers.new text.new result }
{
    effect_into(alloc, name, edges, dyndep, numbers, text)
}

/// Runs `order` on an edge list.
#[unsafe(no_mangle)]
pub extern "C" fn dyncollate_order(
    alloc: Global,
    edges: &[u8],
    numbers: &mut [usize],
    text: &mut [u8],
) -> Outcome
    ensures { Puts ⊤ (Replies (OrderRun edges.now []))
        numbers.old text.old numbers.new text.new result }
{
    order_into(alloc, edges, numbers, text)
}

/// Runs `show` on a dyndep file.
#[unsafe(no_mangle)]
pub extern "C" fn dyncollate_show(
    alloc: Global,
    dyndep: &[u8],
    numbers: &mut [usize],
    text: &mut [u8],
) -> Outcome
    ensures { Puts ⊤ (Replies (ShowRun dyndep.now []))
        numbers.old text.old numbers.new text.new result }
{
    show_into(alloc, dyndep, numbers, text)
}

/// Reads the statements of a dyndep file.
#[unsafe(no_mangle)]
pub extern "C" fn dyncollate_statements(
    alloc: Global,
    dyndep: &[u8],
    numbers: &mut [usize],
    text: &mut [u8],
) -> Outcome
    ensures { Puts ⊤ (Tells dyndep.now) numbers.old text.old numbers.new text.new result }
{
    statements_into(alloc, dyndep, numbers, text)
}

/// Returns the version of the library: 10000 times the major version, 100 times the minor one, and
/// the patch, as `DYNCOLLATE_VERSION` in the header.
#[unsafe(no_mangle)]
pub extern "C" fn dyncollate_version() -> u32
    ensures { result ≡ 10200 }
{
    10200
}
