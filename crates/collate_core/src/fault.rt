//! Why a target does not collate, and why a dyndep text has no effect on a graph.
ghost use Rattle.std.specs.Prelude.{◌≡◌, IfSome, MatchResult, Err, Ok};
ghost use Rattle.collate_core.specs.Prelude.{Turns};

use build_effect::EffectFault;
use document_values::{Info, Rule};
use dyndep_file::ReadFault;
use module_maps::UnwritableMap;
use module_table::TableFault;
use ninja_text::Failure;
use scan_docs::DocFault;
use std::alloc::{AllocError, Global};
use thiserror::Error;

/// Why a target does not collate. If several apply, the first in this order is reported, and the
/// one with the lowest index if they are of one kind.
#[derive(Debug, Drop, Error)]
pub enum Refusal {
    /// The scan document of this index has a fault, or too many rules with those before (S1 to S8).
    #[error("scan {index}: {fault}")]
    Scan { index: usize, fault: DocFault },
    /// The info document of this index has a fault (S1 to S8).
    #[error("info {index}: {fault}")]
    Info { index: usize, fault: DocFault },
    /// The table of the documents has a fault (M1 to M10).
    #[error(transparent)]
    Table { fault: TableFault },
    /// The build line of this object's statement is too long (Y2).
    #[error("Y2 StatementTooLong statement {statement}")]
    StatementTooLong { statement: usize },
    /// The map of this object does not fit the style (K1, K2).
    #[error("object {object}: {fault}")]
    Map { object: usize, fault: UnwritableMap },
    /// A target of a project links one that is not earlier (K3).
    #[error("K3 LinkedLater")]
    LinkedLater,
}

/// Why a target does not collate, and what was read of it. A rejection has indexes of these lists.
/// If documents are listed again, which is M1 or M2, the lists may end after a repetition.
#[derive(Drop)]
pub struct RefusedTarget {
    pub refusal: Refusal,
    /// The rules of all scan documents, if the fault is one of the table or of a map.
    pub objects: Vec<Rule>,
    /// The info files of the targets that it links, if the fault is one of the table or of a map.
    pub infos: Vec<Info>,
}

/// Returns the rejection with empty lists, if its fault is neither of the table nor of a map.
pub(crate) fn without_table(alloc: Global, refusal: Refusal) -> RefusedTarget
    ensures { result.refusal ≡ refusal }
{
    RefusedTarget {
        refusal,
        objects: Vec::new(alloc),
        infos: Vec::new(alloc),
    }
}

/// Adds empty lists to a failure whose fault is neither of the table nor of a map.
pub(crate) fn nothing_read(alloc: Global, failure: Failure<Refusal>) -> Failure<RefusedTarget>
    ensures { Turns (λ refusal refused. refused.refusal ≡ refusal) failure result }
{
    failure.map(|refusal| without_table(alloc, refusal))
}

/// Returns the failure without what was read.
pub(crate) fn refusal_alone(failure: Failure<RefusedTarget>) -> Failure<Refusal>
    ensures { Turns (λ refused refusal. refusal ≡ refused.refusal) failure result }
{
    failure.map(|refused| refused.refusal)
}

/// Returns the value, or `None` if there is a fault. Fails only if memory ran out before.
pub(crate) fn unless_faulty<T: Drop, F: Drop>(
    outcome: Result<T, Failure<F>>,
) -> Result<Option<T>, AllocError>
    ensures { MatchResult result (λ found. IfSome found (λ value. outcome ≡ Ok value))
        (λ _. outcome ≡ Err Failure.Memory) }
{
    match outcome {
        Ok(value) => Ok(Some(value)),
        Err(Failure::Memory) => Err(AllocError),
        Err(Failure::Fault(_)) => Ok(None),
    }
}

/// Why a dyndep text has no effect on a graph.
#[derive(Debug, Drop, Error)]
pub enum RehearseFault {
    /// The text is not a dyndep file.
    #[error(transparent)]
    Read(ReadFault),
    /// Its statements have no effect on the graph.
    #[error(transparent)]
    Effect(EffectFault),
}
