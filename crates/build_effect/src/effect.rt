//! The effect of a dyndep file: which statement is on which edge, and what the statements add.
ghost use Rattle.std.specs.Prelude.{◌≡◌, ◌<◌, ◌≤◌, ◌≢◌, ◌++◌, ℕ, [], length, IfOk, IfErr, OnOk};
ghost use Rattle.build_effect.specs.Prelude.{All, OnlyEffect, AreExtended, AreEdgesOf, EffectFault};
ghost use Rattle.build_effect.specs.Prelude.{MatchBool, AreCanonical, IsBadTextFrom, NoneMadeTwice};
ghost use Rattle.build_effect.specs.Prelude.{Some, IsBadStatement, IsFirstUnbound, IsFirstRepeated};
ghost use Rattle.build_effect.specs.Prelude.{ForFault, ArePaths, Names, MadeOnce, AreInverse};
ghost use Rattle.build_effect.specs.Prelude.{StatementValue, IsFirstAddedTwice, IsFirstUnmentioned};
ghost use Rattle.build_effect.specs.Prelude.{HasNoEffect, addition_of, added_files, statement_on};
ghost use Rattle.build_effect.specs.Prelude.{added_outputs, IsEffectFault, AreMade, HaveStatements};

use crate::fault::EffectFault;
use crate::graph::{Edge, Graph, MadeFiles, Makers, first_output};
use crate::laws;
use crate::strings::SharedStrings;
use dyndep_file::{Dyndep, Statement};
use ninja_text::{Failure, Path};
use std::alloc::{AllocError, Global};
use std::marker::Model;

/// Returns the graph after the effect of the dyndep file `name`, which holds these statements
/// (Ninja 1.11 manual, "Dynamic dependencies").
///
/// Each edge that names the file has exactly one statement, whose output is one that the edge
/// makes. The statement's implicit outputs and inputs are appended to those of the edge, and
/// `restat` is on if it was on or the statement turns it on. All other edges stay as they are.
///
/// # Errors
///
/// The checks are made in this order, and the first error is reported:
///
/// - E8 `BadPath`: a path of a statement is not valid.
/// - E5 `NotBound`: no edge makes the statement's output and names the file.
/// - E4 `StatementTwice`: an earlier statement is on the same edge.
/// - E6 `NotMentioned`: an edge names the file, and no statement is on it.
/// - E7 `AddedTwice`: an edge already makes an added output, or it was added before.
///
/// `Memory` is reported if an allocation fails.
pub fn apply(
    alloc: Global,
    graph: &Graph,
    name: &Path,
    dyndep: &Dyndep,
) -> Result<Graph, Failure<EffectFault>>
    ensures effect { IfOk result (OnlyEffect graph.now name.now dyndep.now) }
    ensures fault { IfErr result (ForFault (IsEffectFault graph.now name.now dyndep.now)) }
    ensures no_effect { IfErr result (ForFault {F = EffectFault}
        (λ _. HasNoEffect graph.now name.now dyndep.now)) }
{
    laws::statements_have_an_effect_or_a_fault();
    let old = graph.edges();
    let makers = graph.makers();
    let canonical = canonical_statements(alloc, &dyndep.statements)?;
    let additions = canonical.as_slice();
    let edge_of = edges_of_statements(alloc, old, name, makers, additions)?;
    let statement_of = statements_of_edges(alloc, old.len(), &edge_of, additions)?;
    check_mentioned(alloc, old, name, &statement_of)?;
    let makers = added_makers(alloc, makers, additions, &edge_of)?;
    let edges = extended_edges(alloc, old, additions, &statement_of)?;
    Ok(Graph { edges, makers })
}

pub(crate) type Checked<T> = Result<T, Failure<EffectFault>>;

/// Returns the edge of each statement, which makes its output and names the file, or E5. No file is
/// made twice, so only the edge that makes the output can be the one.
pub(crate) fn edges_of_statements(
    alloc: Global,
    edges: &[Edge],
    name: &Path,
    makers: &Makers,
    additions: &[Addition],
) -> Checked<Vec<usize>>
    requires makers { AreMade edges.now makers.now }
    requires made_once { MadeOnce edges.now }
    ensures edges { IfOk result (λ edge_of.
        AreEdgesOf edges.now name.now additions.now edge_of.items) }
    ensures fault { IfErr result (ForFault (IsFirstUnbound edges.now name.now additions.now)) }
{
    let mut edge_of = Vec::with_capacity(alloc, additions.len())?;
    for addition in additions {
        match makers.maker_of(addition.output()) {
            Some(edge) if names(&edges[edge], name) => edge_of.push(edge)?,
            _ => {
                let output = addition.output().copy(alloc)?;
                return Err(Failure::Fault(EffectFault::NotBound { output }));
            }
        }
    }
    Ok(edge_of)
}

fn names(edge: &Edge, name: &Path) -> bool
    ensures { MatchBool result (Names name.now edge.now) (Names name.now edge.now → ⊥) }
{
    edge.dyndep.as_ref().is_some_and(|file| *file == *name)
}

/// Returns the statement on each edge, given the edge of each statement, or E4 for the first
/// statement on the edge of an earlier one.
pub(crate) fn statements_of_edges(
    alloc: Global,
    count: usize,
    edge_of: &[usize],
    additions: &[Addition],
) -> Checked<Vec<Option<usize>>>
    requires edges { All (λ edge. edge < count) edge_of.now }
    requires each { length edge_of.now ≡ length additions.now }
    ensures statements { IfOk result (λ statement_of.
        AreInverse count edge_of.now statement_of.items) }
    ensures fault { IfErr result (ForFault (IsFirstRepeated edge_of.now additions.now)) }
{
    let mut statement_of: Vec<Option<usize>> = vec![in alloc; None; count]?;
    for (statement_index, edge) in edge_of.iter().enumerate() {
        if statement_of[*edge].is_some() {
            let addition = &additions[statement_index];
            let output = addition.output().copy(alloc)?;
            return Err(Failure::Fault(EffectFault::StatementTwice { output }));
        }
        statement_of[*edge] = Some(statement_index);
    }
    Ok(statement_of)
}

/// Checks that each edge that names the file has a statement (E6).
fn check_mentioned(
    alloc: Global,
    edges: &[Edge],
    name: &Path,
    statement_of: &[Option<usize>],
) -> Checked<()>
    requires outputs { All (λ e. e.outputs ≢ []) edges.now }
    requires each { length statement_of.now ≡ length edges.now }
    ensures ok { OnOk result (HaveStatements edges.now name.now statement_of.now) }
    ensures fault { IfErr result (ForFault
        (IsFirstUnmentioned edges.now name.now statement_of.now)) }
{
    for (edge_index, edge) in edges.iter().enumerate() {
        if statement_of[edge_index].is_none() && names(edge, name) {
            let output = first_output(alloc, edge)?;
            return Err(Failure::Fault(EffectFault::NotMentioned { output }));
        }
    }
    Ok(())
}

/// A statement of a dyndep file with its paths made canonical.
#[derive(Drop)]
pub(crate) struct Addition {
    /// The output, then the implicit outputs, then the implicit inputs.
    paths: Vec<Path>,
    /// How many paths there are up to the end of the implicit outputs.
    outputs: usize,
    restat: bool,
}

impl Model for Addition {
    ghost Value = { StatementValue };

    ghost view = { λ a. addition_of a.paths.items a.outputs a.restat };

    ghost invariant = { λ a. (1 ≤ a.outputs) × (a.outputs ≤ length a.paths.items) };
}

impl Addition {
    fn output(&self) -> &Path
        ensures { result.now ≡ self.now.output }
    {
        &self.paths[0]
    }

    fn implicit_outputs(&self) -> &[Path]
        ensures { result.now ≡ self.now.implicit_outputs }
    {
        &self.paths[1..self.outputs]
    }

    fn implicit_inputs(&self) -> &[Path]
        ensures { result.now ≡ self.now.implicit_inputs }
    {
        &self.paths[self.outputs..]
    }
}

/// Returns the statements with canonical paths, or E8 for the first string that is not a valid
/// path. The paths of a statement share one text.
pub(crate) fn canonical_statements(
    alloc: Global,
    statements: &[Statement],
) -> Checked<Vec<Addition>>
    ensures canonical { IfOk result (λ additions. AreCanonical statements.now additions.items) }
    ensures fault { IfErr result (ForFault (IsBadStatement statements.now)) }
{
    let mut additions = Vec::with_capacity(alloc, statements.len())?;
    for (index, statement) in statements.iter().enumerate() {
        let strings = SharedStrings::of(alloc, statement)?;
        let paths = canonical_paths(alloc, &strings, index)?;
        additions.push(Addition {
            paths,
            outputs: 1 + statement.implicit_outputs.len(),
            restat: statement.restat,
        })?;
    }
    Ok(additions)
}

/// Returns the canonical paths of the strings of the statement with this index.
fn canonical_paths(alloc: Global, strings: &SharedStrings, statement: usize) -> Checked<Vec<Path>>
    ensures paths { IfOk result (λ paths. ArePaths strings.now paths.items) }
    ensures fault { IfErr result (ForFault (IsBadTextFrom strings.now statement 0)) }
{
    let count = strings.len();
    let mut paths = Vec::with_capacity(alloc, count)?;
    for path in 0..count {
        match strings.path(alloc, path) {
            Ok(canonical) => paths.push(canonical)?,
            Err(Failure::Memory) => return Err(Failure::Memory),
            Err(Failure::Fault(fault)) => {
                return Err(Failure::Fault(EffectFault::BadPath {
                    statement,
                    path,
                    fault,
                }));
            }
        }
    }
    Ok(paths)
}

/// Returns the makers with the added outputs, each on the edge of its statement, or E7 if an edge
/// makes one already or it was added before.
pub(crate) fn added_makers(
    alloc: Global,
    makers: &Makers,
    additions: &[Addition],
    edge_of: &[usize],
) -> Checked<Makers>
    requires each { length edge_of.now ≡ length additions.now }
    ensures makers { IfOk result (λ new.
        new ≡ makers.now ++ added_files edge_of.now additions.now) }
    ensures once { OnOk result (NoneMadeTwice makers.now (added_outputs additions.now)) }
    ensures fault { IfErr result (ForFault (IsFirstAddedTwice makers.now additions.now)) }
{
    let mut files = MadeFiles::new(alloc);
    for (index, addition) in additions.iter().enumerate() {
        files.push(addition.implicit_outputs(), edge_of[index])?;
    }
    match makers.with(alloc, files) {
        Ok(makers) => Ok(makers),
        Err(failure) => Err(failure.map(|path| EffectFault::AddedTwice { path })),
    }
}

/// Returns the edges, each with what the statement on it adds.
pub(crate) fn extended_edges(
    alloc: Global,
    edges: &[Edge],
    additions: &[Addition],
    statement_of: &[Option<usize>],
) -> Result<Vec<Edge>, AllocError>
    requires each { length statement_of.now ≡ length edges.now }
    requires within { (i k : ℕ) → statement_on statement_of.now i ≡ Some k →
        k < length additions.now }
    ensures { IfOk result (λ new. AreExtended edges.now additions.now statement_of.now new.items) }
{
    let mut new = Vec::with_capacity(alloc, edges.len())?;
    for (edge_index, edge) in edges.iter().enumerate() {
        let mut after = edge.clone()?;
        if let Some(statement_index) = statement_of[edge_index] {
            let addition = &additions[statement_index];
            let outputs = &mut after.implicit_outputs;
            outputs.extend_from_slice(addition.implicit_outputs())?;
            let inputs = &mut after.implicit_inputs;
            inputs.extend_from_slice(addition.implicit_inputs())?;
            after.restat |= addition.restat;
        }
        new.push(after)?;
    }
    Ok(new)
}
