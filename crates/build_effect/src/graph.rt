//! Build edges and their graphs, the order of edges, the text of a graph, and the makers of files.
ghost use Rattle.std.specs.Prelude.{◌≡◌, ◌≢◌, ◌++◌, List, [], map, length, IfOk, IfErr, OnOk, All};
ghost use Rattle.build_effect.specs.Prelude.{slice_get, listing_text_or_fault, LeavesListingWriter};
ghost use Rattle.build_effect.specs.Prelude.{MatchResult, IsSortingOf, listing_text, IsFirstTwice};
ghost use Rattle.build_effect.specs.Prelude.{MatchBool, HasAdded, IsWritten, EdgeValue, entries_of};
ghost use Rattle.build_effect.specs.Prelude.{Some, held, spaced, Made};
ghost use Rattle.build_effect.specs.Prelude.{flat_map, IsGraphFault, AnswersTooLong, NoneMadeTwice};
ghost use Rattle.build_effect.specs.Prelude.{Gives, MadeOnce, IsGraph, files_of, maker_in, AreMade};
ghost use Rattle.build_effect.specs.Prelude.{ForFault, EdgeNeeds, edge_line, tables_of, HasItsKey};
ghost use Rattle.build_effect.specs.Prelude.{NamesUnread, marked_text, NamesInput, seen_files};
ghost use Rattle.build_effect.specs.Prelude.{DyndepsAreInputs, first_too_long, WritesListingInTurn};

use crate::fault::{GraphFault, ListingWriteFault};
use dep_order::{Digraph, Sorting, order};
use indexmap::IndexMap;
use ninja_text::{Counted, Failure, LINE_LIMIT, Path, Stopped, WriteCall, escape_into};
use std::alloc::{AllocError, Global};
use std::marker::Model;
use std::rc::Rc;
use table_keys::{KeyDigest, TableKey};

/// A build statement of a manifest: the files that it makes and the files that it needs (Ninja 1.11
/// manual, "Build statements").
#[derive(Clone, Drop)]
pub struct Edge {
    /// The name of the rule.
    pub rule: Vec<u8>,
    /// The explicit outputs.
    pub outputs: Vec<Path>,
    /// The implicit outputs, after `|` on the left of the colon.
    pub implicit_outputs: Vec<Path>,
    /// The explicit inputs.
    pub inputs: Vec<Path>,
    /// The implicit inputs, after `|` on the right of the colon.
    pub implicit_inputs: Vec<Path>,
    /// The order-only inputs, after `||`.
    pub order_only: Vec<Path>,
    /// The dyndep file that the binding `dyndep` names.
    pub dyndep: Option<Path>,
    /// Whether the binding `restat` is on.
    pub restat: bool,
}

impl Model for Edge {
    ghost Value = { EdgeValue };

    ghost view = { λ e. record {
      rule = e.rule.items;
      outputs = e.outputs.items;
      implicit_outputs = e.implicit_outputs.items;
      inputs = e.inputs.items;
      implicit_inputs = e.implicit_inputs.items;
      order_only = e.order_only.items;
      dyndep = e.dyndep;
      restat = e.restat;
    } };
}

/// Build edges, by index. Each edge has an explicit output, no file is made twice, and each edge
/// that names a dyndep file has it among its inputs.
pub struct Graph {
    pub(crate) makers: Makers,
    pub(crate) edges: Vec<Edge>,
}

// Not derived: this saves the prover time (docs/DECISIONS.md, "Code").
impl Drop for Graph {
    fn drop(self) {
        let Graph {
            makers: _,
            edges: _,
        } = self;
    }
}

impl Model for Graph {
    ghost Value = { List EdgeValue };

    ghost view = { λ g. g.edges.items };

    ghost invariant = { λ g. IsGraph g.edges.items × AreMade g.edges.items g.makers };
}

impl Graph {
    /// Returns the graph of these edges. Each edge must have an explicit output: Ninja has no build
    /// statement without one (Ninja 1.11 manual, "Build statements").
    ///
    /// # Errors
    ///
    /// - E1 `ProducedTwice`: a file is made twice. The first file that is made again is reported.
    ///   Edges are searched in order, and in each edge the outputs before the implicit outputs.
    /// - E2 `DyndepNotInput`: otherwise, an edge names a dyndep file that is not among its inputs
    ///   of any kind ("Dynamic dependencies"). The first such edge is reported.
    /// - `Memory`: an allocation fails.
    ///
    /// The edges are dropped after an error.
    pub fn new(alloc: Global, edges: Vec<Edge>) -> Result<Graph, Failure<GraphFault>>
        requires { All (λ e. e.outputs ≢ []) edges.items }
        ensures graph { IfOk result (λ graph. graph ≡ edges.items) }
        ensures fault { IfErr result (ForFault (IsGraphFault edges.items)) }
    {
        let makers = makers_of(alloc, edges.as_slice())?;
        check_dyndeps(alloc, edges.as_slice())?;
        Ok(Graph { edges, makers })
    }

    /// Returns the edges, by index.
    pub fn edges(&self) -> &[Edge]
        ensures edges { result.now ≡ self.now }
        ensures graph { IsGraph self.now }
    {
        &self.edges
    }

    /// Returns the edge that makes each file.
    pub(crate) fn makers(&self) -> &Makers
        ensures { AreMade self.now result.now }
    {
        &self.makers
    }
}

/// Returns the edge that makes each file, or E1 if a file is made twice. The files are taken edge
/// after edge: outputs, then implicit outputs.
fn makers_of(alloc: Global, edges: &[Edge]) -> Result<Makers, Failure<GraphFault>>
    ensures makers { IfOk result (AreMade edges.now) }
    ensures once { OnOk result (MadeOnce edges.now) }
    ensures fault { IfErr result (ForFault (IsGraphFault edges.now)) }
{
    let mut files = MadeFiles::new(alloc);
    for (index, edge) in edges.iter().enumerate() {
        files.push(&edge.outputs, index)?;
        files.push(&edge.implicit_outputs, index)?;
    }
    match Makers::new(alloc).with(alloc, files) {
        Ok(makers) => Ok(makers),
        Err(failure) => Err(failure.map(|path| GraphFault::ProducedTwice { path })),
    }
}

/// Checks that each edge that names a dyndep file has it among its inputs (E2).
fn check_dyndeps(alloc: Global, edges: &[Edge]) -> Result<(), Failure<GraphFault>>
    requires outputs { All (λ e. e.outputs ≢ []) edges.now }
    requires made_once { MadeOnce edges.now }
    ensures ok { OnOk result (DyndepsAreInputs edges.now) }
    ensures fault { IfErr result (ForFault (IsGraphFault edges.now)) }
{
    let Some(edge) = edges.iter().position(|edge| !reads_dyndep(edge)) else {
        return Ok(());
    };
    let output = first_output(alloc, &edges[edge])?;
    Err(Failure::Fault(GraphFault::DyndepNotInput { edge, output }))
}

/// Returns whether the dyndep file of the edge, if it names one, is among its inputs of any kind.
fn reads_dyndep(edge: &Edge) -> bool
    ensures { MatchBool result (NamesInput edge.now) (NamesUnread edge.now) }
{
    let Some(file) = &edge.dyndep else {
        return true;
    };
    let written = edge.inputs.iter().chain(edge.implicit_inputs.iter());
    let mut inputs = written.chain(edge.order_only.iter());
    inputs.any(|input| *input == *file)
}

/// Returns the edge's first output. Errors about an edge report this path.
pub(crate) fn first_output(alloc: Global, edge: &Edge) -> Result<Path, AllocError>
    requires { edge.now.outputs ≢ [] }
    ensures { IfOk result (λ output. slice_get edge.now.outputs 0 ≡ Some output) }
{
    edge.outputs[0].copy(alloc)
}

/// Returns the indexes of all edges in an order in which they can run. Each edge comes after the
/// edges that produce its inputs of all kinds, and the smallest index that may come next does.
///
/// If there is no such order, returns the least cycle: each edge in it needs the next one, and the
/// last edge needs the first.
pub fn edge_order(alloc: Global, graph: &Graph) -> Result<Sorting, AllocError>
    ensures { IfOk result (IsSortingOf (length graph.now) (EdgeNeeds graph.now)) }
{
    let edges = graph.edges();
    let makers = graph.makers();
    let mut needs = Vec::with_capacity(alloc, edges.len())?;
    for edge in edges {
        let named = edge.inputs.iter().chain(edge.implicit_inputs.iter());
        let inputs = named.chain(edge.order_only.iter());
        // A source file has no such edge.
        let row = inputs.filter_map(|file| makers.maker_of(file));
        needs.push(row.collect(alloc)?)?;
    }
    let digraph = Digraph::new(needs);
    order(alloc, &digraph)
}

impl Graph {
    /// Returns the edges as an edge listing (Ninja 1.11 manual, "Build statements"): for each edge
    /// its build line, and then its bindings `dyndep` and `restat`. Paths are escaped.
    ///
    /// # Errors
    ///
    /// - E9 `ListingTooLong`: a build line has more than 1,048,576 bytes, its end included. The
    ///   first such edge is reported.
    /// - `Memory`: an allocation fails.
    pub fn to_text(&self, alloc: Global) -> Result<Vec<u8>, Failure<ListingWriteFault>>
        ensures { Gives (λ text. text.items) result (listing_text_or_fault self.now) }
    {
        let mut text = Vec::new(alloc);
        for (edge_index, edge) in self.edges().iter().enumerate() {
            let start = text.len();
            push_line(&mut text, edge)?;
            if text.len() - start > LINE_LIMIT {
                return Err(Failure::Fault(ListingWriteFault::ListingTooLong { edge: edge_index }));
            }
            if let Some(path) = &edge.dyndep {
                text.extend_from_slice(b"  dyndep = ")?;
                escape_into(path.bytes(), &mut text)?;
                text.extend_from_slice(b"\n")?;
            }
            if edge.restat {
                text.extend_from_slice(b"  restat = 1\n")?;
            }
        }
        Ok(text)
    }
}

/// Writes the edges of a graph as an edge listing, as [`Graph::to_text`] returns it. After E9
/// `ListingTooLong` and `Memory`, as there, nothing was written. Y3 `Io`: the writer failed, and
/// exactly `written` bytes went out before, from the beginning of the text.
pub fn listing_write<W: WriteCall>(
    alloc: Global,
    graph: &Graph,
    out: &mut Counted<W>,
) -> Result<(), Failure<ListingWriteFault>>
    ensures text { MatchResult result
        (λ _. IsWritten W.contents out.old out.new (listing_text graph.now))
        (λ failure. LeavesListingWriter W.contents out.old out.new (listing_text graph.now)
        failure) }
    ensures calls { WritesListingInTurn W.writes (held out.old) (held out.new)
        (listing_text graph.now) result }
    ensures fault { AnswersTooLong (first_too_long graph.now) result }
{
    let text = graph.to_text(alloc)?;
    match out.write_text(text.as_slice()) {
        Ok(()) => Ok(()),
        Err(Stopped { written }) => Err(Failure::Fault(ListingWriteFault::Io { written })),
    }
}

/// Appends the build line of an edge.
fn push_line(text: &mut Vec<u8>, edge: &Edge) -> Result<(), AllocError>
    ensures { OnOk result (text.new.items ≡ text.old.items ++ edge_line edge.now) }
{
    text.extend_from_slice(b"build")?;
    push_spaced(text, &edge.outputs)?;
    push_part(text, b" |", &edge.implicit_outputs)?;
    text.extend_from_slice(b": ")?;
    text.extend_from_slice(&edge.rule)?;
    push_spaced(text, &edge.inputs)?;
    push_part(text, b" |", &edge.implicit_inputs)?;
    push_part(text, b" ||", &edge.order_only)?;
    text.extend_from_slice(b"\n")
}

/// Appends the mark and each path after a space, if there are paths.
fn push_part(text: &mut Vec<u8>, mark: &[u8], paths: &[Path]) -> Result<(), AllocError>
    ensures { OnOk result (text.new.items ≡ text.old.items ++ marked_text mark.now paths.now) }
{
    if paths.is_empty() {
        return Ok(());
    }
    text.extend_from_slice(mark)?;
    push_spaced(text, paths)
}

/// Appends each path after a space.
fn push_spaced(text: &mut Vec<u8>, paths: &[Path]) -> Result<(), AllocError>
    ensures { OnOk result (text.new.items ≡ text.old.items ++ flat_map spaced paths.now) }
{
    for path in paths {
        text.extend_from_slice(b" ")?;
        escape_into(path.bytes(), text)?;
    }
    Ok(())
}

/// The edge that makes each file, by the edge's index.
///
/// The files of the edges that were listed have a table, and so have the files that each dyndep
/// file adds. Graphs share the tables. The key of a table is made of exactly the files in it.
#[derive(Drop)]
pub(crate) struct Makers {
    tables: Vec<Rc<IndexMap<Path, usize, TableKey>>>,
}

impl Model for Makers {
    ghost Value = { Made };

    ghost view = { λ m. entries_of (tables_of m.tables.items) };

    ghost invariant = { λ m. All HasItsKey (tables_of m.tables.items) };
}

impl Makers {
    /// Returns the makers of no files.
    pub(crate) fn new(alloc: Global) -> Makers
        ensures { result ≡ [] }
    {
        Makers {
            tables: Vec::new(alloc),
        }
    }

    /// Returns the index of the edge that makes the file.
    pub(crate) fn maker_of(&self, file: &Path) -> Option<usize>
        ensures { result ≡ maker_in self.now file.now }
    {
        for table in &self.tables {
            if let Some(edge) = table.get(file).copied() {
                return Some(edge);
            }
        }
        None
    }

    /// Returns the makers with these files, or the first of them that has a maker or comes again.
    pub(crate) fn with(&self, alloc: Global, files: MadeFiles<'_>) -> Result<Makers, Failure<Path>>
        ensures makers { IfOk result (λ makers. makers ≡ self.now ++ files.entry) }
        ensures once { OnOk result (NoneMadeTwice self.now (files_of files.entry)) }
        ensures twice { IfErr result (ForFault (IsFirstTwice self.now (files_of files.entry))) }
    {
        let MadeFiles { files, digest } = files;
        let mut table = IndexMap::with_capacity_and_hasher(alloc, files.len(), digest.key())?;
        for (file, edge) in &files {
            let is_made = self.maker_of(*file).is_some();
            let earlier = table.insert(file.copy(alloc)?, *edge)?;
            if is_made || earlier.is_some() {
                return Err(Failure::Fault(file.copy(alloc)?));
            }
        }
        let mut tables = self.tables.clone()?;
        tables.push(Rc::new(alloc, table)?)?;
        Ok(Makers { tables })
    }
}

/// Files, each with the index of the edge that makes it, and the digest of exactly these files.
#[derive(Drop)]
pub(crate) struct MadeFiles<'t> {
    files: Vec<(&'t Path, usize)>,
    digest: KeyDigest,
}

impl<'t> Model for MadeFiles<'t> {
    ghost Value = { Made };

    ghost view = { λ m. seen_files m.files.items };

    ghost invariant = { λ m. HasAdded m.digest (files_of (seen_files m.files.items)) };
}

impl<'t> MadeFiles<'t> {
    /// Returns no files.
    pub(crate) fn new(alloc: Global) -> MadeFiles<'t>
        ensures { result ≡ [] }
    {
        MadeFiles {
            files: Vec::new(alloc),
            digest: KeyDigest::new(),
        }
    }

    /// Appends the files, each with the edge.
    pub(crate) fn push(&mut self, files: &'t [Path], edge: usize) -> Result<(), AllocError>
        ensures { OnOk result (self.new ≡ self.old ++ map (λ file. (file, edge)) files.now) }
    {
        for file in files {
            self.files.push((file, edge))?;
            self.digest.add(file.bytes());
        }
        Ok(())
    }
}
