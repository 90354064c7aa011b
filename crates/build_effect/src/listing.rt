//! Edge listings: the reader, and what each line does to the edges so far.
ghost use Rattle.std.specs.Prelude.{◌≡◌, ◌≢◌, ◌++◌, [], IfOk, IfErr, All, Err, Ok, Some};
ghost use Rattle.build_effect.specs.Prelude.{option_map, seen_assignment, Bytes, Gives, ForFault};
ghost use Rattle.build_effect.specs.Prelude.{seen_line, path_of, symbols_left, Failure, DyndepRow};
ghost use Rattle.build_effect.specs.Prelude.{ListingReaderState, HasReadListing, FeedsListing};
ghost use Rattle.build_effect.specs.Prelude.{line_failure, EndsListing, IsListingFault, Lists};
ghost use Rattle.build_effect.specs.Prelude.{ListingValue, TakesRow, edge_texts, binding_row};
ghost use Rattle.build_effect.specs.Prelude.{build_row, row_of, with_last_dyndep, with_last_restat};
ghost use Rattle.build_effect.specs.Prelude.{PassesLine, RefusesLine, fault_of_cutter, LineFault};

use crate::fault::{LineCause, LineFault, ListFault};
use crate::graph::{Edge, Graph};
use crate::strings::{edge_of, edge_texts};
use ninja_text::{
    Assignment, CutFault, Failure, Line, LineForm, LineReader, LineState, Path, PathFault,
    TokenKind, Words, line_form,
};
use std::alloc::Global;
use std::marker::Model;
use std::rc::RcSlice;

/// Reads an edge listing that comes in pieces: build lines with their bindings `dyndep` and
/// `restat` (Ninja 1.11 manual, "Build statements"), comments and blank lines.
///
/// A piece may end anywhere, also within a continuation or between CR and LF. The result is that of
/// the whole text.
#[derive(Drop)]
pub struct ListingReader {
    alloc: Global,
    lines: LineReader<ListingState, LineFault>,
}

impl Model for ListingReader {
    ghost Value = { ListingReaderState };

    ghost view = { λ r. r.lines };
}

impl ListingReader {
    /// Returns a reader that was fed nothing. It allocates nothing yet.
    pub fn new(alloc: Global) -> ListingReader
        ensures { HasReadListing [] result }
    {
        let state = ListingState {
            edges: Vec::new(alloc),
            binding: Binding::Closed,
        };
        ListingReader {
            alloc,
            lines: LineReader::new(alloc, state),
        }
    }

    /// Reads the next piece of the text, all of it.
    ///
    /// # Errors
    ///
    /// - E3, the first faulty line, is reported as soon as the line's end has been read. A line of
    ///   which 1,048,576 bytes hold no end is reported at once.
    /// - `Memory`: an allocation fails.
    ///
    /// After an error the reader returns the same error from then on.
    pub fn feed(&mut self, piece: &[u8]) -> Result<(), Failure<ListFault>>
        ensures failed { (failure : Failure LineFault) → self.old.failed ≡ Some failure →
            (result ≡ Err (line_failure failure)) × (self.new ≡ self.old) }
        // Whatever bytes it was fed before this piece.
        ensures all { (bytes : Bytes) → HasReadListing bytes self.old →
            FeedsListing (bytes ++ piece.now) result self.new }
    {
        match self.lines.feed(piece) {
            Ok(()) => Ok(()),
            Err(failure) => Err(failure.map(ListFault::AtLine)),
        }
    }

    /// Returns the graph of the edges listed, once all of the text was fed.
    ///
    /// # Errors
    ///
    /// - The error that `feed` reported, if it reported one.
    /// - E3 `Truncated`: otherwise, the last line has no end.
    /// - E1 or E2: otherwise, the edges listed are not a graph, as [`Graph::new`] reports it.
    /// - `Memory`: an allocation fails.
    pub fn finish(self) -> Result<Graph, Failure<ListFault>>
        ensures failed { (failure : Failure LineFault) → self.failed ≡ Some failure →
            result ≡ Err (line_failure failure) }
        ensures all { (bytes : Bytes) → HasReadListing bytes self → EndsListing bytes result }
    {
        let ListingReader { alloc, lines } = self;
        let edges = match lines.finish() {
            Ok(end) => end.0.edges,
            Err(failure) => return Err(failure.map(ListFault::AtLine)),
        };
        match Graph::new(alloc, edges) {
            Ok(graph) => Ok(graph),
            Err(failure) => Err(failure.map(ListFault::NoGraph)),
        }
    }
}

impl Graph {
    /// Returns the graph of the edges that a text lists, or E3, E1, E2 or `Memory`, as a
    /// [`ListingReader`] that is fed the text does.
    pub fn of(alloc: Global, text: &[u8]) -> Result<Graph, Failure<ListFault>>
        ensures graph { IfOk result (Lists text.now) }
        ensures fault { IfErr result (ForFault (IsListingFault text.now)) }
    {
        let mut reader = ListingReader::new(alloc);
        reader.feed(text)?;
        reader.finish()
    }
}

impl LineState for ListingState {
    type Fault = LineFault;

    ghost passes = { PassesLine };

    ghost refuses = { RefusesLine };

    ghost of_cutter = { fault_of_cutter };

    fn read_line(&mut self, alloc: Global, line: Line<'_>) -> Result<(), Failure<LineFault>> {
        let number = line.number();
        take_line(alloc, self, line).map_err(|failure| failure.map(|cause| LineFault {
            line: number,
            cause,
        }))
    }

    fn cut_fault(fault: CutFault) -> LineFault {
        let (line, cause) = match fault {
            CutFault::LineTooLong { line } => (line, LineCause::LineTooLong),
            CutFault::Truncated { line } => (line, LineCause::Truncated),
        };
        LineFault { line, cause }
    }
}

/// Which bindings may still come for the last edge.
#[derive(Clone, Copy)]
enum Binding {
    /// No binding: no edge is open.
    Closed,
    /// Each binding that the last edge does not have yet.
    Open { has_dyndep: bool, has_restat: bool },
}

/// The edges so far, each with an output, and the bindings that may still come.
#[derive(Drop)]
struct ListingState {
    edges: Vec<Edge>,
    binding: Binding,
}

impl Model for ListingState {
    ghost Value = { ListingValue };

    ghost view = { λ s. record { edges = s.edges.items; binding = s.binding } };

    ghost invariant = { λ s. All (λ e. e.outputs ≢ []) s.edges.items };
}

type Taken = Result<(), Failure<LineCause>>;

/// Takes the next line. Lexical faults are reported first, then the line's form, then its paths.
fn take_line(alloc: Global, state: &mut ListingState, line: Line<'_>) -> Taken
    ensures { let view = seen_line line.entry in
        TakesRow state.old (row_of view.text view.comment) result state.new }
{
    match line_form(line) {
        Err(fault) => Err(Failure::Fault(LineCause::Lexical(fault))),
        Ok(LineForm::Comment) => Ok(()),
        Ok(LineForm::Blank) => {
            state.binding = Binding::Closed;
            Ok(())
        }
        Ok(LineForm::Build(words)) => build_line(alloc, state, line.text().len(), words),
        Ok(LineForm::Indented(found)) => binding_line(alloc, state, found),
        Ok(LineForm::Unindented(_)) => Err(Failure::Fault(LineCause::Form)),
    }
}

/// A build line, whose strings have at most `bytes` bytes, adds an edge without bindings.
fn build_line(alloc: Global, state: &mut ListingState, bytes: usize, words: Words<'_>) -> Taken
    ensures { TakesRow state.old (build_row (edge_texts (symbols_left words.entry)))
        result state.new }
{
    let Some(texts) = edge_texts(alloc, bytes, words)? else {
        return Err(Failure::Fault(LineCause::Form));
    };
    let edge = edge_of(alloc, texts).map_err(|failure| failure.map(LineCause::BadPath))?;
    state.edges.push(edge)?;
    state.binding = Binding::Open {
        has_dyndep: false,
        has_restat: false,
    };
    Ok(())
}

/// An indented line sets `dyndep` or `restat` of the last edge, each at most once.
fn binding_line(alloc: Global, state: &mut ListingState, line: Option<Assignment<'_>>) -> Taken
    ensures { TakesRow state.old (binding_row (option_map seen_assignment line.entry))
        result state.new }
{
    let Some(found) = line else {
        return Err(Failure::Fault(LineCause::Form));
    };
    if found.name() == b"dyndep".as_slice() {
        return dyndep_line(alloc, state, found.value(alloc)?);
    }
    if found.name() != b"restat".as_slice() {
        return Err(Failure::Fault(LineCause::Form));
    }
    match state.binding {
        Binding::Open {
            has_dyndep,
            has_restat: false,
        } => {
            let value = found.value(alloc)?;
            set_last_restat(&mut state.edges, !value.is_empty());
            state.binding = Binding::Open {
                has_dyndep,
                has_restat: true,
            };
            Ok(())
        }
        _ => Err(Failure::Fault(LineCause::Form)),
    }
}

/// Takes a binding of `dyndep`. An edge has at most one.
fn dyndep_line(alloc: Global, state: &mut ListingState, text: Vec<u8>) -> Taken
    ensures { TakesRow state.old (Ok (DyndepRow text.items)) result state.new }
{
    let Binding::Open {
        has_dyndep: false,
        has_restat,
    } = state.binding
    else {
        return Err(Failure::Fault(LineCause::Form));
    };
    let path = dyndep_path(alloc, &state.edges, text);
    let path = path.map_err(|failure| failure.map(LineCause::BadPath))?;
    set_last_dyndep(&mut state.edges, path);
    state.binding = Binding::Open {
        has_dyndep: true,
        has_restat,
    };
    Ok(())
}

/// Returns the path of a string. Most edges of a target name one dyndep file, so the path shares
/// that of the edge before the last one if it is the same.
fn dyndep_path(alloc: Global, edges: &[Edge], text: Vec<u8>) -> Result<Path, Failure<PathFault>>
    ensures { Gives (λ path. path) result (path_of text.items) }
{
    if let [.., before, _] = edges
        && let Some(path) = &before.dyndep
        && path.bytes() == text.as_slice()
    {
        return Ok(path.copy(alloc)?);
    }
    // The path takes the string over if that is canonical.
    let shared = RcSlice::from_vec(text)?;
    let end = shared.len();
    Path::within(alloc, &shared, 0, end)
}

fn set_last_dyndep(edges: &mut Vec<Edge>, path: Path)
    ensures { edges.new.items ≡ with_last_dyndep path edges.old.items }
{
    if let Some(edge) = edges.last_mut() {
        edge.dyndep = Some(path);
    }
}

fn set_last_restat(edges: &mut Vec<Edge>, flag: bool)
    ensures { edges.new.items ≡ with_last_restat flag edges.old.items }
{
    if let Some(edge) = edges.last_mut() {
        edge.restat = flag;
    }
}
