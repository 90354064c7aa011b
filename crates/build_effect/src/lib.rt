//! Build edges, the effect of a dyndep file on them, and the order in which they can run (Ninja
//! 1.11 manual, "Build statements" and "Dynamic dependencies").
//!
//! - A [`Graph`] is a list of [`Edge`]s that Ninja accepts (`specs/Graphs.antt`, `IsGraph`).
//! - [`Graph::of`] reads the text of a graph, [`ListingReader`] reads it in pieces, and
//!   [`Graph::to_text`] and [`listing_write`] write it (`specs/ListingLines.antt`,
//!   `ListingGrammar.antt`, `ListingFaults.antt`, `ListingWriting.antt`). By the [`laws`] a
//!   text either lists one list of edges or has one fault, and the text of a graph reads back.
//! - [`apply`] returns the graph after the effect of a dyndep file, a relation between two graphs
//!   (`specs/Effect.antt`), or an error if no graph has the effect. The [`laws`] say when
//!   there is an effect, that files may be applied in any order, and when the graph can be ordered
//!   after them.
//! - [`edge_order`] returns an order of the edges or the least cycle (`specs/Graphs.antt`,
//!   `EdgeNeeds`).
//! - [`orders_after_each`] checks many dyndep files on one graph at once (`specs/DyndepFiles.antt`,
//!   `HasOrderAfter`).
//!
//! The view of a graph is the list of its edges, and the view of a path is its canonical string.
//! Definitions that only private clauses use are in `specs/inner/`.
#![tactic(auto)]

mod effect;
mod fault;
mod files;
mod graph;
pub mod laws;
mod listing;
mod strings;

pub use effect::apply;
pub use fault::{EffectFault, GraphFault, LineCause, LineFault, ListFault, ListingWriteFault};
pub use files::{DyndepFile, orders_after_each};
pub use graph::{Edge, Graph, edge_order, listing_write};
pub use listing::ListingReader;
