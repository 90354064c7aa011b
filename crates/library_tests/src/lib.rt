//! Tests of the libraries, as their callers see them, with a module for each crate under test. They
//! test what cannot be tested through the program: input that arrives in pieces, functions that the
//! program never calls, and failing readers, writers and allocations. Everything else is a row in
//! `tests/rows`.
//!
//! `tests/growths.py` runs the tests of each module `growths` with each allocation failing in turn.
//! `examples` has an example for each crate, which the page of the crate quotes.
//!
//! They are a crate of their own because the prover proves a crate with tests twice.
#![tactic(auto)]

#[cfg(test)]
mod build_effect_tests;
#[cfg(test)]
mod collate_core_tests;
#[cfg(test)]
mod common;
#[cfg(test)]
mod dep_order_tests;
#[cfg(test)]
mod dyndep_file_tests;
#[cfg(test)]
mod examples;
#[cfg(test)]
mod failing;
#[cfg(test)]
mod in_memory_tests;
#[cfg(test)]
mod module_maps_tests;
#[cfg(test)]
mod module_table_tests;
#[cfg(test)]
mod ninja_text_tests;
#[cfg(test)]
mod scan_docs_tests;
