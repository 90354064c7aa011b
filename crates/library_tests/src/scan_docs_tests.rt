//! What no clause says: that a call succeeds when memory is available. The results for documents
//! are rows of `tests/rows`.
mod growths;
