//! Errors of module maps.

use ninja_text::Path;
use thiserror::Error;

/// Why a map cannot be written, or a text cannot be read as a map.
#[derive(Debug, Drop, Error)]
pub enum MapFault {
    /// The style cannot express this path.
    #[error("K1 MapPath")]
    MapPath { path: Path },
    /// The object provides two modules, but a map of the style has at most one.
    #[error("K2 TwoProvided")]
    TwoProvided,
    /// The style does not write this line, counted from 1, at its position.
    #[error("K4 BadMapLine line {line}")]
    BadMapLine { line: u64 },
}

/// Why a map cannot be written: K1 and K2 of [`MapFault`]. K4 is an error of reading a text.
#[derive(Debug, Drop, Error)]
pub enum UnwritableMap {
    /// The style cannot express this path.
    #[error("K1 MapPath")]
    MapPath { path: Path },
    /// The object provides two modules, but a map of the style has at most one.
    #[error("K2 TwoProvided")]
    TwoProvided,
}
