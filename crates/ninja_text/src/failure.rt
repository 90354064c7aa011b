//! The error type of calls that allocate memory.
ghost use Rattle.std.specs.Prelude.{◌≡◌};
ghost use Rattle.ninja_text.specs.Prelude.{ForFault, Turns, failure_text};
ghost use Rattle.ninja_text.specs.declared.failure.Failure.TheVariants.{Memory};

use std::alloc::{AllocError, AllocFailed};
use std::fmt;
use thiserror::Error;

/// The error of a call that allocates memory: an allocation failed, or the input has a fault.
#[derive(Clone, Copy, Debug, PartialEq, Eq, Error)]
pub enum Failure<F> {
    /// An allocation failed.
    Memory,
    /// The input has this fault.
    Fault(F),
}

impl<F> Failure<F> {
    /// Maps the fault with a function. `Memory` stays `Memory`.
    pub fn map<G, H: FnOnce(F) -> G>(self, turn: H) -> Failure<G>
        requires { ForFault (H.pre turn) self }
        ensures { Turns (H.post turn) self result }
    {
        match self {
            Failure::Memory => Failure::Memory,
            Failure::Fault(fault) => Failure::Fault(turn(fault)),
        }
    }
}

impl<F: fmt::Display> fmt::Display for Failure<F> {
    ghost output = { failure_text F.output };

    fn fmt<W: fmt::Write>(&self, f: &mut fmt::Formatter<W>) -> fmt::Result {
        match self {
            Failure::Memory => f.write_str("out of memory"),
            Failure::Fault(fault) => write!(f, "{fault}"),
        }
    }
}

impl<F> From<AllocError> for Failure<F> {
    ghost from_gives = { λ _ e. e ≡ Memory };

    fn from(_e: AllocError) -> Failure<F> {
        Failure::Memory
    }
}

impl<F, T: Drop> From<AllocFailed<T>> for Failure<F> {
    ghost from_gives = { λ _ e. e ≡ Memory };

    fn from(_e: AllocFailed<T>) -> Failure<F> {
        Failure::Memory
    }
}
