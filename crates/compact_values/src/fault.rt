ghost use Rattle.std.specs.Prelude.{◌≡◌};

use std::alloc::{AllocError, AllocFailed};
use thiserror::Error;

/// No memory was left. This answer is free everywhere: no clause ties it to a refused growth.
#[derive(Clone, Copy, Debug, PartialEq, Eq, Error)]
#[error("no memory")]
pub struct NoMemory;

impl From<AllocError> for NoMemory {
    fn from(_: AllocError) -> Self {
        NoMemory
    }
}

impl<T: Drop> From<AllocFailed<T>> for NoMemory {
    fn from(_: AllocFailed<T>) -> Self {
        NoMemory
    }
}

/// Why no value could be read at a place of the input.
#[derive(Clone, Copy, Debug, PartialEq, Eq, Error)]
pub enum ValueFault {
    /// The input ends inside a value; `place` is its length.
    #[error("the input ends inside a value, at byte {place}")]
    Short { place: usize },
    /// No value begins at `place`, however the input goes on.
    #[error("no value at byte {place}")]
    OutOfForm { place: usize },
    /// No memory was left.
    #[error("no memory")]
    NoMemory,
}

impl From<NoMemory> for ValueFault {
    ghost use Rattle.compact_values.specs.declared.fault.ValueFault.TheVariants as faults;

    ghost from_gives = { λ _ fault. fault ≡ faults.NoMemory };

    fn from(_: NoMemory) -> Self {
        ValueFault::NoMemory
    }
}
