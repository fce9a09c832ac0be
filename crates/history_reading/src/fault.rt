//! Why a text is no history.

ghost use Rattle.std.specs.Prelude.{◌≡◌};
ghost use Rattle.history_reading.specs.declared.fault.ReadFault.TheVariants.{Memory};

use std::alloc::{AllocError, AllocFailed};
use thiserror::Error;

/// A key of an entry's line.
#[derive(Clone, Copy, Debug, PartialEq, Eq)]
pub enum Key {
    Port,
    Began,
    Ended,
    /// `sent` or `got`.
    Deed,
    Queue,
    Flow,
    SubType,
    EventType,
    Priority,
    Payload,
    /// None: the line's end.
    End,
}

/// What is wrong with a line.
#[derive(Clone, Copy, Debug, PartialEq, Eq, Error)]
pub enum Cause {
    /// Where the key has to stand it doesn't.
    #[error("{key:?} is missing")]
    Missing { key: Key },
    /// Behind the key stands no number that it can have, in decimal digits without a leading zero.
    #[error("{key:?} has no number that it can have")]
    Number { key: Key },
    /// Behind `sent` or `got` stands no operation.
    #[error("there is no operation of that name")]
    Operation,
}

/// Why a text isn't read as a history.
#[derive(Clone, Copy, Debug, PartialEq, Eq, Error)]
pub enum ReadFault {
    /// The line of this number, counted from 1, is no entry's.
    #[error("line {line}: {cause}")]
    Line { line: usize, cause: Cause },
    /// An allocation was refused.
    #[error("memory ran out")]
    Memory,
}

impl From<AllocError> for ReadFault {
    ghost from_gives = { λ _ e. e ≡ Memory };

    fn from(_error: AllocError) -> ReadFault {
        ReadFault::Memory
    }
}

impl<T: Drop> From<AllocFailed<T>> for ReadFault {
    ghost from_gives = { λ _ e. e ≡ Memory };

    fn from(_error: AllocFailed<T>) -> ReadFault {
        ReadFault::Memory
    }
}
