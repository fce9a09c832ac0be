//! Why a text is no log.

ghost use Rattle.std.specs.Prelude.{◌≡◌};
ghost use Rattle.log_reading.specs.declared.fault.LogFault.TheVariants.{Memory};

use std::alloc::{AllocError, AllocFailed};
use thiserror::Error;

/// Why a text isn't read as a log.
#[derive(Clone, Copy, Debug, PartialEq, Eq, Error)]
pub enum LogFault {
    /// No line says `log`.
    #[error("there is no log")]
    None,
    /// The text's line of this number, counted from 1, isn't what stands there in a log.
    #[error("line {line} is not of a log")]
    Line { line: usize },
    /// An allocation was refused.
    #[error("memory ran out")]
    Memory,
}

impl From<AllocError> for LogFault {
    ghost from_gives = { λ _ e. e ≡ Memory };

    fn from(_error: AllocError) -> LogFault {
        LogFault::Memory
    }
}

impl<T: Drop> From<AllocFailed<T>> for LogFault {
    ghost from_gives = { λ _ e. e ≡ Memory };

    fn from(_error: AllocFailed<T>) -> LogFault {
        LogFault::Memory
    }
}
