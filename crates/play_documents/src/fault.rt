//! Why a document is refused.

ghost use Rattle.std.specs.Prelude.{◌≡◌};
ghost use Rattle.play_documents.specs.declared.fault.ReadFault.TheVariants.{Memory};

use evt_types::ShapeFault;
use std::alloc::{AllocError, AllocFailed};
use thiserror::Error;

/// What is wrong with a document. Each is looked for in the whole document before the next.
#[derive(Clone, Copy, Debug, PartialEq, Eq, Error)]
pub enum DocFault {
    /// It has more bytes than a document may have.
    #[error("the document is too long")]
    TooLong,
    /// Its bytes are no TOML.
    #[error("the document is not TOML")]
    NotToml,
    /// A table has a key that isn't one of its own.
    #[error("a table has a key that it does not know")]
    UnknownKey,
    /// A table lacks a key that it needs.
    #[error("a table lacks a key that it needs")]
    MissingKey,
    /// A value isn't of its key's type, range or texts.
    #[error("a value is not one that its key may have")]
    BadValue,
    /// A stage that isn't its pipeline's last is parallel.
    #[error("a stage before the pipeline's last is parallel")]
    ParallelInside,
    /// A pipeline's last stage has another action than to pass.
    #[error("the pipeline's last stage has another action than to pass")]
    LastAction,
    /// The configuration is refused. What is held is never `Memory`.
    #[error("the configuration is refused: {0}")]
    Shape(ShapeFault),
    /// A pipeline's limit leaves no room for the credits that rest with its ports.
    #[error("the limit leaves no room for the credits that rest with the ports")]
    LimitTight,
    /// The script's line of this number, counted from 1, is no command.
    #[error("line {0} of the script is no command")]
    BadCommand(u32),
    /// The trace's line of this number, counted from 1, is no event.
    #[error("line {0} of the trace is no event")]
    BadTrace(u32),
}

/// Why the reading of a document ends without one.
#[derive(Clone, Copy, Debug, PartialEq, Eq, Error)]
pub enum ReadFault {
    /// The document is refused.
    #[error(transparent)]
    Document(DocFault),
    /// An allocation was refused.
    #[error("memory ran out")]
    Memory,
}

impl From<AllocError> for ReadFault {
    ghost from_gives = { λ _ e. e ≡ Memory };

    fn from(_error: AllocError) -> ReadFault {
        ReadFault::Memory
    }
}

impl<T: Drop> From<AllocFailed<T>> for ReadFault {
    ghost from_gives = { λ _ e. e ≡ Memory };

    fn from(_error: AllocFailed<T>) -> ReadFault {
        ReadFault::Memory
    }
}
