//! Why a run of the program stops.

ghost use Rattle.std.specs.Prelude.{◌≡◌};
ghost use Rattle.command_line.specs.Fault.{app_fault};
ghost use Rattle.command_line.specs.declared.fault.AppFault.TheVariants.{Memory};

use evt_types::Step;
use play_documents::{DocFault, ReadFault};
use std::alloc::{AllocError, AllocFailed};
use thiserror::Error;

/// Why a run stops before its end.
#[derive(Debug, PartialEq, Eq, Drop, Error)]
pub enum AppFault {
    /// The document couldn't be read to its end.
    #[error("the document could not be read")]
    Read,
    /// The text couldn't be written whole.
    #[error("the output could not be written")]
    Write,
    /// The document is refused.
    #[error(transparent)]
    Document(DocFault),
    /// An allocation was refused.
    #[error("memory ran out")]
    Memory,
    /// The device couldn't be shared out to its ports.
    #[error("the device could not be shared out to its ports")]
    NoSeat,
    /// A worker answered an event otherwise than its stage's action, as this log of the run shows.
    #[error("a worker did not answer an event as its stage says")]
    Strayed(Vec<Step>),
}

impl From<AllocError> for AppFault {
    ghost from_gives = { λ _ e. e ≡ Memory };

    fn from(_error: AllocError) -> AppFault {
        AppFault::Memory
    }
}

impl<T: Drop> From<AllocFailed<T>> for AppFault {
    ghost from_gives = { λ _ e. e ≡ Memory };

    fn from(_error: AllocFailed<T>) -> AppFault {
        AppFault::Memory
    }
}

impl From<ReadFault> for AppFault {
    ghost from_gives = { λ fault e. e ≡ app_fault fault };

    fn from(fault: ReadFault) -> AppFault {
        match fault {
            ReadFault::Document(fault) => AppFault::Document(fault),
            ReadFault::Memory => AppFault::Memory,
        }
    }
}
