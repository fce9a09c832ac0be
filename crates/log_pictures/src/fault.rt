//! Why a text isn't drawn.

ghost use Rattle.std.specs.Prelude.{◌≡◌};
ghost use Rattle.log_pictures.specs.Faults.{document_fault, log_fault};
ghost use Rattle.log_pictures.specs.declared.fault.PictureFault.TheVariants.{Memory};

use log_reading::LogFault;
use play_documents::{DocFault, ReadFault};
use std::alloc::AllocError;
use thiserror::Error;

/// Why a log isn't drawn. Lines are counted from 1.
#[derive(Clone, Copy, Debug, PartialEq, Eq, Error)]
pub enum PictureFault {
    /// The document is refused.
    #[error(transparent)]
    Document(DocFault),
    /// No line says `log`.
    #[error("log: NoLog")]
    NoLog,
    /// The line of this number isn't what stands there in a log.
    #[error("log: BadLine {0}")]
    BadLine(usize),
    /// The step in this line is the first that names a lane that isn't there.
    #[error("log: NoLane {line}")]
    NoLane { line: u128 },
    /// An allocation was refused.
    #[error("memory ran out")]
    Memory,
}

impl From<AllocError> for PictureFault {
    ghost from_gives = { λ _ e. e ≡ Memory };

    fn from(_error: AllocError) -> PictureFault {
        PictureFault::Memory
    }
}

impl From<ReadFault> for PictureFault {
    ghost from_gives = { λ fault e. e ≡ document_fault fault };

    fn from(fault: ReadFault) -> PictureFault {
        match fault {
            ReadFault::Document(fault) => PictureFault::Document(fault),
            ReadFault::Memory => PictureFault::Memory,
        }
    }
}

impl From<LogFault> for PictureFault {
    ghost from_gives = { λ fault e. e ≡ log_fault fault };

    fn from(fault: LogFault) -> PictureFault {
        match fault {
            LogFault::None => PictureFault::NoLog,
            LogFault::Line { line } => PictureFault::BadLine(line),
            LogFault::Memory => PictureFault::Memory,
        }
    }
}
