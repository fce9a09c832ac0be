//! Why a text isn't judged.

ghost use Rattle.std.specs.Prelude.{◌≡◌};
ghost use Rattle.judge_app.specs.Faults.{document_fault, entry_fault, history_fault, log_fault};
ghost use Rattle.judge_app.specs.declared.fault.JudgeFault.TheVariants.{Memory};

use history_judge::HistoryFault;
use history_reading::{Cause, ReadFault as EntryFault};
use log_reading::LogFault;
use play_documents::{DocFault, ReadFault};
use std::alloc::AllocError;
use thiserror::Error;

/// Why a log or a history isn't judged. Lines are counted from 1.
#[derive(Clone, Copy, Debug, PartialEq, Eq, Error)]
pub enum JudgeFault {
    /// The document is refused.
    #[error(transparent)]
    Document(DocFault),
    /// No line says `log`.
    #[error("log: NoLog")]
    NoLog,
    /// The line of this number isn't what stands there in a log.
    #[error("log: BadLine {0}")]
    BadLine(usize),
    /// The line of this number is no entry of a history.
    #[error("history: BadEntry {line}: {cause}")]
    BadEntry { line: usize, cause: Cause },
    /// The document's device has flow lanes.
    #[error("history: FlowLanes")]
    FlowLanes,
    /// The entry in this line names a port that isn't there.
    #[error("history: NoPort {line}")]
    NoPort { line: u128 },
    /// The entry in this line ended before it began, or before it an entry of its port stands that it doesn't follow.
    #[error("history: Overlap {line}")]
    Overlap { line: u128 },
    /// The entry in this line ended before one that stands before it.
    #[error("history: Unsorted {line}")]
    Unsorted { line: u128 },
    /// An allocation was refused.
    #[error("memory ran out")]
    Memory,
}

impl From<AllocError> for JudgeFault {
    ghost from_gives = { λ _ e. e ≡ Memory };

    fn from(_error: AllocError) -> JudgeFault {
        JudgeFault::Memory
    }
}

impl From<ReadFault> for JudgeFault {
    ghost from_gives = { λ fault e. e ≡ document_fault fault };

    fn from(fault: ReadFault) -> JudgeFault {
        match fault {
            ReadFault::Document(fault) => JudgeFault::Document(fault),
            ReadFault::Memory => JudgeFault::Memory,
        }
    }
}

impl From<LogFault> for JudgeFault {
    ghost from_gives = { λ fault e. e ≡ log_fault fault };

    fn from(fault: LogFault) -> JudgeFault {
        match fault {
            LogFault::None => JudgeFault::NoLog,
            LogFault::Line { line } => JudgeFault::BadLine(line),
            LogFault::Memory => JudgeFault::Memory,
        }
    }
}

impl From<EntryFault> for JudgeFault {
    ghost from_gives = { λ fault e. e ≡ entry_fault fault };

    fn from(fault: EntryFault) -> JudgeFault {
        match fault {
            EntryFault::Line { line, cause } => JudgeFault::BadEntry { line, cause },
            EntryFault::Memory => JudgeFault::Memory,
        }
    }
}

impl From<HistoryFault> for JudgeFault {
    ghost from_gives = { λ fault e. e ≡ history_fault fault };

    fn from(fault: HistoryFault) -> JudgeFault {
        match fault {
            HistoryFault::Flows => JudgeFault::FlowLanes,
            HistoryFault::Port { at } => JudgeFault::NoPort {
                line: at as u128 + 1,
            },
            HistoryFault::Order { at } => JudgeFault::Overlap {
                line: at as u128 + 1,
            },
            HistoryFault::Unsorted { at } => JudgeFault::Unsorted {
                line: at as u128 + 1,
            },
            HistoryFault::Memory => JudgeFault::Memory,
        }
    }
}
