//! What isn't judged.

ghost use Rattle.std.specs.Prelude.{◌≡◌};
ghost use Rattle.history_judge.specs.declared.fault.HistoryFault.TheVariants as faults;

use evt_types::Memory;
use thiserror::Error;

/// Why a history isn't judged.
#[derive(Clone, Copy, Debug, PartialEq, Eq, Error)]
pub enum HistoryFault {
    /// The shape has flow lanes, from which several ports get events in turn.
    #[error("the device has flow lanes")]
    Flows,
    /// An entry names a port that isn't there.
    #[error("the entry {at} names a port that is not there")]
    Port { at: usize },
    /// An entry ended before it began, or began before an entry of its port ended that stands before it and is of another call.
    #[error("the entry {at} does not follow the one before it of its port")]
    Order { at: usize },
    /// An entry ended before one that stands before it.
    #[error("the entry {at} ended before one that stands before it")]
    Unsorted { at: usize },
    #[error("memory ran out")]
    Memory,
}

impl From<Memory> for HistoryFault {
    ghost from_gives = { λ _ e. e ≡ faults.Memory };

    fn from(_memory: Memory) -> HistoryFault {
        HistoryFault::Memory
    }
}
