//! Why a pipeline isn't run to its end.

use event_device::{DeviceFault, Memory};
use thiserror::Error;

/// Why a pipeline wasn't run to its end.
#[derive(Clone, Copy, Debug, PartialEq, Eq, Error)]
pub enum RunFault {
    /// Memory ran out, or a thread couldn't be started.
    #[error("memory ran out, or a thread could not be started")]
    Memory,
    /// A seat of the credits or of the flow lanes' claims couldn't be had.
    #[error("the device could not be shared out to its ports")]
    NoSeat,
}

impl From<Memory> for RunFault {
    fn from(_: Memory) -> RunFault {
        RunFault::Memory
    }
}

impl From<DeviceFault> for RunFault {
    fn from(fault: DeviceFault) -> RunFault {
        match fault {
            DeviceFault::Memory(_) => RunFault::Memory,
            DeviceFault::NoSeat(_) => RunFault::NoSeat,
        }
    }
}
