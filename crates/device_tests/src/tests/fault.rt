//! Why a device of a plan isn't made, called as wanted or stopped.

use event_device::{DeviceFault, NotStopped, StopFault};
use evt_types::ShapeFault;
use std::alloc::AllocError;
use thiserror::Error;

/// Why a device of a plan isn't made, called as wanted or stopped.
#[derive(Clone, Copy, Debug, Error)]
pub(crate) enum RigFault {
    /// The configuration is refused.
    #[error("the configuration is refused: {0}")]
    Shape(#[from] ShapeFault),
    /// A seat of the credits or of the flow lanes' claims couldn't be had.
    #[error("the device could not be shared out to its ports")]
    NoSeat,
    /// The call at this place had another answer.
    #[error("call {place} had another answer")]
    Unexpected { place: usize },
    /// The device isn't stopped.
    #[error("the device is not stopped: {0}")]
    Stop(NotStopped),
    /// The recorder, control and ports aren't stopped.
    #[error("the parts are not stopped: {0}")]
    Parts(StopFault),
    /// A stop without port 0 wasn't refused for want of that port.
    #[error("a stop without port 0 had another answer")]
    NotMissing,
    /// Memory ran out.
    #[error("memory ran out")]
    Memory(#[from] AllocError),
}

impl From<DeviceFault> for RigFault {
    fn from(fault: DeviceFault) -> RigFault {
        match fault {
            DeviceFault::Memory(_) => RigFault::Memory(AllocError),
            DeviceFault::NoSeat(_) => RigFault::NoSeat,
        }
    }
}
