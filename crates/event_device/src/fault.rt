//! Why a device isn't made, and why it isn't stopped.

ghost use Rattle.std.specs.Prelude.{◌≡◌};
ghost use Rattle.event_device.specs.Fault.{shape_in};

use evt_types::Shape;
use step_log::Memory;
use thiserror::Error;

/// Why a device isn't made. The configuration comes back.
#[derive(Debug, Drop, Error)]
pub enum DeviceFault {
    /// Memory ran out.
    #[error("memory ran out")]
    Memory(Shape),
    /// A seat of the credits or of the flow lanes' claims couldn't be had.
    #[error("the device could not be shared out to its ports")]
    NoSeat(Shape),
}

/// Why a device isn't stopped.
#[derive(Clone, Copy, Debug, PartialEq, Eq, Error)]
pub enum NotStopped {
    /// The port of this number is lent; those below it are at home.
    #[error("port {port} is lent")]
    PortLent { port: usize },
    /// The control is lent; all ports are at home.
    #[error("the control is lent")]
    ControlLent,
    /// Memory ran out.
    #[error("memory ran out")]
    Memory,
}

/// What was wanting for a device.
#[derive(Clone, Copy)]
pub(crate) enum Want {
    Memory,
    Seat,
}

impl From<Memory> for Want {
    ghost use Rattle.event_device.specs.declared.fault.Want.TheVariants as wants;

    ghost from_gives = { λ _ want. want ≡ wants.Memory };

    fn from(_: Memory) -> Want {
        Want::Memory
    }
}

impl Want {
    /// The fault, with the configuration.
    pub(crate) fn into_fault(self, shape: Shape) -> DeviceFault
        ensures { shape_in result ≡ shape }
    {
        match self {
            Want::Memory => DeviceFault::Memory(shape),
            Want::Seat => DeviceFault::NoSeat(shape),
        }
    }
}
