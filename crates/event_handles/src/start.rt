//! A device of a configuration of C's begins to run.

ghost use Rattle.std.specs.Prelude.{◌≡◌, IfOk, IfErr};
ghost use Rattle.event_handles.specs.Kinds.{kinds_of};
ghost use Rattle.event_handles.specs.Start.{IsFresh, IsRefusal, number_in};

use crate::config::Config;
use crate::draft::{kinds_of, shape_of};
use crate::errno::ENOMEM;
use event_device::{Device, DeviceFault};
use evt_types::{Kind, MAX_QUEUES};
use std::alloc::Global;

/// The device couldn't be shared out to its ports.
const NOT_SHARED: i64 = -1015;

/// The number of a fault.
fn number_of(fault: DeviceFault) -> i64
    ensures { result ≡ number_in fault }
{
    match fault {
        DeviceFault::Memory(_) => ENOMEM,
        DeviceFault::NoSeat(_) => NOT_SHARED,
    }
}

/// Makes the device of the configuration: with it come the scheduling types of its queues.
pub(crate) fn start_device(
    alloc: Global,
    config: &Config,
) -> Result<(Device, [Kind; MAX_QUEUES]), i64>
    ensures fresh { IfOk result (λ r. IsFresh config.now r.0) }
    ensures kinds { IfOk result (λ r. r.1 ≡ kinds_of r.0) }
    ensures refused { IfErr result (IsRefusal config.now) }
{
    let shape = shape_of(alloc, config)?;
    let kinds = kinds_of(shape.queues());
    match Device::new(alloc, shape) {
        Ok(device) => Ok((device, kinds)),
        Err(fault) => Err(number_of(fault)),
    }
}
