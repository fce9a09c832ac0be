//! A device of C's is stopped.

ghost use Rattle.std.specs.Prelude.{◌≡◌};
ghost use Rattle.event_handles.specs.Stop.{number_of_why};

use crate::errno::{EBUSY, ENODEV, ENOMEM};
use crate::hub::Hub;
use crate::stopped::Stopped;
use event_device::NotStopped;

/// The number of why a device isn't stopped.
fn number_of_why(why: NotStopped) -> i64
    ensures { result ≡ number_of_why why }
{
    match why {
        NotStopped::PortLent { .. } | NotStopped::ControlLent => EBUSY,
        NotStopped::Memory => ENOMEM,
    }
}

impl Hub {
    ghost use Rattle.event_handles.specs.Stop.{IsStop};

    /// Stops the device, with its control and all its ports, which must be at home: 0. -16 where one is away, -12 where memory ran out:
    /// nothing has changed then. It doesn't sweep.
    pub fn stop(&mut self) -> i64
        ensures { IsStop self.old self.new result }
    {
        let Some(device) = self.device.take() else {
            return ENODEV;
        };
        // `drop` ends what was there before, which is nothing: an assignment would do it here, part by part, for the proof to follow.
        match device.stop() {
            Ok(report) => {
                let stopped = Stopped {
                    report,
                    kinds: self.kinds,
                    part: 0,
                    handed: 0,
                };
                drop(self.stopped.replace(stopped));
                0
            }
            Err((why, device)) => {
                drop(self.device.replace(device));
                number_of_why(why)
            }
        }
    }
}
