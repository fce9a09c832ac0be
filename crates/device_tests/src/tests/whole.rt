//! A device by its parts: the recorder, the control and all ports, which a recorder's stop takes.

use super::asks::{Ask, answers};
use super::fault::RigFault;
use event_device::{Control, Memory, Port, Recorder, Report, StopFault, Swept, device};
use evt_types::Shape;
use std::alloc::Global;

/// All parts of a device, the ports by their numbers.
#[derive(Drop)]
pub(crate) struct Whole {
    pub recorder: Recorder,
    pub control: Control,
    pub ports: Vec<Port>,
}

impl Whole {
    ghost use Rattle.std.specs.Prelude.{IfOk, IfSome};
    ghost use Rattle.event_device.specs.Stop.{AreOf};

    /// A device of this configuration, just made.
    pub(crate) fn new(alloc: Global, shape: Shape) -> Result<Whole, RigFault>
        ensures { IfOk result (λ w. AreOf w.recorder w.control w.ports.items) }
    {
        let (scheduler, ports, control) = device(alloc, shape)?;
        Ok(Whole {
            recorder: Recorder::begin(alloc, scheduler),
            control,
            ports,
        })
    }

    /// The same after a stop without port 0, which was refused for want of that one; `None` where it wasn't so.
    pub(crate) fn refused_without_first(self, alloc: Global) -> Option<Whole>
        requires { AreOf self.recorder self.control self.ports.items }
        ensures { IfSome result (λ w. AreOf w.recorder w.control w.ports.items) }
    {
        let Whole {
            recorder,
            control,
            mut ports,
        } = self;
        if ports.is_empty() {
            return None;
        }
        let first = ports.remove(0);
        match recorder.stop(alloc, control, ports) {
            Err((StopFault::Missing { port: 0 }, recorder, control, mut ports)) => {
                if ports.insert(0, first).is_err() {
                    return None;
                }
                Some(Whole {
                    recorder,
                    control,
                    ports,
                })
            }
            other => {
                drop(other);
                None
            }
        }
    }

    /// Whether the port of this number answers as it must.
    pub(crate) fn port_answers(&mut self, number: usize, ask: &Ask) -> bool {
        match self.ports.get_mut(number) {
            Some(port) => answers(port, ask),
            None => false,
        }
    }

    /// One sweep.
    pub(crate) fn sweep(&mut self) -> Result<Swept, Memory> {
        self.recorder.sweep()
    }

    /// Shuts the device.
    pub(crate) fn shut(&mut self) {
        self.control.shut();
    }

    /// How many NEWs were accepted, and how many events are inside.
    pub(crate) fn inside(&self) -> (u64, usize) {
        (self.recorder.accepted_new(), self.recorder.inside())
    }

    /// Stops the device.
    pub(crate) fn stop(self, alloc: Global) -> Result<Report, RigFault>
        requires { AreOf self.recorder self.control self.ports.items }
    {
        let Whole {
            recorder,
            control,
            ports,
        } = self;
        match recorder.stop(alloc, control, ports) {
            Ok(report) => Ok(report),
            Err(back) => {
                let why = back.0;
                drop(back);
                Err(RigFault::Parts(why))
            }
        }
    }
}
