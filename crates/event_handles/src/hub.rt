//! The hub of a device for C.

ghost use Rattle.std.specs.Prelude.{◌≡◌};
ghost use Rattle.std.specs.Option.{ForSome};
ghost use Rattle.event_handles.specs.Kinds.{kinds_of};
ghost use Rattle.event_handles.specs.Sweeps.{AreSentBy};

use crate::config::Config;
use crate::control::ControlHandle;
use crate::errno::{EBUSY, ENODEV, ENOMEM};
use crate::port::{PortHandle, Seat};
use crate::start::start_device;
use crate::stopped::Stopped;
use crate::sweep_counts::SweepCounts;
use event_device::Device;
use evt_types::{Kind, MAX_QUEUES};
use std::alloc::Global;

/// A device for C, with all of its parts that are at home. Where it is refused it holds why, and once it is stopped its account.
#[derive(Drop)]
pub struct Hub {
    pub(crate) device: Option<Device>,
    /// The scheduling types of the device's queues, where it runs.
    pub(crate) kinds: [Kind; MAX_QUEUES],
    pub(crate) stopped: Option<Stopped>,
    /// What the device's sweeps did.
    pub(crate) sweeps: SweepCounts,
    pub(crate) why: i64,
    pub ghost kinds_are: { ForSome device (λ r. kinds ≡ kinds_of r) },
    pub ghost are_sent: { ForSome device (λ r. AreSentBy r sweeps.sent) },
}

impl Hub {
    ghost use Rattle.std.specs.Prelude.{◌≡◌};
    ghost use Rattle.event_handles.specs.Hands.{Hands, HandsControl, IsControlOf, IsOf, IsSweep, Joins, JoinsControl};
    ghost use Rattle.event_handles.specs.Hub.{inside_in};
    ghost use Rattle.event_handles.specs.Start.{IsNew};

    /// Makes a device.
    pub fn new(alloc: Global, config: &Config) -> Hub
        ensures { IsNew result config.now }
    {
        match start_device(alloc, config) {
            Ok(started) => {
                let kinds = started.1;
                Hub {
                    device: Some(started.0),
                    kinds,
                    stopped: None,
                    sweeps: SweepCounts::none(),
                    why: 0,
                }
            }
            Err(why) => {
                let kinds = [Kind::Parallel; MAX_QUEUES];
                Hub {
                    device: None,
                    kinds,
                    stopped: None,
                    sweeps: SweepCounts::none(),
                    why,
                }
            }
        }
    }

    /// Why the device was refused: 0 where it wasn't.
    pub fn why(&self) -> i64
        ensures { result ≡ self.now.why }
    {
        self.why
    }

    /// How many events wait, are kept or are unanswered. Where the device was refused, why; -19 once it is stopped.
    pub fn inside(&self) -> i64
        ensures { result ≡ inside_in self.now.device self.now.stopped self.now.why }
    {
        match (&self.device, &self.stopped) {
            (Some(device), _) => device.inside() as i64,
            (None, Some(_)) => ENODEV,
            (None, None) => self.why,
        }
    }

    /// Hands out the port of this number, where it is at home.
    pub fn hand_out(&mut self, number: usize) -> PortHandle
        ensures { Hands self.old number self.new result }
    {
        let Some(device) = &mut self.device else {
            return PortHandle { seat: None };
        };
        let Some(port) = device.take_port(number) else {
            return PortHandle { seat: None };
        };
        PortHandle {
            seat: Some(Seat::new(port, self.kinds)),
        }
    }

    /// Takes a port of this device back: 0. -16 where a port of its number is there: this one is then let go of. -19 where the device
    /// doesn't run or the handle has no port.
    pub fn join(&mut self, port: PortHandle) -> i64
        requires { IsOf self.old port }
        ensures { Joins self.old port self.new result }
    {
        let Some(device) = &mut self.device else {
            return ENODEV;
        };
        let Some(seat) = port.seat else {
            return ENODEV;
        };
        match device.put_back(seat.port) {
            Ok(()) => 0,
            Err(_) => EBUSY,
        }
    }

    /// Hands out the control, where it is at home.
    pub fn hand_control(&mut self) -> ControlHandle
        ensures { HandsControl self.old self.new result }
    {
        let Some(device) = &mut self.device else {
            return ControlHandle { control: None };
        };
        ControlHandle {
            control: device.take_control(),
        }
    }

    /// Takes the control of this device back: 0. -16 where a control is there: the other one is then let go of. -19 where the
    /// device doesn't run or the handle has no control.
    pub fn join_control(&mut self, control: ControlHandle) -> i64
        requires { IsControlOf self.old control }
        ensures { JoinsControl self.old control self.new result }
    {
        let Some(device) = &mut self.device else {
            return ENODEV;
        };
        let Some(control) = control.control else {
            return ENODEV;
        };
        match device.put_back_control(control) {
            Ok(()) => 0,
            Err(_) => EBUSY,
        }
    }

    /// One sweep: how many replies it took and how many events it gave. -12 where memory ran out: nothing has changed then. -19 where
    /// the device doesn't run.
    pub fn sweep(&mut self) -> i64
        ensures { IsSweep self.old self.new result }
    {
        let Some(device) = &mut self.device else {
            return ENODEV;
        };
        let Ok(swept) = device.sweep() else {
            return ENOMEM;
        };
        self.sweeps.count(&swept, device);
        // So many steps, and with them what was taken and given, can be counted.
        let _log = device.log();
        let count = (swept.taken + swept.given) as i64;
        count
    }

    /// Lets go of all that it has.
    pub fn close(self) {
        drop(self);
    }
}

fn sent<T: Send>(value: T) -> T
    ensures { result ≡ value }
{
    value
}

/// A hub and handles that another thread may use.
pub fn to_thread(
    hub: Hub,
    port: PortHandle,
    control: ControlHandle,
) -> (Hub, PortHandle, ControlHandle)
    ensures { (result.0 ≡ hub) × (result.1 ≡ port) × (result.2 ≡ control) }
{
    (sent(hub), sent(port), sent(control))
}
