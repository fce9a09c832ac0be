//! The control of a device in C's memory.

use crate::errno::ENODEV;
use event_device::Control;

/// A control for C; without one where it had been handed out before.
#[derive(Drop)]
pub struct ControlHandle {
    pub control: Option<Control>,
}

impl ControlHandle {
    ghost use Rattle.event_handles.specs.Hands.{IsShut};

    /// Shuts the device: from now on no port brings a new event in, and the scheduler turns away those that weren't taken. -19 without a
    /// control.
    pub fn shut(&mut self) -> i64
        ensures { IsShut self.old self.new result }
    {
        match &mut self.control {
            Some(control) => {
                control.shut();
                0
            }
            None => ENODEV,
        }
    }

    /// Lets go of the control.
    pub fn close(self) {}
}
