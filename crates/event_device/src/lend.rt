//! The ports and the control of a device that runs are lent, and come back.

use crate::control::Control;
use crate::running::Device;
use event_ports::Port;
use step_log::StepLog;

impl<L: StepLog> Device<L> {
    ghost use Rattle.std.specs.Prelude.{◌≡◌, OnOk, IfErr};
    ghost use Rattle.event_device.specs.Control.{control_of};
    ghost use Rattle.event_device.specs.Device.{IsPortOf, control_site};
    ghost use Rattle.event_device.specs.Lent.{ComesBack, ControlComesBack, ControlIsThere, ControlLeaves, IsThere, MayLeave, Shuts};
    ghost use Rattle.event_device.specs.Parts.{device_of};

    /// Lends the port of this number, for one thread. `None` where it is lent already, or the device has no such port.
    pub fn take_port(&mut self, number: usize) -> Option<Port>
        ensures lent { MayLeave number result self.old self.new }
        ensures device { device_of self.new ≡ device_of self.old }
    {
        if number >= self.ports.len() {
            return None;
        }
        self.ports[number].take()
    }

    /// Takes a port of this device back. Where a port of its number is there already, it comes back as the error.
    pub fn put_back(&mut self, port: Port) -> Result<(), Port>
        requires { IsPortOf (device_of self.old) port }
        ensures back { OnOk result (ComesBack port self.old self.new) }
        ensures there { IfErr result (λ e. (e ≡ port) × IsThere port self.old self.new) }
        ensures device { device_of self.new ≡ device_of self.old }
    {
        let number = port.number();
        if self.ports[number].is_some() {
            return Err(port);
        }
        // Nothing is there, which `drop` ends: an assignment would end it part by part.
        drop(self.ports[number].replace(port));
        Ok(())
    }

    /// Lends the control, so that another thread may shut the device. `None` where it is lent already.
    pub fn take_control(&mut self) -> Option<Control>
        ensures lent { ControlLeaves result self.old self.new }
        ensures device { device_of self.new ≡ device_of self.old }
    {
        self.control.take()
    }

    /// Takes the control of this device back. Where a control is there already, it comes back as the error.
    pub fn put_back_control(&mut self, control: Control) -> Result<(), Control>
        requires { control_of control ≡ control_site (device_of self.old) }
        ensures back { OnOk result (ControlComesBack control self.old self.new) }
        ensures there { IfErr result (λ e. (e ≡ control) × ControlIsThere self.old self.new) }
        ensures device { device_of self.new ≡ device_of self.old }
    {
        if self.control.is_some() {
            return Err(control);
        }
        self.control = Some(control);
        Ok(())
    }

    /// Shuts the device, where its control isn't lent: whether it could. From then on no port brings a new event in, and the scheduler
    /// turns away those that came and weren't taken.
    pub fn shut(&mut self) -> bool
        ensures shut { Shuts result self.old self.new }
        ensures device { device_of self.new ≡ device_of self.old }
    {
        let Some(control) = &mut self.control else {
            return false;
        };
        control.shut();
        true
    }
}
