//! A device that runs is stopped.

ghost use Rattle.std.specs.Prelude.{ℕ, ◌≡◌, ◌<◌, ◌≤◌, [], Some, None, length, map, slice_get, All, IsSome, MatchOption, vec_len, vec_capacity};
ghost use Rattle.event_device.specs.Home.{IsFilled};

use crate::fault::NotStopped;
use crate::running::{Device, put_all};
use event_answers::{Report, StopFault};
use event_ports::Port;
use step_log::StepLog;

/// The number of the first port that is lent.
fn first_lent(homes: &[Option<Port>]) -> Option<usize>
    ensures { MatchOption result
        ((n : ℕ) → n < length homes.now → IsFilled homes.now n)
        (λ n. (slice_get homes.now n ≡ Some None) × ((k : ℕ) → k < n → IsFilled homes.now k)) }
{
    for (number, home) in homes.iter().enumerate() {
        if home.is_none() {
            return Some(number);
        }
    }
    None
}

/// Takes all ports out of their homes, in their order.
fn gather(homes: &mut Vec<Option<Port>>, mut ports: Vec<Port>) -> Vec<Port>
    requires home { All (λ home. IsSome home) homes.old.items }
    requires empty { ports.items ≡ [] }
    requires room { vec_len homes.old ≤ vec_capacity ports }
    ensures gathered { homes.old.items ≡ map Some result.items }
    ensures empty { homes.new.items ≡ [] }
    ensures capacity { vec_capacity homes.new ≡ vec_capacity homes.old }
{
    for home in homes.drain(..) {
        let Some(port) = home else { unreachable!() };
        ports.push_reserved(port);
    }
    ports
}

impl<L: StepLog> Device<L> {
    ghost use Rattle.std.specs.Prelude.{IfOk, IfErr};
    ghost use Rattle.event_device.specs.Home.{RefusesStop, Stops};

    /// Stops the device, with its control and all its ports, which must be at home, and reports what its scheduler did and where each
    /// event and each credit is that is left. It doesn't sweep. After a refusal the device comes back as it was.
    pub fn stop(self) -> Result<Report<L>, (NotStopped, Device<L>)>
        ensures stopped { IfOk result (Stops L.steps self) }
        ensures refused { IfErr result (λ e. RefusesStop e.0 self e.1) }
    {
        if let Some(port) = first_lent(&self.ports) {
            return Err((NotStopped::PortLent { port }, self));
        }
        if self.control.is_none() {
            return Err((NotStopped::ControlLent, self));
        }
        let Ok(room) = Vec::with_capacity(self.alloc, self.ports.len()) else {
            return Err((NotStopped::Memory, self));
        };
        let Device {
            recorder,
            control,
            claims,
            ports: mut homes,
            alloc,
        } = self;
        let Some(control) = control else {
            unreachable!()
        };
        let ports = gather(&mut homes, room);
        match recorder.stop(alloc, control, ports) {
            Ok(report) => Ok(report),
            Err((StopFault::Missing { .. }, ..)) => unreachable!(),
            Err((StopFault::Memory, recorder, control, ports)) => {
                put_all(&mut homes, ports);
                let device = Device {
                    recorder,
                    control: Some(control),
                    claims,
                    ports: homes,
                    alloc,
                };
                Err((NotStopped::Memory, device))
            }
        }
    }
}
