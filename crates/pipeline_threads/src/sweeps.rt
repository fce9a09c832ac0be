//! The scheduler's part of a run.

ghost use Rattle.std.specs.Prelude.{◌≡◌, ℕ, IfOk, OnOk};
ghost use Rattle.event_ports.specs.Counts.{plus};
ghost use Rattle.event_device.specs.Lent.{Keeps};
ghost use Rattle.event_device.specs.Parts.{device_of};
ghost use Rattle.pipeline_threads.specs.Run.{IsDone, SweepsMany};

use crate::gate::Gate;
use crate::patience::Patience;
use event_device::{Device, Memory, StepLog};
use pipeline_laws::Entry;
use std::sync::Wait;

/// Sweeps until the whole trace was accepted and none of it is inside: how often. A count that reaches 2^64 - 1 stays there.
pub(crate) fn sweep_all<R: Wait, G: Gate, L: StepLog>(
    rt: &R,
    gate: &G,
    device: &mut Device<L>,
    trace: &[Entry],
) -> Result<u64, Memory>
    ensures others { Keeps device.old device.new }
    ensures device { device_of device.new ≡ device_of device.old }
    ensures done { OnOk result (IsDone trace.now device.new) }
    ensures sweeps { IfOk result (λ n. (k : ℕ) × (n ≡ plus 0 k) × SweepsMany k device.old device.new) }
{
    let mut patience = Patience::new();
    let mut sweeps = 0u64;
    for _ in rt.forever() {
        let swept = device.sweep()?;
        sweeps = sweeps.saturating_add(1);
        let accepted = device.accepted_new();
        let inside = device.inside();
        gate.swept(accepted, inside);
        if accepted == trace.len() as u64 && inside == 0 {
            return Ok(sweeps);
        }
        if swept.taken == 0 && swept.given == 0 {
            patience.wait();
        } else {
            patience = Patience::new();
        }
    }
    unreachable!()
}
