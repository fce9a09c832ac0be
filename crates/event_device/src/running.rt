//! A device that runs.

ghost use Rattle.std.specs.Prelude.{◌≡◌, ◌≤◌, Some, [], map, vec_len, vec_capacity};

use crate::control::Control;
use crate::fault::DeviceFault;
use crate::recorder::Recorder;
use crate::start::device;
use event_answers::{Swept, Turned};
use event_ports::Port;
use evt_types::Shape;
use flow_claims::Claims;
use sched_core::Core;
use std::alloc::Global;
use std::marker::Model;
use std::snapshot::Snapshot;
use std::thread::yield_now;
use step_log::{Counted, Memory, StepLog};
use step_tally::Tally;

/// A device that runs, with all of its parts that aren't lent: its recorder, its control, and its ports, each in the home of its
/// number. A port is lent to the thread that uses it, and comes back before the stop.
#[derive(Drop)]
pub struct Device<L: StepLog = Tally<Counted>> {
    pub(crate) recorder: Recorder<L>,
    pub(crate) control: Option<Control>,
    /// Those of the control, which may be lent.
    pub(crate) claims: Snapshot<Claims>,
    pub(crate) ports: Vec<Option<Port>>,
    pub(crate) alloc: Global,
}

impl<L: StepLog> Model for Device<L> {
    ghost use Rattle.event_device.specs.Parts.{IsOne, Parts};

    ghost Value = { Parts };

    ghost view = { λ a. record { recorded = a.recorder; control = a.control; claims = a.claims.value; ports = a.ports.items } };

    ghost invariant = { λ a. IsOne (record { recorded = a.recorder; control = a.control; claims = a.claims.value; ports = a.ports.items }) };
}

/// Puts all ports into their homes, of which none is there yet.
pub(crate) fn put_all(homes: &mut Vec<Option<Port>>, ports: Vec<Port>)
    requires empty { homes.old.items ≡ [] }
    requires room { vec_len ports ≤ vec_capacity homes.old }
    ensures { homes.new.items ≡ map Some ports.items }
{
    for port in ports {
        homes.push_reserved(Some(port));
    }
}

impl Device<Tally<Counted>> {
    ghost use Rattle.std.specs.Prelude.{◌≡◌, IfOk, IfErr};
    ghost use Rattle.event_device.specs.Fault.{shape_in};
    ghost use Rattle.event_device.specs.Start.{IsFresh};

    /// Makes a device of this configuration, and all of its parts are at home. Its log counts the steps by queue and by lane, and
    /// keeps none, so that it may run for as long as it likes. After a refusal the configuration comes back.
    pub fn new(alloc: Global, shape: Shape) -> Result<Device<Tally<Counted>>, DeviceFault>
        ensures fresh { IfOk result (IsFresh shape) }
        ensures back { IfErr result (λ e. shape_in e ≡ shape) }
    {
        match Tally::new(alloc, Counted::new()) {
            Ok(log) => Device::with_log(alloc, log, shape),
            Err(_) => Err(DeviceFault::Memory(shape)),
        }
    }
}

impl<L: StepLog> Device<L> {
    ghost use Rattle.std.specs.Prelude.{◌≡◌, ◌<◌, ◌^◌, [], IfOk, IfErr, IsErr};
    ghost use Rattle.credit_pool.specs.Accounts.{free_of};
    ghost use Rattle.event_scheduler.specs.Swept.{Sweeps};
    ghost use Rattle.event_device.specs.Fault.{shape_in};
    ghost use Rattle.event_device.specs.Lent.{Keeps, SweepsAll, SweepsSome, with_look};
    ghost use Rattle.event_device.specs.Listed.{turned_all};
    ghost use Rattle.event_device.specs.Parts.{device_of};
    ghost use Rattle.event_device.specs.Start.{IsFresh};
    ghost use Rattle.transcripts.specs.Replies.{new_count};
    ghost use Rattle.transcripts.specs.Transcript as transcripts;

    /// Makes a device of this configuration with this log, which has no step yet. All of its parts are at home. After a refusal the
    /// configuration comes back.
    pub fn with_log(alloc: Global, log: L, shape: Shape) -> Result<Device<L>, DeviceFault>
        requires { L.steps log ≡ [] }
        ensures fresh { IfOk result (IsFresh shape) }
        ensures back { IfErr result (λ e. shape_in e ≡ shape) }
    {
        // To read these makes known that they are within their limits.
        let _limits = (shape.bound(), shape.lanes());
        let _queues = shape.queues();
        let Ok(mut homes) = Vec::with_capacity(alloc, shape.ports().len()) else {
            return Err(DeviceFault::Memory(shape));
        };
        let (scheduler, ports, control) = device(alloc, shape)?;
        put_all(&mut homes, ports);
        Ok(Device {
            recorder: Recorder::begin_with(alloc, log, scheduler),
            claims: Snapshot::of(&control.claims),
            control: Some(control),
            ports: homes,
            alloc,
        })
    }

    /// Asks for room in the log for so many steps more, and for those of a sweep, so that a log that grows doesn't move as it grows. It is
    /// a hint, of which no other promise speaks: nothing that is seen of the device changes, and a sweep makes the room that it needs.
    /// After want of memory the log has the room that it had.
    pub fn make_log_room(&mut self, steps: usize) -> Result<(), Memory>
        ensures same { self.new ≡ self.old }
        ensures device { device_of self.new ≡ device_of self.old }
    {
        self.recorder.make_log_room(steps)
    }

    /// One sweep of the scheduler. After want of memory nothing has changed.
    pub fn sweep(&mut self) -> Result<Swept, Memory>
        ensures sweeps { IfOk result (λ n. Sweeps n self.old.recorded.sight self.old.recorded.log self.new.recorded.sight self.new.recorded.log) }
        ensures memory { IsErr result → self.new ≡ self.old }
        ensures others { Keeps self.old self.new }
        ensures device { device_of self.new ≡ device_of self.old }
    {
        self.recorder.sweep()
    }

    /// Sweeps at most so many times, until nothing is inside after a sweep, and lets other threads run after each: how many events are
    /// inside then.
    pub fn sweep_all(&mut self, most: u64) -> Result<usize, Memory>
        ensures sweeps { IfOk result (λ left. SweepsAll most left self.old self.new) }
        ensures memory { IsErr result → SweepsSome most self.old self.new }
        ensures device { device_of self.new ≡ device_of self.old }
    {
        for _swept in 0..most {
            self.sweep()?;
            if self.inside() == 0 {
                return Ok(0);
            }
            yield_now();
        }
        Ok(self.inside())
    }

    /// The log, to be read.
    pub fn log(&self) -> &L
        ensures { L.steps result.now ≡ self.now.recorded.log }
    {
        self.recorder.log()
    }

    /// The NEWs that were turned away so far, in the order in which they were taken.
    pub fn turned(&self) -> &[Turned]
        ensures { result.now ≡ turned_all self.now.recorded.log }
    {
        self.recorder.turned()
    }

    /// How many events wait, are kept or are unanswered.
    pub fn inside(&self) -> usize
        ensures value { result ≡ transcripts.inside self.now.recorded.sight.core.shape self.now.recorded.log }
        ensures few { result < 2 ^ 63 }
    {
        self.recorder.inside()
    }

    /// The free credits, by one look at the pool, and those in the scheduler's pocket.
    pub fn credits(&mut self) -> (u64, u64)
        ensures looked { self.new ≡ with_look self.new.recorded.sight.account.last self.old }
        ensures device { device_of self.new ≡ device_of self.old }
        ensures free { result.0 ≡ free_of self.new.recorded.sight.account.last }
        ensures own { result.1 ≡ self.old.recorded.sight.pocket }
    {
        self.recorder.scheduler.credits()
    }

    /// The scheduling core, to be read.
    pub fn core(&self) -> &Core
        ensures { result.now ≡ self.now.recorded.sight.core }
    {
        self.recorder.scheduler.core()
    }

    /// How many events were accepted as new.
    pub fn accepted_new(&self) -> u64
        ensures { result ≡ new_count self.now.recorded.log }
    {
        self.recorder.accepted_new()
    }
}
