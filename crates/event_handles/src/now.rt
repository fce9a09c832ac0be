//! What a hub says of a device as it is now.

ghost use Rattle.event_handles.specs.Now.{SaysCredits, SaysPort, SaysQueue, SaysShares};

use crate::errno::{EINVAL, ENODEV};
use crate::hub::Hub;
use crate::report::fill;
use crate::sweep_counts::{SweepCounts, port_count};
use event_device::Device;
use evt_types::{MAX_LANES, MAX_PORTS, MAX_QUEUES};

/// Where the numbers of the ports end, which come after those of the queues.
const PORTS_END: usize = MAX_QUEUES + MAX_PORTS;

/// The number of the device's credits.
const OF_CREDITS: usize = MAX_QUEUES + MAX_LANES;

/// What waits in the queue at each level, and how many of its events are unanswered and kept.
fn queue_now(device: &Device, queue: usize, out: &mut [u64]) -> i64
    ensures { SaysQueue device.now queue out.old out.new result }
{
    let core = device.core();
    if queue >= core.shape().queues().len() {
        return EINVAL;
    }
    let numbers = [
        core.waiting_at(queue, 0) as u64,
        core.waiting_at(queue, 1) as u64,
        core.waiting_at(queue, 2) as u64,
        core.waiting_at(queue, 3) as u64,
        core.unanswered_of(queue) as u64,
        core.kept_len(queue) as u64,
    ];
    fill(&numbers, out)
}

/// How many events the last sweep gave to the port's lane.
fn port_now(device: &Device, sweeps: &SweepCounts, port: usize, out: &mut [u64]) -> i64
    ensures { SaysPort device.now sweeps.now port out.old out.new result }
{
    if port >= port_count(device) {
        return EINVAL;
    }
    let given = if sweeps.gave {
        sweeps.sent[port].saturating_sub(sweeps.before[port])
    } else {
        0
    };
    fill(&[given], out)
}

/// The free credits, and the scheduler's own.
fn credits_now(device: &mut Device, out: &mut [u64]) -> i64
    ensures { SaysCredits out.old out.new result device.old device.new }
{
    let (free, own) = device.credits();
    fill(&[free, own], out)
}

/// How many of the queue's events were given to the port's lane, and how many slots of the queue are pinned to it.
fn shares_now(device: &Device, queue: usize, port: usize, out: &mut [u64]) -> i64
    ensures { SaysShares device.now queue port out.old out.new result }
{
    let core = device.core();
    if queue >= core.shape().queues().len() || port >= port_count(device) {
        return EINVAL;
    }
    let given = device.log().given(queue, port);
    fill(&[given, core.pinned_slots(queue, port) as u64], out)
}

impl Hub {
    ghost use Rattle.event_handles.specs.Now.{IsNow, IsShared};

    /// Writes what is so now to the front of the array: 0. Below 32 of a queue how many events wait at the levels 0 to 3, are unanswered
    /// and are kept; below 64 of a port how many events the last sweep gave to its lane; of 192 how many credits are free, by one look,
    /// and how many are in the scheduler's pocket. -22 where the array is shorter, or there is no such queue or port or number. -19
    /// where no device runs.
    pub fn now(&mut self, what: usize, out: &mut [u64]) -> i64
        ensures { IsNow self.old what self.new out.old out.new result }
    {
        let Some(device) = &mut self.device else {
            return ENODEV;
        };
        if what < MAX_QUEUES {
            return queue_now(device, what, out);
        }
        if what < PORTS_END {
            return port_now(device, &self.sweeps, what - MAX_QUEUES, out);
        }
        if what == OF_CREDITS {
            return credits_now(device, out);
        }
        EINVAL
    }

    /// Writes to the front of the array how many of the queue's events were given to the port's lane, and how many slots of the queue
    /// are pinned to it: 0. -22 where the array is shorter, or there is no such queue or port. -19 where no device runs.
    pub fn shares(&self, queue: usize, port: usize, out: &mut [u64]) -> i64
        ensures { IsShared self.now queue port out.old out.new result }
    {
        match &self.device {
            Some(device) => shares_now(device, queue, port, out),
            None => ENODEV,
        }
    }
}
