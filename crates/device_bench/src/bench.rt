//! A device, and the calls by which a burst of events goes through it.

ghost use Rattle.std.specs.Prelude.{◌≡◌, ◌+◌, ◌*◌, [], IfOk, OnOk};
ghost use Rattle.device_bench.specs.Rounds.{IsFresh, Moves, gifts_of, through};

use crate::burst::Burst;
use crate::case::{Case, SECOND};
use crate::config::bench_shape;
use crate::fault::BenchFault;
use event_device::{Deliveries, Device, Port, StepLog};
use evt_types::{Delivery, PackedEvent, Reply};
use std::alloc::Global;

/// How many events went by.
#[derive(Clone, Copy)]
pub struct Counts {
    /// So many new events were enqueued.
    pub entered: u64,
    /// So many were given to the worker.
    pub given: u64,
    /// So many were released.
    pub released: u64,
}

/// A device and its two ports, what is enqueued in a round, and what went by. Events go through it in bursts of one length.
#[derive(Drop)]
pub struct Bench<L: StepLog> {
    device: Device<L>,
    source: Port,
    worker: Port,
    /// The events of a burst.
    events: Vec<Reply>,
    /// A portion of releases.
    releases: Vec<Reply>,
    /// What the worker dequeued last.
    deliveries: Deliveries,
    case: Case,
    burst: Burst,
    pub counts: Counts,
}

/// The count once so many came as were wanted; anything else is a fault.
fn add(count: u64, came: usize, wanted: u64) -> Result<u64, BenchFault>
    ensures { IfOk result (λ n. (n ≡ count + came) × (came ≡ wanted)) }
{
    if came as u64 != wanted {
        return Err(BenchFault::Stuck);
    }
    count.checked_add(wanted).ok_or(BenchFault::Stuck)
}

/// Appends what each delivery is forwarded to the second queue as.
fn push_forwards(deliveries: &[Delivery], events: &mut Vec<Reply>) -> Result<(), BenchFault> {
    for delivery in deliveries {
        let event = delivery.packed();
        events.push(Reply {
            event: event.forwarded(SECOND, event.payload()),
        })?;
    }
    Ok(())
}

impl<L: StepLog> Bench<L> {
    /// A device of the case with this log, in which nothing has happened.
    pub fn new(alloc: Global, log: L, case: Case, burst: usize) -> Result<Bench<L>, BenchFault>
        requires { L.steps log ≡ [] }
        ensures { IfOk result (λ b. IsFresh b case burst) }
    {
        let burst = Burst::new(burst, case.room())?;
        let events = Vec::with_capacity(alloc, burst.length as usize)?;
        let releases = vec![in alloc; Reply {
            event: PackedEvent::release()
        }; burst.portion as usize]?;
        let shape = bench_shape(alloc, case)?;
        let Ok(mut device) = Device::with_log(alloc, log, shape) else {
            return Err(BenchFault::Device);
        };
        let (Some(source), Some(worker)) = (device.take_port(0), device.take_port(1)) else {
            return Err(BenchFault::Device);
        };
        Ok(Bench {
            device,
            source,
            worker,
            events,
            releases,
            deliveries: Deliveries::new(),
            case,
            burst,
            counts: Counts {
                entered: 0,
                given: 0,
                released: 0,
            },
        })
    }

    /// The source enqueues a burst of new events.
    fn enter(&mut self) -> Result<(), BenchFault>
        ensures { OnOk result (Moves self.old self.new self.old.burst.length 0 0) }
    {
        let first = self.counts.entered;
        self.events.clear();
        for place in 0..self.burst.length {
            self.events.push(Reply {
                event: self.case.event(first.wrapping_add(place)),
            })?;
        }
        let (taken, _) = self.source.enqueue_packed(&self.events);
        self.counts.entered = add(first, taken, self.burst.length)?;
        Ok(())
    }

    /// A sweep, which gives a portion to the worker.
    fn sweep(&mut self) -> Result<(), BenchFault>
        ensures { OnOk result (Moves self.old self.new 0 self.old.burst.portion 0) }
    {
        let swept = self.device.sweep()?;
        self.counts.given = add(self.counts.given, swept.given, self.burst.portion)?;
        Ok(())
    }

    /// The worker dequeues a portion.
    fn receive(&mut self)
        ensures { Moves self.old self.new 0 0 0 }
    {
        let most = self.burst.portion as usize;
        // After `Behind` the row is empty, which is a fault where it is counted.
        let _ = self.worker.dequeue_burst(most, &mut self.deliveries);
    }

    /// The worker forwards what it dequeues to the second queue.
    fn forward(&mut self) -> Result<(), BenchFault>
        ensures { OnOk result (Moves self.old self.new 0 0 0) }
    {
        self.receive();
        self.events.clear();
        push_forwards(self.deliveries.as_slice(), &mut self.events)?;
        let (taken, _) = self.worker.enqueue_packed(&self.events);
        add(0, taken, self.burst.portion)?;
        Ok(())
    }

    /// The worker releases what it dequeues.
    fn release(&mut self) -> Result<(), BenchFault>
        ensures { OnOk result (Moves self.old self.new 0 0 self.old.burst.portion) }
    {
        self.receive();
        add(0, self.deliveries.len(), self.burst.portion)?;
        let (taken, _) = self.worker.enqueue_packed(&self.releases);
        self.counts.released = add(self.counts.released, taken, self.burst.portion)?;
        Ok(())
    }

    /// The worker gets a portion of what is inside, and it leaves the device.
    fn pass_portion(&mut self) -> Result<(), BenchFault>
        ensures { OnOk result (Moves self.old self.new 0 (gifts_of self.old.case * self.old.burst.portion) self.old.burst.portion) }
    {
        self.sweep()?;
        if self.case.forwards {
            self.forward()?;
            self.sweep()?;
        }
        self.release()
    }

    /// All portions of a burst leave the device.
    fn pass_burst(&mut self) -> Result<(), BenchFault>
        ensures { OnOk result (Moves self.old self.new 0 (through self.old) self.old.burst.length) }
    {
        for _ in 0..self.burst.portions {
            self.pass_portion()?;
        }
        Ok(())
    }

    /// A burst goes through the device.
    fn round(&mut self) -> Result<(), BenchFault>
        ensures { OnOk result (Moves self.old self.new self.old.burst.length (through self.old) self.old.burst.length) }
    {
        self.enter()?;
        self.pass_burst()
    }

    /// So many rounds.
    pub fn rounds(&mut self, count: u64) -> Result<(), BenchFault>
        ensures { OnOk result (Moves self.old self.new (count * self.old.burst.length) (count * through self.old) (count * self.old.burst.length)) }
    {
        for _ in 0..count {
            self.round()?;
        }
        Ok(())
    }

    /// How many events are inside once the last releases were taken.
    pub fn last_sweep(&mut self) -> Result<usize, BenchFault>
        ensures { OnOk result (Moves self.old self.new 0 0 0) }
    {
        self.device.sweep()?;
        Ok(self.device.inside())
    }
}
