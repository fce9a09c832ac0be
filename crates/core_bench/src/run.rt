//! A core, the log of the steps of its last call, and the lanes of what it gave.

ghost use Rattle.std.specs.Prelude.{◌≤◌, ◌<◌};
ghost use Rattle.evt_types.specs.Plan.{lanes_of};

use crate::asked::{Asked, MAX_HELD};
use crate::device::{SOURCE, bench_shape};
use crate::fault::BenchFault;
use arrayvec::ArrayVec;
use evt_types::{Delivery, Event, Op, PackedEvent, Reply, Step};
use sched_core::{Core, Skips, Took};
use std::alloc::Global;
use std::collections::VecDeque;
use std::marker::Model;

/// A core, and the log of the steps of its last call: it is emptied before each call, so no time goes into its growth.
#[derive(Drop)]
pub struct Run {
    pub core: Core,
    log: Vec<Step>,
    /// What was given last, and where that was dealt the lane of each.
    run: ArrayVec<Delivery, 32>,
    to: ArrayVec<usize, 32>,
    /// The lane of each event that the workers hold, in the order in which they were given.
    lanes: VecDeque<usize>,
    /// The last one of the flows of the workers' events, which are counted from 0.
    last_flow: u8,
    /// The flow of the next one of these events that is brought in.
    next_flow: u8,
    /// The last one of the queues that these events go to, which are counted from 0.
    last_queue: u8,
    /// The queue of the next one of them.
    next_queue: u8,
}

impl Model for Run {
    ghost use Rattle.std.specs.Prelude.{vec_capacity};
    ghost use Rattle.transcripts.specs.Standing.{View};
    ghost use Rattle.core_bench.specs.Run.{IsReady};

    ghost Value = { View };

    ghost view = { λ a. a.core };

    ghost invariant = { λ a. IsReady a.core a.lanes.items (vec_capacity a.log) };
}

/// A number's next one, where the last one is followed by 0.
fn next(number: u8, last: u8) -> u8 {
    if number < last { number + 1 } else { 0 }
}

/// A new event of the flow for the queue.
pub fn new_event(flow: u8, queue: u8) -> PackedEvent {
    PackedEvent::of(&Event {
        flow: u32::from(flow),
        sub_type: 0,
        event_type: 0,
        op: Op::New,
        queue,
        priority: 128,
        impl_opaque: 0,
        payload: u64::from(flow),
    })
}

impl Run {
    /// A run of the device that is asked for, in which nothing has happened.
    pub fn new(alloc: Global, asked: Asked) -> Result<Run, BenchFault>
        requires { (1 ≤ asked.flows) × (1 ≤ asked.busy) }
    {
        let shape = bench_shape(alloc, asked.queues, asked.ports)?;
        match Core::new(alloc, shape) {
            Ok(core) => {
                // Room for the steps of any one call.
                let gifts = core.shape().sweep() as usize;
                let log = Vec::with_capacity(alloc, core.log_room().max(gifts))?;
                let lanes = VecDeque::with_capacity(alloc, MAX_HELD as usize)?;
                Ok(Run {
                    core,
                    log,
                    run: ArrayVec::new(),
                    to: ArrayVec::new(),
                    lanes,
                    last_flow: asked.flows - 1,
                    next_flow: 0,
                    last_queue: asked.busy - 1,
                    next_queue: 0,
                })
            }
            Err((memory, _)) => Err(BenchFault::from(memory)),
        }
    }

    /// The source's new event is taken.
    pub fn bring(&mut self, event: PackedEvent) -> Result<(), BenchFault> {
        let reply = Reply { event };
        // To count the lanes makes known that there is one.
        let _ = self.core.shape().lanes();
        if !self.core.takes(SOURCE, &reply) {
            return Err(BenchFault::Stuck);
        }
        self.log.clear();
        // As a device does, it is asked which call takes the reply.
        if reply.event.is_new() {
            return match self.core.take_new(SOURCE, &reply, &mut self.log) {
                Took::Accepted => Ok(()),
                _ => Err(BenchFault::Stuck),
            };
        }
        Err(BenchFault::Stuck)
    }

    /// A new event of the next flow is taken, for the next queue.
    pub fn enter(&mut self) -> Result<(), BenchFault> {
        let event = new_event(self.next_flow, self.next_queue);
        self.next_flow = next(self.next_flow, self.last_flow);
        self.next_queue = next(self.next_queue, self.last_queue);
        self.bring(event)
    }

    /// The release of the workers' oldest unanswered event is taken.
    pub fn release(&mut self) -> Result<(), BenchFault> {
        let Some(lane) = self.lanes.pop_front() else {
            return Err(BenchFault::Stuck);
        };
        let reply = Reply {
            event: PackedEvent::release(),
        };
        if !self.core.takes(lane, &reply) {
            return Err(BenchFault::Stuck);
        }
        self.log.clear();
        let _ = self.core.take_answer(lane, &reply, &mut self.log);
        Ok(())
    }

    /// What the core proposes is given, and what it chooses after it, so many events at most: as in a sweep they are dealt among the open
    /// lanes where it is worth that, and else go in a run to one lane, which is the answer. Ports serve the device, so that a sweep doesn't
    /// ask whose turn it is.
    pub fn give(&mut self, most: usize, skips: &mut Skips) -> Result<Option<usize>, BenchFault> {
        let Some(offer) = self.core.propose_next(None, skips) else {
            return Err(BenchFault::Stuck);
        };
        self.log.clear();
        let Some(among) = self.core.deals(&offer, skips) else {
            let lane = offer.lane;
            let _ = self
                .core
                .give_run(offer, most, skips, &mut self.run, &mut self.log);
            return Ok(Some(lane));
        };
        self.to.clear();
        self.core.deal_row(
            &offer,
            among,
            most,
            skips,
            &mut self.run,
            &mut self.to,
            &mut self.log,
        );
        Ok(None)
    }

    /// The worker's lane holds one event more.
    fn hold(&mut self, lane: usize) -> Result<(), BenchFault>
        requires { lane < lanes_of self.old.shape }
    {
        match self.lanes.push_back(lane) {
            Ok(()) => Ok(()),
            Err(_) => Err(BenchFault::Memory),
        }
    }

    /// The workers' lanes hold what was given last, in a run to this one or dealt to several: how many events that were.
    fn note(&mut self, run: Option<usize>) -> Result<usize, BenchFault> {
        let count = self.run.len();
        for place in 0..count {
            let dealt = self.to.as_slice().get(place).copied();
            match run.or(dealt) {
                Some(lane) if lane < self.core.shape().lanes() => self.hold(lane)?,
                _ => return Err(BenchFault::Stuck),
            }
        }
        Ok(count)
    }

    /// So many events are given to the workers, as by a sweep: at its end the core is asked for one more.
    pub fn hand_out(&mut self, count: u64) -> Result<(), BenchFault> {
        let mut skips = Skips::none();
        let mut left = count as usize;
        // A run gives one event at least.
        for _ in 0..count {
            if left == 0 {
                break;
            }
            let lane = self.give(left, &mut skips)?;
            left = left.saturating_sub(self.note(lane)?);
        }
        // Where events wait it proposes one, which isn't given.
        let _ = self.core.propose_next(None, &skips);
        Ok(())
    }
}
