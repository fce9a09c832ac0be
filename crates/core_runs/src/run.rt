//! The core with the log of its steps.

use crate::device::Device;
use crate::fault::RunFault;
use crate::moves::{Made, Move, Packet};
use arrayvec::ArrayVec;
use core_oracle::{PlainOffer, PlainTook};
use evt_types::{
    Delivery, Event, KeptEvent, MAX_FORWARDS, MAX_LANES, MAX_QUEUES, MAX_SWEEP, Op, PackedEvent,
    Reply, Step,
};
use sched_core::{Core, Skips, Took, Turn};
use std::alloc::{AllocError, Global};
use std::marker::Model;

/// What became of a reply, in the plain core's words.
fn plain_took(took: Took) -> PlainTook {
    match took {
        Took::Accepted => PlainTook::Accepted,
        Took::Kept => PlainTook::Kept,
        Took::Released => PlainTook::Released,
        Took::Turned => PlainTook::Turned,
    }
}

/// What the lane is proposed or given, in the plain core's words.
fn plain_offer(lane: usize, delivery: &Delivery) -> PlainOffer {
    PlainOffer {
        lane,
        queue: delivery.queue(),
        number: delivery.number(),
        event: delivery.event(),
    }
}

/// How many replies a row has at most.
pub(crate) const MAX_ROW: usize = 8;

/// The replies of a row, of one flow after the other.
fn alike(first: Packet, count: usize) -> ArrayVec<Reply, MAX_ROW> {
    let mut replies = ArrayVec::new();
    for index in 0..count.min(MAX_ROW) {
        let packet = first.of_flow(first.flow.wrapping_add(index as u8));
        let event = PackedEvent::of(&packet.event());
        let _ = replies.try_push(Reply { event });
    }
    replies
}

/// The lane, so many times.
fn repeated(lane: usize, count: usize) -> ArrayVec<usize, 32> {
    let mut lanes = ArrayVec::new();
    for _ in 0..count {
        let _ = lanes.try_push(lane);
    }
    lanes
}

/// By which calls a core takes replies and gives events.
#[derive(Clone, Copy)]
pub(crate) enum Calls {
    /// By those of a device: a NEW and an answer are taken by a call of their own each, replies that are alike in rows, and events are given
    /// in runs, or dealt among several lanes.
    OfDevice,
    /// By those of one reply and of one event.
    Single,
}

/// A core, what its sweep passes over, and the log of all steps that it has made.
#[derive(Drop)]
pub(crate) struct Run {
    pub(crate) alloc: Global,
    calls: Calls,
    pub(crate) core: Core,
    skips: Skips,
    /// Whose turn it is, where the last run said so and nothing else has happened since.
    turn: Option<Turn>,
    /// What was given last, and the lane of each.
    run: ArrayVec<Delivery, 32>,
    to: ArrayVec<usize, 32>,
    pub(crate) log: Vec<Step>,
}

impl Model for Run {
    ghost use Rattle.std.specs.Prelude.{IfSome};
    ghost use Rattle.sched_core.specs.Runs.{IsTurn};
    ghost use Rattle.transcripts.specs.Standing.{View};

    ghost Value = { View };

    ghost view = { λ a. a.core };

    ghost invariant = { λ a. IfSome a.turn (IsTurn a.core a.skips) };
}

impl Run {
    /// A core in which nothing has happened.
    pub(crate) fn new(alloc: Global, device: &Device, calls: Calls) -> Result<Run, RunFault> {
        match Core::new(alloc, device.shape(alloc)?) {
            Ok(core) => Ok(Run {
                alloc,
                calls,
                core,
                skips: Skips::none(),
                turn: None,
                run: ArrayVec::new(),
                to: ArrayVec::new(),
                log: Vec::new(alloc),
            }),
            Err((memory, _)) => Err(RunFault::from(memory)),
        }
    }

    /// What comes of a move.
    pub(crate) fn make(&mut self, step: Move) -> Result<Made, RunFault> {
        match step {
            Move::Reply { lane, packet } => self.take(lane, packet.event()),
            Move::Replies {
                lane,
                packet,
                count,
            } => self.take_row(lane, packet, count),
            Move::Give { most } => match self.calls {
                Calls::OfDevice => self.give_more(most),
                Calls::Single => self.give(),
            },
            Move::Bounce => self.bounce(),
            Move::Shut => {
                self.turn = None;
                self.log.reserve(1)?;
                self.core.shut(&mut self.log);
                Ok(Made::Nothing)
            }
            Move::NextSweep => {
                self.turn = None;
                self.skips = Skips::none();
                Ok(Made::Nothing)
            }
        }
    }

    /// Takes a reply, where it may be taken.
    fn take(&mut self, lane: usize, event: Event) -> Result<Made, RunFault> {
        let reply = Reply {
            event: PackedEvent::of(&event),
        };
        if lane >= self.core.shape().lanes() || !self.core.takes(lane, &reply) {
            return Ok(Made::Took(None));
        }
        self.turn = None;
        // What is enough for a sweep is enough for a reply.
        self.log.reserve(self.core.log_room())?;
        let took = match self.calls {
            Calls::Single => self.core.take(lane, reply, &mut self.log),
            Calls::OfDevice => {
                if reply.event.is_new() {
                    self.core.take_new(lane, &reply, &mut self.log)
                } else {
                    self.core.take_answer(lane, &reply, &mut self.log)
                }
            }
        };
        Ok(Made::Took(Some(plain_took(took))))
    }

    /// Takes these replies from the first on, as many as go in a row.
    fn take_row(&mut self, lane: usize, packet: Packet, count: usize) -> Result<Made, RunFault> {
        if lane >= self.core.shape().lanes() {
            return Ok(Made::TookRow(0));
        }
        self.turn = None;
        let replies = alike(packet, count);
        let row = replies.as_slice();
        // An answer has two steps at most.
        self.log.reserve(2 * MAX_ROW)?;
        let taken = match packet.op {
            Op::New => self.core.take_news(lane, row, &mut self.log),
            Op::Forward => self.core.take_forwards(lane, row, &mut self.log),
            Op::Release => self.core.take_releases(lane, row, &mut self.log),
            Op::ForwardMore => 0,
        };
        Ok(Made::TookRow(taken))
    }

    /// Gives what is proposed, and what is chosen after it: so many events at most. Where several lanes are open they are dealt among
    /// these, and else given in a run.
    fn give_more(&mut self, most: usize) -> Result<Made, RunFault> {
        if self.deal(most)? {
            return Ok(self.given(0));
        }
        self.give_run(most)
    }

    /// Deals what is proposed and what is chosen after it among the open lanes, where it is worth that: whether it did.
    fn deal(&mut self, most: usize) -> Result<bool, RunFault> {
        self.log.reserve(self.core.shape().sweep() as usize)?;
        let Some(offer) = self.core.propose_next(None, &self.skips) else {
            return Ok(false);
        };
        let Some(among) = self.core.deals(&offer, &self.skips) else {
            return Ok(false);
        };
        self.turn = None;
        self.to.clear();
        self.core.deal_row(
            &offer,
            among,
            most,
            &mut self.skips,
            &mut self.run,
            &mut self.to,
            &mut self.log,
        );
        Ok(!self.run.is_empty())
    }

    /// Gives what is proposed, and in a run what is chosen after it.
    fn give_run(&mut self, most: usize) -> Result<Made, RunFault> {
        self.log.reserve(self.core.shape().sweep() as usize)?;
        let turn = self.turn;
        self.turn = None;
        let Some(offer) = self.core.propose_next(turn, &self.skips) else {
            return Ok(Made::Gave(None));
        };
        let lane = offer.lane;
        self.turn = self
            .core
            .give_run(offer, most, &mut self.skips, &mut self.run, &mut self.log);
        self.to = repeated(lane, self.run.len());
        Ok(self.given(0))
    }

    /// What was given last at this place, counted from 0.
    pub(crate) fn given(&self, place: usize) -> Made {
        let lane = self.to.as_slice().get(place);
        let delivery = self.run.as_slice().get(place);
        match (lane, delivery) {
            (Some(lane), Some(delivery)) => Made::Gave(Some(plain_offer(*lane, delivery))),
            _ => Made::Gave(None),
        }
    }

    /// Whether what was given last went to several lanes.
    pub(crate) fn has_dealt(&self) -> bool {
        let lanes = self.to.as_slice();
        lanes.iter().any(|lane| lanes.first() != Some(lane))
    }

    /// How many events were given last.
    pub(crate) fn run_len(&self) -> usize {
        self.run.len()
    }

    /// Whether it is known whose turn it is.
    pub(crate) fn knows_turn(&self) -> bool {
        self.turn.is_some()
    }

    /// Gives what is proposed, and nothing after it.
    fn give(&mut self) -> Result<Made, RunFault> {
        self.turn = None;
        let Some(offer) = self.core.propose(&self.skips) else {
            return Ok(Made::Gave(None));
        };
        self.log.reserve(1)?;
        self.core.give(offer, &mut self.log);
        let queue = offer.delivery.queue();
        if queue < MAX_QUEUES && self.skips.has_quota(queue, MAX_SWEEP) {
            self.skips.given(queue);
        }
        Ok(Made::Gave(Some(plain_offer(offer.lane, &offer.delivery))))
    }

    /// The lane of what is proposed has no room.
    fn bounce(&mut self) -> Result<Made, RunFault> {
        let turn = self.turn;
        self.turn = None;
        let Some(offer) = self.core.propose_next(turn, &self.skips) else {
            return Ok(Made::Bounced(None));
        };
        self.log.reserve(1)?;
        self.core.bounce(offer.lane, &mut self.log);
        if offer.lane < MAX_LANES {
            self.skips.bounced(offer.lane);
        }
        Ok(Made::Bounced(Some(plain_offer(offer.lane, &offer.delivery))))
    }

    /// The events that wait in the queue.
    pub(crate) fn waiting(&self, queue: usize) -> Result<Vec<Delivery>, RunFault> {
        let mut waiting = Vec::new(self.alloc);
        if queue < self.core.shape().queues().len() {
            waiting.reserve(self.core.waiting_len(queue))?;
            self.core.list_waiting(queue, &mut waiting);
        }
        Ok(waiting)
    }

    /// The queue's kept events.
    pub(crate) fn kept(&self, queue: usize) -> Result<Vec<KeptEvent>, RunFault> {
        let mut kept = Vec::new(self.alloc);
        if queue < self.core.shape().queues().len() {
            let places = self.core.places_len(queue);
            let room = places.checked_mul(MAX_FORWARDS);
            kept.reserve(room.ok_or(AllocError)?)?;
            self.core.list_kept(queue, &mut kept);
        }
        Ok(kept)
    }

    /// How many places of the queue's hand-out haven't left.
    pub(crate) fn places_len(&self, queue: usize) -> usize {
        if queue < self.core.shape().queues().len() {
            self.core.places_len(queue)
        } else {
            0
        }
    }

    /// How many events wait in the queue.
    pub(crate) fn waiting_len(&self, queue: usize) -> usize {
        if queue < self.core.shape().queues().len() {
            self.core.waiting_len(queue)
        } else {
            0
        }
    }
}
