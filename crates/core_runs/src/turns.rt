//! The turns of a known run: what is done with a core and must come of it, and what must be read of it then.

use crate::device::Device;
use crate::fault::RunFault;
use crate::moves::{Made, Move, Packet};
use crate::run::{Calls, Run};
use core_oracle::{PlainOffer, PlainTook};
use evt_types::{Outcome, Source, Step};
use std::alloc::Global;

/// A run of which is known what comes of each turn: of those that it begins with, as others may too, and of its own.
#[derive(Clone, Copy)]
pub(crate) struct KnownRun {
    pub(crate) name: &'static str,
    pub(crate) device: Device,
    pub(crate) opening: &'static [Turn],
    pub(crate) turns: &'static [Turn],
}

/// One event is given.
const GIVE: Move = Move::Give { most: 1 };

/// A turn, and what must come of it.
#[derive(Clone, Copy, Debug)]
pub(crate) enum Turn {
    /// The lane's reply is taken so, or not at all.
    Reply(usize, Packet, Option<PlainTook>),
    /// For the lane the event of this number of its queue is proposed, and given.
    Give(usize, u64, Packet),
    /// It is proposed, and the lane's ring has no room for it.
    Bounce(usize, u64, Packet),
    /// Nothing is proposed.
    GiveNone,
    /// New events are turned away from now on.
    Shut,
    /// A sweep begins.
    NextSweep,
    /// So many events are inside.
    Inside(usize),
    /// A sweep's steps fit into so much room.
    LogRoom(usize),
    /// So many steps are logged.
    LogLen(usize),
    /// From the step of this place on, these are logged.
    Logged(usize, &'static [Logged]),
    /// Just these events wait in the queue, under their numbers.
    Waiting(usize, &'static [(u64, Packet)]),
    /// So many places of the first queue's hand-out haven't left, and what it keeps are these, under their numbers.
    Kept(usize, &'static [(u64, Packet)]),
}

/// A step that is logged.
#[derive(Clone, Copy, Debug)]
pub(crate) enum Logged {
    /// The event's queue accepts it as a new event of the first lane.
    Entered(Packet),
    /// The event's queue accepts it as what the first queue's event of this number was forwarded as.
    PassedOn(u64, Packet),
    /// The lane is given the event of this number of the queue.
    Given(usize, usize, u64),
    /// The lane's oldest event is forwarded as this one.
    Forwarded(usize, Packet),
    /// The lane's oldest event is released.
    Released(usize),
    /// The new event of the first lane is turned away.
    Turned(Packet),
    /// The core is shut.
    Shut,
}

/// The event's queue accepts it.
fn accepted(packet: Packet, source: Source) -> Step {
    Step::Accept {
        queue: usize::from(packet.queue),
        event: packet.event(),
        source,
    }
}

impl Logged {
    /// The step.
    fn step(&self) -> Step {
        match *self {
            Logged::Entered(packet) => accepted(packet, Source::New { lane: 0 }),
            Logged::PassedOn(number, packet) => accepted(packet, Source::Of { queue: 0, number }),
            Logged::Given(lane, queue, number) => Step::Give {
                lane,
                queue,
                number,
            },
            Logged::Forwarded(lane, packet) => done(lane, Outcome::Forwarded(packet.event())),
            Logged::Released(lane) => done(lane, Outcome::Released),
            Logged::Turned(packet) => Step::Turned {
                lane: 0,
                event: packet.event(),
            },
            Logged::Shut => Step::Shut,
        }
    }
}

/// The lane's oldest event is answered so.
fn done(lane: usize, outcome: Outcome) -> Step {
    Step::Done { lane, outcome }
}

/// The event of this number of its queue is proposed for the lane.
fn proposed(lane: usize, number: u64, packet: Packet) -> Option<PlainOffer> {
    Some(PlainOffer {
        lane,
        queue: usize::from(packet.queue),
        number,
        event: packet.event(),
    })
}

impl Run {
    /// Makes the turns. What comes of each must be as known.
    fn play(&mut self, turns: &[Turn]) -> Result<(), RunFault> {
        for turn in turns {
            self.turn(turn)?;
        }
        Ok(())
    }

    /// Makes the turn. What comes of it must be as known.
    fn turn(&mut self, turn: &Turn) -> Result<(), RunFault> {
        let (step, wanted) = match *turn {
            Turn::Reply(lane, packet, took) => (Move::Reply { lane, packet }, Made::Took(took)),
            Turn::Give(lane, number, packet) => {
                (GIVE, Made::Gave(proposed(lane, number, packet)))
            }
            Turn::Bounce(lane, number, packet) => {
                (Move::Bounce, Made::Bounced(proposed(lane, number, packet)))
            }
            Turn::GiveNone => (GIVE, Made::Gave(None)),
            Turn::Shut => (Move::Shut, Made::Nothing),
            Turn::NextSweep => (Move::NextSweep, Made::Nothing),
            _ => return self.must_be_read(turn),
        };
        let made = self.make(step)?;
        if made == wanted {
            return Ok(());
        }
        Err(RunFault::Otherwise(format!(in self.alloc;
            "{step:?} made {made:?}, and not {wanted:?}"
        )?))
    }

    /// What is read of the core must be as known.
    fn must_be_read(&self, turn: &Turn) -> Result<(), RunFault> {
        let is_so = match *turn {
            Turn::Inside(count) => self.core.inside() == count,
            Turn::LogRoom(room) => self.core.log_room() == room,
            Turn::LogLen(count) => self.log.len() == count,
            Turn::Logged(start, steps) => self.has_logged(start, steps),
            Turn::Waiting(queue, waiting) => self.has_waiting(queue, waiting)?,
            Turn::Kept(places, kept) => self.has_kept(places, kept)?,
            _ => true,
        };
        if is_so {
            return Ok(());
        }
        let (inside, log) = (self.core.inside(), &self.log);
        Err(RunFault::Otherwise(format!(in self.alloc;
            "not {turn:?}: {inside} are inside after {log:?}"
        )?))
    }

    /// Whether from the step of this place on these are logged.
    fn has_logged(&self, start: usize, wanted: &[Logged]) -> bool {
        self.log.get(start..).is_some_and(|steps| {
            steps.len() == wanted.len()
                && steps
                    .iter()
                    .zip(wanted)
                    .all(|(step, logged)| *step == logged.step())
        })
    }

    /// Whether just these events wait in the queue.
    fn has_waiting(&self, queue: usize, wanted: &[(u64, Packet)]) -> Result<bool, RunFault> {
        let waiting = self.waiting(queue)?;
        let count = wanted.len();
        let mut both = waiting.iter().zip(wanted);
        let are_wanted = both.all(|(delivery, (number, packet))| {
            (delivery.queue(), delivery.number()) == (queue, *number)
                && delivery.event() == packet.event()
        });
        Ok(are_wanted && waiting.len() == count && self.waiting_len(queue) == count)
    }

    /// Whether the first queue has so many places, and keeps these events.
    fn has_kept(&self, places: usize, wanted: &[(u64, Packet)]) -> Result<bool, RunFault> {
        let kept = self.kept(0)?;
        let mut both = kept.iter().zip(wanted);
        let are_wanted = both.all(|(kept, (number, packet))| {
            (kept.queue, kept.number) == (0, *number) && kept.event == packet.event()
        });
        Ok(are_wanted && kept.len() == wanted.len() && self.places_len(0) == places)
    }
}

/// Plays a known run by these calls.
fn play_by(alloc: Global, known: &KnownRun, calls: Calls) -> Result<(), RunFault> {
    let mut run = Run::new(alloc, &known.device, calls)?;
    run.play(known.opening)?;
    run.play(known.turns)
}

/// Plays a known run, by the calls of a device and by the single ones. What comes of each turn must be as known.
pub(crate) fn play(alloc: Global, known: &KnownRun) -> Result<(), RunFault> {
    play_by(alloc, known, Calls::OfDevice)?;
    play_by(alloc, known, Calls::Single)
}
