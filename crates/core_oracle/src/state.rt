//! What the plain core keeps, and what is found in it.

ghost use Rattle.std.specs.Prelude.{◌<◌};

use crate::offer::PlainOffer;
use evt_types::{Delivery, Event, KeptEvent, PackedEvent, QueueDraft, Shape, Step};
use level_queues::Levels;
use std::alloc::{AllocError, Global};

/// How many levels a queue has.
pub(crate) const LEVELS: usize = 4;

/// An event that was handed out, and whether it is answered.
#[derive(Drop)]
pub(crate) struct HandOut {
    pub(crate) lane: usize,
    pub(crate) queue: usize,
    pub(crate) number: u64,
    pub(crate) event: Event,
    pub(crate) is_answered: bool,
    /// What it was passed on as: the events that were added beside it, and then that of its FORWARD.
    pub(crate) forwards: Vec<Event>,
    /// How many of these were accepted since.
    pub(crate) accepted: usize,
}

impl HandOut {
    /// What it was passed on as and is not accepted yet.
    pub(crate) fn kept(&self) -> &[Event] {
        self.forwards.get(self.accepted..).unwrap_or(&[])
    }
}

/// A scheduling core that finds everything by search. Where a call lacks memory, the core is good for nothing more.
#[derive(Drop)]
pub struct PlainCore {
    pub(crate) alloc: Global,
    pub(crate) shape: Shape,
    /// What waits in each queue.
    pub(crate) waiting: Vec<Levels>,
    /// All events that were ever handed out, in order.
    pub(crate) handed: Vec<HandOut>,
    /// All steps that were ever made, in order.
    pub(crate) log: Vec<Step>,
}

/// Lists for the waiting events of each of so many queues, each list with room for so many events.
fn nothing_waits(alloc: Global, queues: usize, room: usize) -> Result<Vec<Levels>, AllocError> {
    let mut waiting = Vec::with_capacity(alloc, queues)?;
    for _ in 0..queues {
        waiting.push(Levels::new(alloc, room)?)?;
    }
    Ok(waiting)
}

/// Whether the queue accepts an event by this step.
fn is_accept_of(step: &Step, queue: usize) -> bool {
    match step {
        Step::Accept { queue: other, .. } => *other == queue,
        _ => false,
    }
}

/// The place of the event of this number in a level.
fn place_of(levels: &Levels, level: usize, number: u64) -> Option<usize>
    requires { level < LEVELS }
{
    for place in 0..levels.len(level) {
        if levels
            .at(level, place)
            .is_some_and(|item| item.number == number)
        {
            return Some(place);
        }
    }
    None
}

/// The event of this number of a level no longer waits.
fn take_out(levels: &mut Levels, level: usize, number: u64)
    requires { level < LEVELS }
{
    if let Some(place) = place_of(levels, level, number) {
        levels.remove_at(level, place);
    }
}

/// How many events wait in a queue.
fn waiting_len(levels: &Levels) -> usize {
    let mut count: usize = 0;
    for level in 0..LEVELS {
        count = count.saturating_add(levels.len(level));
    }
    count
}

/// Appends what the hand-out keeps.
fn list_kept_of(out: &HandOut, list: &mut Vec<KeptEvent>) -> Result<(), AllocError> {
    for event in out.kept() {
        list.push(KeptEvent {
            queue: out.queue,
            number: out.number,
            event: *event,
        })?;
    }
    Ok(())
}

impl PlainCore {
    /// A core in which nothing has happened.
    pub fn new(alloc: Global, shape: Shape) -> Result<PlainCore, AllocError> {
        let waiting = nothing_waits(alloc, shape.queues().len(), shape.bound())?;
        Ok(PlainCore {
            alloc,
            shape,
            waiting,
            handed: Vec::new(alloc),
            log: Vec::new(alloc),
        })
    }

    /// All steps so far.
    pub fn log(&self) -> &[Step] {
        &self.log
    }

    /// How many events wait, are kept or are unanswered.
    pub fn inside(&self) -> usize {
        let waiting = self.waiting.iter().map(waiting_len);
        let waiting = waiting.fold(0usize, |sum, count| sum.saturating_add(count));
        let unanswered = self.handed.iter().filter(|out| !out.is_answered).count();
        waiting
            .saturating_add(self.kept_len())
            .saturating_add(unanswered)
    }

    /// The queue's waiting events, by rising number, each as it would be delivered.
    pub fn list_waiting(&self, queue: usize) -> Result<Vec<Delivery>, AllocError> {
        let mut list = Vec::new(self.alloc);
        for number in 0..self.accepted_len(queue) {
            if let Some(event) = self.waiting_event(queue, number) {
                list.push(Delivery::new(event, number))?;
            }
        }
        Ok(list)
    }

    /// How many events the queue has accepted.
    pub(crate) fn accepted_len(&self, queue: usize) -> u64 {
        let accepted = self.log.iter().filter(|step| is_accept_of(step, queue));
        accepted.count() as u64
    }

    /// The queue's event of this number, if it waits.
    fn waiting_event(&self, queue: usize, number: u64) -> Option<PackedEvent> {
        let levels = self.waiting.get(queue)?;
        for level in 0..LEVELS {
            if let Some(place) = place_of(levels, level, number) {
                return levels.at(level, place).map(|item| item.event);
            }
        }
        None
    }

    /// The queue's kept events in hand-out order, each under the queue and the number of the event that it comes from.
    pub fn list_kept(&self, queue: usize) -> Result<Vec<KeptEvent>, AllocError> {
        let mut list = Vec::new(self.alloc);
        for out in self.handed.iter().filter(|out| out.queue == queue) {
            list_kept_of(out, &mut list)?;
        }
        Ok(list)
    }

    /// How many events the queue has handed out since its oldest unanswered one, and with it.
    pub fn open_len(&self, queue: usize) -> usize {
        self.handed
            .iter()
            .filter(|out| out.queue == queue)
            .skip_while(|out| out.is_answered)
            .count()
    }

    /// Gives what was offered.
    pub fn give(&mut self, offer: PlainOffer) -> Result<(), AllocError> {
        let PlainOffer {
            lane,
            queue,
            number,
            event,
        } = offer;
        self.log.push(Step::Give {
            lane,
            queue,
            number,
        })?;
        self.handed.push(HandOut {
            lane,
            queue,
            number,
            event,
            is_answered: false,
            forwards: Vec::new(self.alloc),
            accepted: 0,
        })?;
        if let Some(levels) = self.waiting.get_mut(queue) {
            take_out(levels, event.level(), number);
        }
        Ok(())
    }

    /// Notes that the lane's ring had no room for a delivery.
    pub fn bounce(&mut self, lane: usize) -> Result<(), AllocError> {
        self.log.push(Step::Bounced { lane })?;
        Ok(())
    }

    /// Turns new events away from now on.
    pub fn shut(&mut self) -> Result<(), AllocError> {
        if !self.is_shut() {
            self.log.push(Step::Shut)?;
        }
        Ok(())
    }

    /// Whether new events are turned away.
    pub(crate) fn is_shut(&self) -> bool {
        self.log.contains(&Step::Shut)
    }

    /// How many events are kept.
    pub(crate) fn kept_len(&self) -> usize {
        let kept = self.handed.iter().map(|out| out.kept().len());
        kept.fold(0usize, |sum, count| sum.saturating_add(count))
    }

    /// What was asked for of the queue, if it is there.
    pub(crate) fn queue(&self, queue: usize) -> Option<QueueDraft> {
        self.shape.queues().get(queue).copied()
    }
}
