//! Replies of the lanes are taken.

use crate::fault::PlainFault;
use crate::state::PlainCore;
use evt_types::{
    Event, MAX_EXTRAS, MAX_FORWARDS, Numbered, Op, Outcome, PackedEvent, Source, Step,
};

/// How many events a core accepts in all.
const MAX_ENTRIES: u64 = 1 << 63;

/// What became of a reply.
#[derive(Clone, Copy, Debug, PartialEq, Eq)]
pub enum PlainTook {
    /// Its event waits in its queue.
    Accepted,
    /// Its event is kept until the event that it comes from is answered, and all that was handed out before.
    Kept,
    /// The event that it answers is done with.
    Released,
    /// It was turned away, since the core is shut.
    Turned,
}

impl PlainCore {
    /// Whether the lane's reply may be taken now. A new event comes on a port's own lane.
    pub fn takes(&self, lane: usize, event: Event) -> bool {
        if lane >= self.shape.lanes() {
            return false;
        }
        let is_there = self.queue(usize::from(event.queue)).is_some();
        let has_room = self.inside() < self.shape.bound();
        let is_port = lane < self.shape.ports().len();
        match event.op {
            Op::New => is_port && is_there && (self.is_shut() || (has_room && self.has_numbers())),
            Op::Forward => is_there && self.oldest(lane).is_some() && self.has_numbers(),
            Op::Release => self.oldest(lane).is_some(),
            Op::ForwardMore => is_there && has_room && self.may_add(lane) && self.has_numbers(),
        }
    }

    /// Whether the lane has an unanswered event, and fewer were added beside the oldest than may be.
    fn may_add(&self, lane: usize) -> bool {
        self.oldest(lane).is_some() && self.extras_len(lane) < MAX_EXTRAS
    }

    /// How many events were added beside the lane's oldest unanswered event.
    pub fn extras_len(&self, lane: usize) -> usize {
        let out = self.oldest(lane).and_then(|place| self.handed.get(place));
        out.map_or(0, |out| out.forwards.len())
    }

    /// Whether one more event may be accepted, now or later, beside those that were and those that are kept.
    fn has_numbers(&self) -> bool {
        let steps = self.log.iter();
        let accepted = steps.filter(|step| matches!(step, Step::Accept { .. }));
        let accepted = accepted.count() as u64;
        accepted.saturating_add(self.kept_len() as u64) < MAX_ENTRIES
    }

    /// The place of the lane's oldest unanswered event among the hand-outs.
    fn oldest(&self, lane: usize) -> Option<usize> {
        self.handed
            .iter()
            .position(|out| out.lane == lane && !out.is_answered)
    }

    /// Takes the lane's reply, if it may be taken.
    pub fn take(&mut self, lane: usize, event: Event) -> Result<Option<PlainTook>, PlainFault> {
        if !self.takes(lane, event) {
            return Ok(None);
        }
        match event.op {
            Op::New => Ok(Some(self.enter(lane, event)?)),
            Op::Forward => self.answer(lane, Outcome::Forwarded(event)),
            Op::Release => self.answer(lane, Outcome::Released),
            Op::ForwardMore => self.add(lane, event),
        }
    }

    /// A new event is accepted, or turned away.
    fn enter(&mut self, lane: usize, event: Event) -> Result<PlainTook, PlainFault> {
        if self.is_shut() {
            self.log.push(Step::Turned { lane, event })?;
            return Ok(PlainTook::Turned);
        }
        self.accept(event, Source::New { lane })?;
        Ok(PlainTook::Accepted)
    }

    /// The event waits in its queue, under the number of events that the queue has accepted before.
    fn accept(&mut self, event: Event, source: Source) -> Result<(), PlainFault> {
        let queue = usize::from(event.queue);
        let number = self.accepted_len(queue);
        self.log.push(Step::Accept {
            queue,
            event,
            source,
        })?;
        let levels = self.waiting.get_mut(queue).ok_or(PlainFault::Queue)?;
        let event = PackedEvent::of(&event);
        levels
            .push(Numbered { number, event })
            .map_err(|_| PlainFault::Room)
    }

    /// The event is added beside the lane's oldest unanswered event, if there is one.
    fn add(&mut self, lane: usize, event: Event) -> Result<Option<PlainTook>, PlainFault> {
        let Some(place) = self.oldest(lane) else {
            return Ok(None);
        };
        self.log.push(Step::More { lane, event })?;
        self.forward(place, event)?;
        self.pass_on()?;
        Ok(Some(self.passed_or_kept(place)))
    }

    /// The lane's oldest unanswered event, if there is one, is answered so.
    fn answer(&mut self, lane: usize, outcome: Outcome) -> Result<Option<PlainTook>, PlainFault> {
        let Some(place) = self.oldest(lane) else {
            return Ok(None);
        };
        self.log.push(Step::Done { lane, outcome })?;
        if let Some(out) = self.handed.get_mut(place) {
            out.is_answered = true;
        }
        if let Outcome::Forwarded(event) = outcome {
            self.forward(place, event)?;
        }
        self.pass_on()?;
        Ok(Some(match outcome {
            Outcome::Released => PlainTook::Released,
            Outcome::Forwarded(_) => self.passed_or_kept(place),
        }))
    }

    /// The hand-out at this place is passed on as this event too.
    fn forward(&mut self, place: usize, event: Event) -> Result<(), PlainFault> {
        if let Some(out) = self.handed.get_mut(place) {
            out.forwards.push(event)?;
        }
        Ok(())
    }

    /// Whether what the hand-out at this place was passed on as is accepted, or kept still.
    fn passed_or_kept(&self, place: usize) -> PlainTook {
        match self.handed.get(place) {
            Some(out) if !out.kept().is_empty() => PlainTook::Kept,
            _ => PlainTook::Accepted,
        }
    }

    /// Accepts what was passed on and need not be kept any more, in hand-out order.
    fn pass_on(&mut self) -> Result<(), PlainFault> {
        for place in 0..self.handed.len() {
            self.accept_due(place)?;
        }
        Ok(())
    }

    /// Accepts all that is due of what the hand-out at this place was passed on as.
    fn accept_due(&mut self, place: usize) -> Result<(), PlainFault> {
        for _ in 0..MAX_FORWARDS {
            let Some((event, source)) = self.due(place) else {
                return Ok(());
            };
            self.accept(event, source)?;
            if let Some(out) = self.handed.get_mut(place) {
                out.accepted = out.accepted.saturating_add(1);
            }
        }
        Ok(())
    }

    /// The first event that is kept of what the hand-out at this place was passed on as, if it is to be accepted now: of an ordered
    /// queue's event, once that is answered and all that the queue handed out before.
    fn due(&self, place: usize) -> Option<(Event, Source)> {
        let out = self.handed.get(place)?;
        let event = *out.kept().first()?;
        let queue = out.queue;
        let is_ordered = self.queue(queue)?.kind.is_ordered();
        let mut so_far = self.handed.iter().take(place.saturating_add(1));
        if is_ordered && !so_far.all(|other| other.queue != queue || other.is_answered) {
            return None;
        }
        let number = out.number;
        Some((event, Source::Of { queue, number }))
    }
}
