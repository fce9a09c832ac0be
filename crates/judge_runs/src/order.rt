//! Whether a transcript breaks a clause on the order of events, as the definition of the clause says.

use crate::clauses::is_prefix;
use crate::words::{Pair, Words, up_to};
use evt_types::{Event, Source, Step};
use std::alloc::AllocError;

impl Words<'_> {
    /// The numbers of the given events of the queue that keep their order with this one, in the order of their Gives.
    fn given_with(&self, queue: usize, event: &Event) -> Result<Vec<u64>, AllocError> {
        let mut numbers = Vec::new(self.alloc);
        let hand = self.hand(queue)?;
        for number in &hand {
            if let Some(given) = self.event_at((queue, *number))? {
                if self.keeps_order(queue, &given, event) {
                    numbers.push(*number)?;
                }
            }
        }
        Ok(numbers)
    }

    /// The numbers of the accepted events of the queue that keep their order with this one.
    fn accepted_with(&self, queue: usize, event: &Event) -> Result<Vec<u64>, AllocError> {
        let mut numbers = Vec::new(self.alloc);
        let all = self.accepted(queue)?;
        for (number, accepted) in all.iter().enumerate() {
            if self.keeps_order(queue, accepted, event) {
                numbers.push(number as u64)?;
            }
        }
        Ok(numbers)
    }

    /// Whether events that keep their order were given in another one.
    pub(crate) fn breaks_flow(&self) -> Result<bool, AllocError> {
        for queue in 0..self.shape.queues().len() {
            let all = self.accepted(queue)?;
            for event in &all {
                let given = self.given_with(queue, event)?;
                let accepted = self.accepted_with(queue, event)?;
                if accepted.get(..given.len()) != Some(&given[..]) {
                    return Ok(true);
                }
            }
        }
        Ok(false)
    }

    /// Whether two lanes hold unanswered events of one slot of an atomic queue.
    fn shares_slot(&self, first: &[Pair], second: &[Pair]) -> Result<bool, AllocError> {
        for one in first {
            for other in second {
                let is_same_queue = one.0 == other.0 && self.is_atomic(one.0);
                if is_same_queue && self.slot_at(*one)? == self.slot_at(*other)? {
                    return Ok(true);
                }
            }
        }
        Ok(false)
    }

    /// Whether a slot of an atomic queue stands on two lanes.
    pub(crate) fn breaks_alone(&self) -> Result<bool, AllocError> {
        for lane in 0..self.shape.lanes() {
            for other in 0..lane {
                let (held, others) = (self.unanswered(lane)?, self.unanswered(other)?);
                if self.shares_slot(&held, &others)? {
                    return Ok(true);
                }
            }
        }
        Ok(false)
    }

    /// Whether events of an ordered queue were passed on in another order than that of the hand-out, or too early.
    fn breaks_hand_order(&self, queue: usize, ended: &[Pair]) -> Result<bool, AllocError> {
        let (hand, sources) = (self.hand(queue)?, self.sources(queue)?);
        for (place, number) in sources.iter().enumerate() {
            let before = up_to(&hand, *number);
            let is_answered = before.iter().all(|first| ended.contains(&(queue, *first)));
            let follows = sources
                .iter()
                .take(place)
                .all(|first| before.contains(first));
            if !is_answered || !follows {
                return Ok(true);
            }
        }
        Ok(false)
    }

    /// Whether something was accepted from a number of an ordered queue while something of one before it was kept.
    fn passes_over(&self, queue: usize, sent: &[(Pair, Event)]) -> Result<bool, AllocError> {
        let (hand, sources) = (self.hand(queue)?, self.sources(queue)?);
        for number in &sources {
            for first in up_to(&hand, *number) {
                if *first != *number && !self.kept_of((queue, *first), sent)?.is_empty() {
                    return Ok(true);
                }
            }
        }
        Ok(false)
    }

    /// Whether what two numbers of an atomic queue that keep their order were passed on as was accepted in another one.
    fn breaks_rising(&self, queue: usize) -> Result<bool, AllocError> {
        let sources = self.sources(queue)?;
        for (place, number) in sources.iter().enumerate() {
            for first in sources.iter().take(place) {
                let events = (
                    self.event_at((queue, *first))?,
                    self.event_at((queue, *number))?,
                );
                if let (Some(one), Some(other)) = events {
                    if *first > *number && self.keeps_order(queue, &one, &other) {
                        return Ok(true);
                    }
                }
            }
        }
        Ok(false)
    }

    /// Whether what was passed on was accepted in another order than the queue keeps.
    pub(crate) fn breaks_order(&self) -> Result<bool, AllocError> {
        let (ended, sent) = (self.ended()?, self.sent()?);
        for queue in 0..self.shape.queues().len() {
            let breaks = if self.is_ordered(queue) {
                self.breaks_hand_order(queue, &ended)? || self.passes_over(queue, &sent)?
            } else {
                self.is_atomic(queue) && self.breaks_rising(queue)?
            };
            if breaks {
                return Ok(true);
            }
        }
        Ok(false)
    }

    /// What the pair was passed on as.
    fn forwards(&self, pair: Pair, sent: &[(Pair, Event)]) -> Result<Vec<Event>, AllocError> {
        let mut events = Vec::new(self.alloc);
        for (from, event) in sent {
            if *from == pair {
                events.push(*event)?;
            }
        }
        Ok(events)
    }

    /// Whether something was accepted from a number that wasn't passed on as it.
    pub(crate) fn breaks_origin(&self) -> Result<bool, AllocError> {
        let sent = self.sent()?;
        for queue in 0..self.shape.queues().len() {
            let sources = self.sources(queue)?;
            for number in &sources {
                let pair = (queue, *number);
                let (taken, forwards) = (self.taken(pair)?, self.forwards(pair, &sent)?);
                if !is_prefix(&taken, &forwards) {
                    return Ok(true);
                }
            }
        }
        Ok(false)
    }

    /// Whether something new is accepted after the first Shut, or another Shut stands there, or something was turned away before it.
    pub(crate) fn breaks_closed(&self) -> bool {
        let mut is_shut = false;
        for step in self.steps {
            let is_late = match step {
                Step::Accept { source, .. } => matches!(source, Source::New { .. }),
                Step::Shut => true,
                _ => false,
            };
            if (is_shut && is_late) || (!is_shut && matches!(step, Step::Turned { .. })) {
                return true;
            }
            is_shut = is_shut || matches!(step, Step::Shut);
        }
        false
    }

    /// Whether all that is kept of the queue waits for an answer of its own number or of one before it, as in ordered queues alone.
    fn is_queue_settled(
        &self,
        queue: usize,
        ended: &[Pair],
        sent: &[(Pair, Event)],
    ) -> Result<bool, AllocError> {
        let hand = self.hand(queue)?;
        for number in &hand {
            let before = up_to(&hand, *number);
            let waits = before.iter().any(|first| !ended.contains(&(queue, *first)));
            let is_kept = !self.kept_of((queue, *number), sent)?.is_empty();
            if is_kept && !(waits && self.is_ordered(queue)) {
                return Ok(false);
            }
        }
        Ok(true)
    }

    /// Whether nothing that was passed on has to be accepted now.
    pub(crate) fn is_settled(&self) -> Result<bool, AllocError> {
        let (ended, sent) = (self.ended()?, self.sent()?);
        for queue in 0..self.shape.queues().len() {
            if !self.is_queue_settled(queue, &ended, &sent)? {
                return Ok(false);
            }
        }
        Ok(true)
    }
}
