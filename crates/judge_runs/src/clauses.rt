//! What the clauses ask of steps, pairs and events.

use crate::words::{Pair, Words};
use evt_types::{Event, Op, Outcome, Source, Step};
use std::alloc::AllocError;

/// Whether some number is there twice.
pub(crate) fn has_twice(numbers: &[u64]) -> bool {
    numbers.iter().any(|number| numbers.iter().filter(|other| **other == *number).count() > 1)
}

/// Whether the events are the first of these.
pub(crate) fn is_prefix(events: &[Event], of: &[Event]) -> bool {
    of.get(..events.len()) == Some(events)
}

impl Words<'_> {
    /// Whether the queue is there.
    fn has_queue(&self, queue: usize) -> bool {
        queue < self.shape.queues().len()
    }

    /// Whether the queue restores order.
    pub(crate) fn is_ordered(&self, queue: usize) -> bool {
        let draft = self.shape.queues().get(queue);
        draft.is_some_and(|draft| draft.kind.is_ordered())
    }

    /// Whether the queue gives a flow to one lane at a time.
    pub(crate) fn is_atomic(&self, queue: usize) -> bool {
        let draft = self.shape.queues().get(queue);
        draft.is_some_and(|draft| draft.kind.is_atomic())
    }

    /// Whether a step names what is there, with the operation that fits.
    pub(crate) fn is_formed(&self, step: &Step) -> bool {
        let (ports, lanes) = (self.shape.ports().len(), self.shape.lanes());
        match step {
            Step::Accept {
                queue,
                event,
                source,
            } => {
                let is_entry = self.has_queue(*queue) && usize::from(event.queue) == *queue;
                is_entry
                    && match source {
                        Source::New { lane } => event.op == Op::New && *lane < ports,
                        Source::Of { queue: from, .. } => {
                            (event.op == Op::Forward || event.op == Op::ForwardMore)
                                && self.has_queue(*from)
                        }
                    }
            }
            Step::Give { lane, queue, .. } => *lane < lanes && self.has_queue(*queue),
            Step::Done { lane, outcome } => {
                *lane < lanes
                    && match outcome {
                        Outcome::Forwarded(event) => {
                            self.has_queue(usize::from(event.queue)) && event.op == Op::Forward
                        }
                        Outcome::Released => true,
                    }
            }
            Step::More { lane, event } => {
                let is_there = self.has_queue(usize::from(event.queue));
                *lane < lanes && is_there && event.op == Op::ForwardMore
            }
            Step::Turned { lane, event } => {
                let is_there = self.has_queue(usize::from(event.queue));
                *lane < ports && is_there && event.op == Op::New
            }
            Step::Bounced { lane } => *lane < lanes,
            Step::Shut => true,
        }
    }

    /// The slot of the pair's event.
    pub(crate) fn slot_at(&self, pair: Pair) -> Result<usize, AllocError> {
        let event = self.event_at(pair)?;
        match event {
            Some(event) if pair.0 < self.shape.queues().len() => {
                Ok(self.shape.slot_of(pair.0, event.flow))
            }
            _ => Ok(0),
        }
    }

    /// Whether the lane serves the pair's slot.
    pub(crate) fn serves(&self, lane: usize, pair: Pair) -> Result<bool, AllocError> {
        let slot = self.slot_at(pair)?;
        Ok(
            lane < self.shape.lanes()
                && pair.0 < self.shape.queues().len()
                && self.shape.serves(lane, pair.0, slot),
        )
    }

    /// Whether the events of a queue keep their order.
    pub(crate) fn keeps_order(&self, queue: usize, first: &Event, second: &Event) -> bool {
        first.level() == second.level()
            && (self.is_ordered(queue) || (self.is_atomic(queue) && first.flow == second.flow))
    }

    /// What of the pair is kept.
    pub(crate) fn kept_of(
        &self,
        pair: Pair,
        sent: &[(Pair, Event)],
    ) -> Result<Vec<Event>, AllocError> {
        let taken = self.taken(pair)?.len();
        let mut events = Vec::new(self.alloc);
        for (from, event) in sent {
            if *from == pair {
                events.push(*event)?;
            }
        }
        let mut kept = Vec::new(self.alloc);
        for event in events.iter().skip(taken) {
            kept.push(*event)?;
        }
        Ok(kept)
    }
}
