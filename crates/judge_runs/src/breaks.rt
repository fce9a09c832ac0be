//! Whether a transcript breaks a clause, as the definition of the clause says.

use crate::clauses::has_twice;
use crate::words::{Pair, Words};
use evt_types::{Event, MAX_EXTRAS};
use std::alloc::AllocError;

impl Words<'_> {
    /// Whether some lane gave more answers than it was given events.
    pub(crate) fn breaks_answers(&self) -> Result<bool, AllocError> {
        for lane in 0..self.shape.lanes() {
            if self.answers(lane) > self.out(lane)?.len() {
                return Ok(true);
            }
        }
        Ok(false)
    }

    /// Whether some lane added too many events, or beside none.
    pub(crate) fn breaks_extras(&self) -> Result<bool, AllocError> {
        for lane in 0..self.shape.lanes() {
            let extras = self.extras(lane);
            if extras > MAX_EXTRAS || (extras > 0 && self.unanswered(lane)?.is_empty()) {
                return Ok(true);
            }
        }
        Ok(false)
    }

    /// Whether some number was given that wasn't accepted, or twice.
    pub(crate) fn breaks_once(&self) -> Result<bool, AllocError> {
        for queue in 0..self.shape.queues().len() {
            let (hand, accepted) = (self.hand(queue)?, self.accepted(queue)?.len() as u64);
            if has_twice(&hand) || hand.iter().any(|number| *number >= accepted) {
                return Ok(true);
            }
        }
        Ok(false)
    }

    /// Whether some lane was given what it doesn't serve.
    pub(crate) fn breaks_linked(&self) -> Result<bool, AllocError> {
        for lane in 0..self.shape.lanes() {
            let out = self.out(lane)?;
            for pair in &out {
                if !self.serves(lane, *pair)? {
                    return Ok(true);
                }
            }
        }
        Ok(false)
    }

    /// Whether some lane has more unanswered events than its depth.
    pub(crate) fn breaks_depth(&self) -> Result<bool, AllocError> {
        for lane in 0..self.shape.lanes() {
            if self.unanswered(lane)?.len() > self.shape.depth_of(lane) {
                return Ok(true);
            }
        }
        Ok(false)
    }

    /// How many numbers of the queue are open.
    fn open_len(&self, queue: usize, ended: &[Pair]) -> Result<usize, AllocError> {
        let hand = self.hand(queue)?;
        let answered = hand
            .iter()
            .take_while(|number| ended.contains(&(queue, **number)))
            .count();
        Ok(hand.len().saturating_sub(answered))
    }

    /// Whether some ordered queue has more open numbers than its order.
    pub(crate) fn breaks_places(&self) -> Result<bool, AllocError> {
        let ended = self.ended()?;
        for (queue, draft) in self.shape.queues().iter().enumerate() {
            if draft.kind.is_ordered() && self.open_len(queue, &ended)? > draft.order as usize {
                return Ok(true);
            }
        }
        Ok(false)
    }

    /// How many events of the queue wait or are kept.
    fn inside_queue(&self, queue: usize, sent: &[(Pair, Event)]) -> Result<usize, AllocError> {
        let (hand, accepted) = (self.hand(queue)?, self.accepted(queue)?.len() as u64);
        let mut count: usize = 0;
        for number in 0..accepted {
            if !hand.contains(&number) {
                count = count.saturating_add(1);
            }
        }
        for number in &hand {
            count = count.saturating_add(self.kept_of((queue, *number), sent)?.len());
        }
        Ok(count)
    }

    /// Whether more events are inside than there is room for.
    pub(crate) fn breaks_limit(&self) -> Result<bool, AllocError> {
        let sent = self.sent()?;
        let mut inside: usize = 0;
        for queue in 0..self.shape.queues().len() {
            inside = inside.saturating_add(self.inside_queue(queue, &sent)?);
        }
        for lane in 0..self.shape.lanes() {
            inside = inside.saturating_add(self.unanswered(lane)?.len());
        }
        Ok(inside > self.shape.bound())
    }
}
