//! The words by which the promises are made, each read off the whole list of steps as its definition says.

use evt_types::{Event, Outcome, Shape, Source, Step};
use std::alloc::{AllocError, Global};

/// A queue and a number.
pub(crate) type Pair = (usize, u64);

/// A transcript of a device.
#[derive(Clone, Copy)]
pub(crate) struct Words<'a> {
    pub(crate) alloc: Global,
    pub(crate) shape: &'a Shape,
    pub(crate) steps: &'a [Step],
}

/// The numbers up to the first that is this one, and with it.
pub(crate) fn up_to(numbers: &[u64], number: u64) -> &[u64] {
    match numbers.iter().position(|other| *other == number) {
        Some(place) => numbers.get(..place.saturating_add(1)).unwrap_or(numbers),
        None => numbers,
    }
}

impl<'a> Words<'a> {
    /// The steps before this place.
    pub(crate) fn before(&self, place: usize) -> Words<'a> {
        Words {
            alloc: self.alloc,
            shape: self.shape,
            steps: self.steps.get(..place).unwrap_or(self.steps),
        }
    }

    /// The events that the queue accepted.
    pub(crate) fn accepted(&self, of: usize) -> Result<Vec<Event>, AllocError> {
        let mut events = Vec::new(self.alloc);
        for step in self.steps {
            match step {
                Step::Accept { queue, event, .. } if *queue == of => events.push(*event)?,
                _ => {}
            }
        }
        Ok(events)
    }

    /// The event of the pair.
    pub(crate) fn event_at(&self, pair: Pair) -> Result<Option<Event>, AllocError> {
        let events = self.accepted(pair.0)?;
        Ok(events.get(pair.1 as usize).copied())
    }

    /// The pairs that the lane was given.
    pub(crate) fn out(&self, of: usize) -> Result<Vec<Pair>, AllocError> {
        let mut pairs = Vec::new(self.alloc);
        for step in self.steps {
            match step {
                Step::Give {
                    lane,
                    queue,
                    number,
                } if *lane == of => pairs.push((*queue, *number))?,
                _ => {}
            }
        }
        Ok(pairs)
    }

    /// How many answers the lane gave.
    pub(crate) fn answers(&self, of: usize) -> usize {
        let mut count: usize = 0;
        for step in self.steps {
            match step {
                Step::Done { lane, .. } if *lane == of => count = count.saturating_add(1),
                _ => {}
            }
        }
        count
    }

    /// The pairs that the lane hasn't answered.
    pub(crate) fn unanswered(&self, lane: usize) -> Result<Vec<Pair>, AllocError> {
        let mut pairs = Vec::new(self.alloc);
        let out = self.out(lane)?;
        for pair in out.iter().skip(self.answers(lane)) {
            pairs.push(*pair)?;
        }
        Ok(pairs)
    }

    /// The pair that the lane's next answer is to.
    fn next_pair(&self, lane: usize) -> Result<Option<Pair>, AllocError> {
        let out = self.out(lane)?;
        Ok(out.get(self.answers(lane)).copied())
    }

    /// The pairs that were answered.
    pub(crate) fn ended(&self) -> Result<Vec<Pair>, AllocError> {
        let mut pairs = Vec::new(self.alloc);
        for (place, step) in self.steps.iter().enumerate() {
            if let Step::Done { lane, .. } = step {
                let before = self.before(place);
                if let Some(pair) = before.next_pair(*lane)? {
                    pairs.push(pair)?;
                }
            }
        }
        Ok(pairs)
    }

    /// The events that were passed on, each with the pair that it comes from.
    pub(crate) fn sent(&self) -> Result<Vec<(Pair, Event)>, AllocError> {
        let mut sent = Vec::new(self.alloc);
        for (place, step) in self.steps.iter().enumerate() {
            let passed = match step {
                Step::Done {
                    lane,
                    outcome: Outcome::Forwarded(event),
                } => Some((*lane, *event)),
                Step::More { lane, event } => Some((*lane, *event)),
                _ => None,
            };
            if let Some((lane, event)) = passed {
                let before = self.before(place);
                if let Some(pair) = before.next_pair(lane)? {
                    sent.push((pair, event))?;
                }
            }
        }
        Ok(sent)
    }

    /// The events that were added beside the lane's oldest unanswered one.
    pub(crate) fn extras(&self, of: usize) -> usize {
        let mut count: usize = 0;
        for step in self.steps {
            match step {
                Step::More { lane, .. } if *lane == of => count = count.saturating_add(1),
                Step::Done { lane, .. } if *lane == of => count = 0,
                _ => {}
            }
        }
        count
    }

    /// The queue's numbers in the order of their Gives.
    pub(crate) fn hand(&self, of: usize) -> Result<Vec<u64>, AllocError> {
        let mut numbers = Vec::new(self.alloc);
        for step in self.steps {
            match step {
                Step::Give { queue, number, .. } if *queue == of => numbers.push(*number)?,
                _ => {}
            }
        }
        Ok(numbers)
    }

    /// The events that were accepted from the pair.
    pub(crate) fn taken(&self, of: Pair) -> Result<Vec<Event>, AllocError> {
        let mut events = Vec::new(self.alloc);
        for step in self.steps {
            match step {
                Step::Accept {
                    event,
                    source: Source::Of { queue, number },
                    ..
                } if (*queue, *number) == of => events.push(*event)?,
                _ => {}
            }
        }
        Ok(events)
    }

    /// The queue's numbers from which events were accepted.
    pub(crate) fn sources(&self, of: usize) -> Result<Vec<u64>, AllocError> {
        let mut numbers = Vec::new(self.alloc);
        for step in self.steps {
            match step {
                Step::Accept {
                    source: Source::Of { queue, number },
                    ..
                } if *queue == of => numbers.push(*number)?,
                _ => {}
            }
        }
        Ok(numbers)
    }
}
