//! Both cores side by side.

use crate::device::Device;
use crate::fault::RunFault;
use crate::moves::{Made, Move};
use crate::plain_run::PlainRun;
use crate::run::{Calls, Run};
use std::alloc::Global;

/// Both cores, in which the same has happened.
#[derive(Drop)]
pub(crate) struct Pair {
    run: Run,
    plain: PlainRun,
}

impl Pair {
    /// Two cores for a device, in which nothing has happened.
    pub(crate) fn new(alloc: Global, device: &Device) -> Result<Pair, RunFault> {
        Ok(Pair {
            run: Run::new(alloc, device, Calls::OfDevice)?,
            plain: PlainRun::new(alloc, device)?,
        })
    }

    /// How many lanes the device has.
    pub(crate) fn lanes(&self) -> usize {
        self.run.core.shape().lanes()
    }

    /// How many events were added beside the lane's oldest unanswered event.
    pub(crate) fn extras_len(&self, lane: usize) -> usize {
        self.plain.core.extras_len(lane)
    }

    /// Of how many events the last run was.
    pub(crate) fn run_len(&self) -> usize {
        self.run.run_len()
    }

    /// Whether the core knows whose turn it is.
    pub(crate) fn knows_turn(&self) -> bool {
        self.run.knows_turn()
    }

    /// Whether what was given last went to several lanes.
    pub(crate) fn has_dealt(&self) -> bool {
        self.run.has_dealt()
    }

    /// Both cores make one move. What comes of it must be the same, and what they log, and how many events are inside. What the core
    /// gives together the plain core gives one by one, and of replies it takes as many as the core took in a row.
    pub(crate) fn make(&mut self, step: Move) -> Result<Made, RunFault> {
        let steps = self.run.log.len();
        let made = self.run.make(step)?;
        let plainly = self.plain.make(step.with_count(made))?;
        if made == plainly && self.goes_on_alike(made)? && self.logs_alike(steps) {
            return Ok(made);
        }
        let (logged, logged_plainly) = (self.run.log.last(), self.plain.core.log().last());
        Err(RunFault::Otherwise(format!(in self.run.alloc;
            "after {steps} steps {step:?} made {made:?} and plainly {plainly:?}; the last step logged is {logged:?} and plainly {logged_plainly:?}"
        )?))
    }

    /// Whether the plain core gives next what was given together.
    fn goes_on_alike(&mut self, made: Made) -> Result<bool, RunFault> {
        if !matches!(made, Made::Gave(Some(_))) {
            return Ok(true);
        }
        for place in 1..self.run.run_len() {
            if self.plain.give()? != self.run.given(place) {
                return Ok(false);
            }
        }
        Ok(true)
    }

    /// Whether the logs are the same from this step on, and as many events are inside.
    fn logs_alike(&self, start: usize) -> bool {
        let plainly = self.plain.core.log();
        self.run.log.len() == plainly.len()
            && self.run.log.get(start..) == plainly.get(start..)
            && self.run.core.inside() == self.plain.core.inside()
    }

    /// In each queue the same events must wait and be kept.
    pub(crate) fn must_hold_alike(&self) -> Result<(), RunFault> {
        for queue in 0..self.run.core.shape().queues().len() {
            self.must_wait_alike(queue)?;
            self.must_keep_alike(queue)?;
        }
        Ok(())
    }

    /// The same events must wait in the queue.
    fn must_wait_alike(&self, queue: usize) -> Result<(), RunFault> {
        let waiting = self.run.waiting(queue)?;
        let plainly = self.plain.core.list_waiting(queue)?;
        if waiting.as_slice() == plainly.as_slice() {
            return Ok(());
        }
        Err(RunFault::Otherwise(format!(in self.run.alloc;
            "in queue {queue} {waiting:?} wait and plainly {plainly:?}"
        )?))
    }

    /// The queue must have as many open events, where it is ordered, and keep the same ones.
    fn must_keep_alike(&self, queue: usize) -> Result<(), RunFault> {
        let kept = self.run.kept(queue)?;
        let plainly = self.plain.core.list_kept(queue)?;
        let (places, open) = (self.run.places_len(queue), self.open_len(queue));
        if places == open && kept.as_slice() == plainly.as_slice() {
            return Ok(());
        }
        Err(RunFault::Otherwise(format!(in self.run.alloc;
            "queue {queue} has {places} places and keeps {kept:?}, and plainly {open} and {plainly:?}"
        )?))
    }

    /// How many open events the plain core has of the queue, if it is ordered.
    fn open_len(&self, queue: usize) -> usize {
        let queues = self.run.core.shape().queues();
        let is_ordered = queues
            .get(queue)
            .is_some_and(|draft| draft.kind.is_ordered());
        if is_ordered {
            self.plain.core.open_len(queue)
        } else {
            0
        }
    }
}
