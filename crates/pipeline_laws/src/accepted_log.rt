//! A log that keeps what the queues accepted, and of all other steps no more than how many there were.

ghost use Rattle.std.specs.Prelude.{◌≡◌, ◌-◌, [], filter_map, min, vec_len, vec_capacity};
ghost use Rattle.std.proofs.Common.{rules};
ghost use Rattle.pipeline_laws.specs.Past.{accepted_by_step};

use crate::accepted::accepted_by;
use evt_types::{Event, Step};
use std::alloc::Global;
use step_log::{Counted, Memory, StepLog};

/// A log that keeps each event that a queue accepted, with that queue, in the order of the steps. It counts the steps, and keeps nothing
/// else of them.
#[derive(Drop)]
pub struct AcceptedLog {
    counted: Counted,
    kept: Vec<(usize, Event)>,
    ghost kept_is: { kept.items ≡ filter_map accepted_by_step (⟦<Counted as StepLog>⟧.steps counted) },
}

impl AcceptedLog {
    /// A log without steps.
    pub fn new(alloc: Global) -> AcceptedLog
        ensures { ⟦<AcceptedLog as StepLog>⟧.steps result ≡ [] }
    {
        AcceptedLog {
            counted: Counted::new(),
            kept: Vec::new(alloc),
        }
    }

    /// Each event that a queue accepted, with that queue.
    pub(crate) fn kept(&self) -> &[(usize, Event)]
        ensures { result.now ≡ filter_map accepted_by_step (⟦<AcceptedLog as StepLog>⟧.steps self.now) }
    {
        &self.kept
    }
}

/// It has room for `MAX_STEPS` steps in all, as a count has, and for as many more as there is room for what they may accept.
impl StepLog for AcceptedLog {
    ghost steps = { λ log. ⟦<Counted as StepLog>⟧.steps log.counted };

    ghost room = { λ log. min (⟦<Counted as StepLog>⟧.room log.counted) (vec_capacity log.kept - vec_len log.kept) };

    ghost short = { Prim.search rules };

    #[inline(always)]
    fn push_step(&mut self, step: Step) {
        if let Some(accepted) = accepted_by(&step) {
            self.kept.push_reserved(accepted);
        }
        self.counted.push_step(step);
    }

    fn make_room(&mut self, count: usize) -> Result<(), Memory> {
        self.counted.make_room(count)?;
        self.kept.reserve(count)
    }
}
