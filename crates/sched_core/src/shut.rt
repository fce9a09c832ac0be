//! No new event is accepted any more.

ghost use Rattle.std.specs.Prelude.{◌≡◌, ◌≤◌, ◌+◌, ◌<◌, false, true, List, ◌++◌};
ghost use Rattle.transcripts.specs.Standing.{Stands};
ghost use Rattle.evt_types.specs.declared.step.Step.{Step as StepValue};
ghost use Rattle.sched_core.specs.Shutting.{shut_steps};

use crate::state::Core;
use evt_types::Step;
use step_log::StepLog;

impl Core {
    /// Turns new events away from now on. The first time it appends that step to the log.
    pub fn shut<L: StepLog>(&mut self, log: &mut L)
        requires room { self.old.shut ≡ false → 0 < L.room log.old }
        ensures view { self.new ≡ record self.old { shut = true } }
        ensures logged { L.steps log.new ≡ L.steps log.old ++ shut_steps self.old }
        ensures stands { (T : List StepValue) → Stands T self.old → Stands (T ++ shut_steps self.old) self.new }
        ensures shape { self.new.shape ≡ self.old.shape }
        ensures room { L.room log.old ≤ L.room log.new + 1 }
    {
        if self.shut {
            return;
        }
        self.shut = true;
        log.push_step(Step::Shut);
    }
}
