//! One sweep.

use crate::give::give_all;
use crate::scheduler::Scheduler;
use event_answers::Swept;
use evt_types::Memory;
use step_log::StepLog;

impl Scheduler {
    ghost use Rattle.std.specs.Prelude.{◌≡◌, IfOk, IsErr};
    ghost use Rattle.event_scheduler.specs.Scheduler.{sight_of};
    ghost use Rattle.event_scheduler.specs.Swept.{Sweeps};

    /// One sweep: looks at the credit word, takes replies of each lane, tries to give back the credits of what was turned away, and
    /// gives until no choice is left. Its steps are appended to the log, in which room for all of them is reserved first: after want
    /// of memory nothing has changed.
    pub fn sweep<L: StepLog>(&mut self, log: &mut L) -> Result<Swept, Memory>
        ensures sweeps { IfOk result (λ n. Sweeps n (sight_of self.old) (L.steps log.old) (sight_of self.new) (L.steps log.new)) }
        ensures memory { IsErr result → (self.new ≡ self.old) × (L.steps log.new ≡ L.steps log.old) }
    {
        log.make_room(self.core.log_room())?;
        self.look(log);
        let taken = self.take_all(log);
        self.give_back();
        let (given, bounced) = give_all(
            &mut self.core,
            &mut self.lanes,
            &self.hints,
            &mut self.run,
            log,
        );
        Ok(Swept {
            taken,
            given,
            bounced,
        })
    }
}
