//! The credit word: whether the device is shut, and the return of the credits of what was turned away.

ghost use Rattle.std.specs.Prelude.{◌≡◌, ◌+◌, ◌^◌, ◌<◌, ◌≤◌, List};
ghost use Rattle.credit_pool.specs.Accounts.{free_of};
ghost use Rattle.credit_pool.specs.Pool.{account};
ghost use Rattle.event_scheduler.specs.Looking.{Looks, Rests, Returns, looked};
ghost use Rattle.event_scheduler.specs.Scheduler.{Serves, sight_of};
ghost use Rattle.evt_types.specs.declared.step.Step.{Step as StepValue};
ghost use Rattle.transcripts.specs.Standing.{kept_in};

use crate::scheduler::Scheduler;
use credit_pool::Give;
use step_log::StepLog;

impl Scheduler {
    /// Looks at the credit word. Where it has the shut bit new events are turned away from now on.
    pub(crate) fn look<L: StepLog>(&mut self, log: &mut L)
        requires { 0 < L.room log.old }
        ensures looks { Looks (sight_of self.old) (L.steps log.old) (sight_of self.new) (L.steps log.new) }
        ensures room { L.room log.old ≤ L.room log.new + 1 }
        ensures kept { kept_in self.new.core ≡ kept_in self.old.core }
    {
        if self.pool.look(&mut self.seat).1 {
            self.core.shut(log);
        }
    }

    /// The free credits, by one look at the pool, and those in the scheduler's pocket.
    pub fn credits(&mut self) -> (u64, u64)
        ensures looked { sight_of self.new ≡ looked (sight_of self.new).account.last (sight_of self.old) }
        ensures serves { (T : List StepValue) → Serves T (sight_of self.old) → Serves T (sight_of self.new) }
        ensures free { result.0 ≡ free_of (sight_of self.new).account.last }
        ensures own { result.1 ≡ (sight_of self.old).pocket }
    {
        let free = self.pool.look(&mut self.seat).0;
        (free, self.pocket)
    }

    /// Tries to give back the credits of what was turned away, all of them at once.
    pub(crate) fn give_back(&mut self)
        ensures rests { Rests (sight_of self.old) (sight_of self.new) }
        ensures tried { Returns (account self.old.seat) self.old.pocket (account self.new.seat) self.new.pocket }
        ensures seen { (sight_of self.new).seen ≡ (sight_of self.old).seen }
        ensures fits { self.old.pocket < 2 ^ 64 }
    {
        if self.pocket == 0 {
            return;
        }
        match self.pool.give(&mut self.seat, self.pocket) {
            Give::Given => self.pocket = 0,
            Give::Over { .. } | Give::Raced { .. } => {}
        }
    }
}
