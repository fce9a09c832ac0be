//! What a log counted of a run, with what was counted of its threads.

ghost use Rattle.std.specs.Prelude.{◌≡◌, ◌≤◌};
ghost use Rattle.evt_types.specs.declared.shape.TheConstants.{MAX_QUEUES};
ghost use Rattle.run_counts.specs.Waiting.{AreWorksOf};

use crate::looks::ThreadWork;
use crate::text::Counts;
use crate::waits::Waits;
use arrayvec::ArrayVec;
use evt_types::MAX_QUEUES;
use step_log::StepLog;

/// What the log counted of so many queues, and what was counted of the threads.
pub fn counts_of<L: StepLog>(queues: usize, log: &Waits<L>, threads: ThreadWork) -> Counts
    requires { queues ≤ MAX_QUEUES }
    ensures queues { AreWorksOf (L.steps log.now) queues result.queues.items }
    ensures threads { result.threads ≡ threads }
{
    let mut works = ArrayVec::new();
    for queue in 0..queues {
        works.push(log.queue(queue));
    }
    Counts {
        queues: works,
        threads,
    }
}
