//! Events are handed out until the workers hold so many, others wait, and then each round answers a burst and hands out another.

ghost use Rattle.std.specs.Prelude.{◌≤◌};

use crate::asked::Asked;
use crate::fault::BenchFault;
use crate::run::Run;
use std::alloc::Global;

impl Run {
    /// So many new events wait.
    fn queue_up(&mut self, waiting: u64) -> Result<(), BenchFault> {
        for _ in 0..waiting {
            self.enter()?;
        }
        Ok(())
    }

    /// So many new events are handed out.
    fn fill(&mut self, held: u64) -> Result<(), BenchFault> {
        self.queue_up(held)?;
        self.hand_out(held)
    }

    /// So many of the oldest unanswered events are released.
    fn release_oldest(&mut self, count: u64) -> Result<(), BenchFault> {
        for _ in 0..count {
            self.release()?;
        }
        Ok(())
    }

    /// A burst of the oldest unanswered events is released, and as many new ones are taken and handed out.
    fn round(&mut self, burst: u64) -> Result<(), BenchFault> {
        self.release_oldest(burst)?;
        self.queue_up(burst)?;
        self.hand_out(burst)
    }

    /// So many rounds.
    fn rounds(&mut self, count: u64, burst: u64) -> Result<(), BenchFault> {
        for _ in 0..count {
            self.round(burst)?;
        }
        Ok(())
    }
}

/// How many events are inside after the rounds that are asked for: as many as the workers were to hold, as were to wait and to be
/// blocked, and as the busy port holds.
pub fn inside_after(alloc: Global, asked: Asked) -> Result<usize, BenchFault>
    requires { (1 ≤ asked.flows) × (1 ≤ asked.busy) }
{
    let mut run = Run::new(alloc, asked)?;
    run.fill_busy()?;
    run.block(asked.blocked)?;
    run.fill(asked.held)?;
    run.queue_up(asked.waiting)?;
    run.rounds(asked.rounds, asked.burst)?;
    Ok(run.core.inside())
}
