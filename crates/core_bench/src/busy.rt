//! The busy port holds as many events of one flow as it may, and more events of this flow wait for it.

use crate::asked::MAX_FLOWS;
use crate::device::BUSY;
use crate::fault::BenchFault;
use crate::run::{Run, new_event};
use evt_types::MAX_DEPTH;
use sched_core::Skips;

/// The flow of the busy port's events. The workers' events have lower flows, and each flow has a slot of its own.
const BUSY_FLOW: u8 = MAX_FLOWS;

impl Run {
    /// The busy port is handed as many events as it may hold. From then on their slot stands on its lane, which has no room.
    pub fn fill_busy(&mut self) -> Result<(), BenchFault> {
        for _ in 0..MAX_DEPTH {
            self.bring(new_event(BUSY_FLOW, 0))?;
            if self.give(1, &mut Skips::none())? != Some(BUSY) {
                return Err(BenchFault::Stuck);
            }
        }
        Ok(())
    }

    /// So many events more of its flow wait.
    pub fn block(&mut self, blocked: u64) -> Result<(), BenchFault> {
        for _ in 0..blocked {
            self.bring(new_event(BUSY_FLOW, 0))?;
        }
        Ok(())
    }
}
