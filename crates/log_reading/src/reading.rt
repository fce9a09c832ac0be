//! The reading of a log.

ghost use Rattle.std.specs.Prelude.{◌≡◌, ℕ, List, IfOk, IfErr, All};
ghost use Rattle.evt_types.specs.declared.step.Step.{Step as StepValue};
ghost use Rattle.log_reading.specs.Logs.{IsStep, IsLogAt, IsCause, ReadsSteps};

use crate::begin::log_begin;
use crate::fault::LogFault;
use crate::steps::steps_of;
use evt_types::{QueueDraft, Step};
use std::alloc::Global;

/// A log that was read.
#[derive(Debug, Drop)]
pub struct Log {
    /// Its steps, in order.
    pub steps: Vec<Step>,
    /// The number, counted from 1, of the line that says `log`; the first step is in the next one.
    pub line: usize,
}

/// Reads the log that stands in what `play` printed of a device with these queues: from the first line `log` to a line `report`, or to
/// the end. It has these steps, and no others; and what is the log of some steps is read, unless memory runs out.
pub fn read_log(alloc: Global, queues: &[QueueDraft], text: &[u8]) -> Result<Log, LogFault>
    ensures ok { IfOk result (λ log. IsLogAt queues.now text.now log.steps.items log.line) }
    ensures err { IfErr result (IsCause queues.now text.now) }
    ensures only { (T : List StepValue) (line : ℕ) → All IsStep T → IsLogAt queues.now text.now T line → ReadsSteps result (λ log. (log.steps.items ≡ T) × (log.line ≡ line)) }
{
    let Some((line, behind)) = log_begin(text) else {
        return Err(LogFault::None);
    };
    let steps = steps_of(alloc, queues, behind, line)?;
    Ok(Log { steps, line })
}
