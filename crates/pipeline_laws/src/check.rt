//! The check of a finished log.

ghost use Rattle.std.specs.Prelude.{◌≡◌, ◌≤◌, ◌↔◌, true, All, IfOk, length};
ghost use Rattle.pipeline_laws.specs.Pipeline.{IsProper};
ghost use Rattle.pipeline_laws.specs.Worked.{AnswersAreDue, IsLogOf};
ghost use Rattle.transcripts.specs.Laws.{AddsNone};

use crate::past::Past;
use crate::stage::Action;
use evt_types::Step;
use std::alloc::{AllocError, Global};

/// Whether each answer of the log, which is that of a device with so many queues and lanes, is its stage's action of the event that it
/// answers, and no event was added beside another.
pub fn answers_are_due(
    alloc: Global,
    queues: usize,
    lanes: usize,
    actions: &[Action],
    log: &[Step],
) -> Result<bool, AllocError>
    requires actions { All IsProper actions.now }
    requires few { length actions.now ≤ 255 }
    requires log { IsLogOf queues lanes log.now }
    ensures { IfOk result (λ b. (b ≡ true) ↔ (AddsNone log.now × AnswersAreDue actions.now log.now)) }
{
    let mut past = Past::new(alloc, queues, lanes)?;
    for step in log {
        if !past.follow(actions, step)? {
            return Ok(false);
        }
    }
    Ok(true)
}
