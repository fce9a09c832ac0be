//! The answer that a stage owes an event.

ghost use Rattle.std.specs.Prelude.{◌≡◌, ◌≤◌, All, length};
ghost use Rattle.pipeline_laws.specs.Pipeline.{IsProper};
ghost use Rattle.pipeline_laws.specs.Worked.{answer_at};

use crate::stage::Action;
use evt_types::{Event, Outcome};

/// The answer to an event of the queue: its stage's action, and on to the next queue. The last stage releases.
pub fn answer(actions: &[Action], queue: usize, event: &Event) -> Outcome
    requires actions { All IsProper actions.now }
    requires few { length actions.now ≤ 255 }
    ensures { result ≡ answer_at actions.now queue event.now }
{
    let last = actions.len().saturating_sub(1);
    if queue >= last {
        return Outcome::Released;
    }
    match actions[queue].apply(event.payload) {
        Some(payload) => Outcome::Forwarded(event.forwarded((queue + 1) as u8, payload)),
        None => Outcome::Released,
    }
}
