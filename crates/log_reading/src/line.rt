//! One line of a log.

ghost use Rattle.std.specs.Prelude.{◌≡◌, ℕ, List, ◌++◌, IfOk, Some, codes};
ghost use Rattle.evt_types.specs.declared.draft.QueueDraft.{QueueDraft as Row};
ghost use Rattle.evt_types.specs.declared.step.Step.{Step as StepValue};
ghost use Rattle.play_text.specs.Text.{step_line};
ghost use Rattle.log_reading.specs.Logs.{IsStep};

use crate::words::step_of;
use evt_types::Step;
use play_documents::words::words;
use std::alloc::{AllocError, Global};
use std::str;

/// The step that a line says, if it says one.
pub(crate) fn said_step(alloc: Global, line: &[u8]) -> Result<Option<Step>, AllocError>
    ensures { (qs : List Row) (n : ℕ) (s : StepValue) → IsStep s → line.now ++ codes "\n" ≡ step_line qs n s → IfOk result (λ said. said ≡ Some s) }
{
    let Ok(text) = str::from_utf8(line) else {
        return Ok(None);
    };
    let words = words(alloc, text)?;
    Ok(step_of(&words))
}
