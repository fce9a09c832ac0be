//! The judge.

ghost use Rattle.std.specs.Prelude.{IfOk};
ghost use Rattle.transcript_judge.specs.Verdicts.{IsVerdict};

use crate::reading::Reading;
use crate::verdict::Verdict;
use evt_types::{Memory, Shape, Step};
use std::alloc::Global;

/// What the definitions say of the steps of a device of this shape: they are lawful, or can be gone on with lawfully, or one step of
/// them is the first that broke a clause. It reads each step once.
pub fn judge(alloc: Global, shape: &Shape, steps: &[Step]) -> Result<Verdict, Memory>
    ensures { IfOk result (λ v. IsVerdict shape.now steps.now v) }
{
    let mut reading = Reading::new(alloc, shape)?;
    for (at, step) in steps.iter().enumerate() {
        if let Some(clause) = reading.follow(alloc, shape, &steps[..at], step)? {
            let step = *step;
            return Ok(Verdict::Broken { at, clause, step });
        }
    }
    if reading.is_due() {
        return Ok(Verdict::Running);
    }
    Ok(Verdict::Lawful)
}
