//! Finds a port that holds more events than its depth.

ghost use Rattle.std.specs.Prelude.{◌≡◌, ◌-◌, ◌<◌, ◌^◌, IfNone, IfOk, IfSome, ℕ, length, slice_index_or};
ghost use Rattle.evt_types.specs.Plan.{lanes_of};
ghost use Rattle.history_judge.specs.Breaches.{IsOverfull};
ghost use Rattle.history_judge.specs.Depths as specs;
ghost use Rattle.history_judge.specs.Watching.{IsFit};

use crate::holds::port_count;
use crate::seen::{Deed, Seen};
use crate::times::until_of;
use crate::watch::{count_got, ends_after, no_counts};
use evt_types::{Memory, Shape};
use std::alloc::Global;

/// Whether the entry's port, which got so many events before it, holds more than its depth for certain when the entry ended.
fn exceeds(shape: &Shape, seen: &Seen, number: usize, times: &[Vec<u64>]) -> bool
    requires lane { seen.now.port < lanes_of shape.now }
    requires port { seen.now.port < length times.now }
    ensures { result ≡ specs.exceeds shape.now seen.now number times.now }
{
    let Deed::Got(_) = &seen.deed else {
        return false;
    };
    let depth = shape.depth_of(seen.port);
    depth <= number && ends_after(seen.ended, until_of(times, seen.port, number - depth))
}

/// The first entry with which a port holds more events than its depth.
pub(crate) fn first_overfull(
    alloc: Global,
    shape: &Shape,
    history: &[Seen],
    times: &[Vec<u64>],
) -> Result<Option<usize>, Memory>
    requires { IsFit shape.now history.now times.now }
    ensures some { IfOk result (λ found. IfSome found (λ i. IsOverfull shape.now history.now i)) }
    ensures none { IfOk result (λ found. IfNone found ((i : ℕ) → ¬ IsOverfull shape.now history.now i)) }
{
    let mut got = no_counts(alloc, port_count(shape))?;
    for (at, seen) in history.iter().enumerate() {
        let number = count_got(&mut got, seen);
        if exceeds(shape, seen, number, times) {
            return Ok(Some(at));
        }
    }
    Ok(None)
}
