//! Finds when the ports together held more events than may be inside.

ghost use Rattle.std.specs.Prelude.{◌≡◌, ◌≤◌, IfNone, IfOk, IfSome, ℕ, length};
ghost use Rattle.history_judge.specs.Breaches.{IsCrowded};
ghost use Rattle.history_judge.specs.Crowds as specs;
ghost use Rattle.history_judge.specs.Crowds.{AllRise, AreKnownPast, AreRising};
ghost use Rattle.history_judge.specs.Watching.{IsFit};

use crate::holds::port_count;
use crate::seen::{Deed, Seen};
use crate::watch::{count_got, no_counts};
use evt_types::{Memory, Shape};
use std::alloc::Global;

/// How many of the times, which rise, aren't after this one; so many are known not to be.
fn count_past(times: &[u64], known: usize, time: u64) -> usize
    requires rising { AreRising times.now }
    requires known { known ≤ specs.past times.now time }
    ensures { result ≡ specs.past times.now time }
{
    for past in known..times.len() {
        if time < times[past] {
            return past;
        }
    }
    times.len()
}

/// Whether the entry is a dequeue, and when it ended the ports held more events for certain than the bound. Each port got so many by
/// then; and so many of its answers are known to have begun, though there may be more.
fn exceeds(
    bound: usize,
    seen: &Seen,
    got: &[usize],
    begun: &mut Vec<usize>,
    times: &[Vec<u64>],
) -> bool
    requires ports { length got.now ≡ length times.now }
    requires rising { AllRise times.now }
    requires known { AreKnownPast times.now seen.now.ended begun.old.items }
    ensures value { result ≡ specs.exceeds bound seen.now got.now times.now }
    ensures begun { AreKnownPast times.now seen.now.ended begun.new.items }
{
    let Deed::Got(_) = &seen.deed else {
        return false;
    };
    let mut room = bound;
    for port in 0..got.len() {
        let past = count_past(&times[port], begun[port], seen.ended);
        begun[port] = past;
        let held = got[port].saturating_sub(past);
        if held > room {
            return true;
        }
        room -= held;
    }
    false
}

/// The first entry with which the ports together held more events than may be inside.
pub(crate) fn first_crowded(
    alloc: Global,
    shape: &Shape,
    history: &[Seen],
    times: &[Vec<u64>],
) -> Result<Option<usize>, Memory>
    requires { IsFit shape.now history.now times.now }
    ensures some { IfOk result (λ found. IfSome found (λ i. IsCrowded shape.now history.now i)) }
    ensures none { IfOk result (λ found. IfNone found ((i : ℕ) → ¬ IsCrowded shape.now history.now i)) }
{
    let bound = shape.bound();
    let mut got = no_counts(alloc, port_count(shape))?;
    let mut begun = no_counts(alloc, port_count(shape))?;
    for (at, seen) in history.iter().enumerate() {
        let _before = count_got(&mut got, seen);
        if exceeds(bound, seen, &got, &mut begun, times) {
            return Ok(Some(at));
        }
    }
    Ok(None)
}
