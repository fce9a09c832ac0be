//! Which histories are judged: each entry names a port, the entries stand in the order of their ends, and those of a port follow one
//! another.

ghost use Rattle.std.specs.Prelude.{◌≡◌, ℕ, ◌<◌, ◌≤◌, IfNone, IfOk, IfSome, OnOk, false, length, map};
ghost use Rattle.history_judge.specs.Entries as specs;
ghost use Rattle.history_judge.specs.Entries.{AreLast, IsOutOfOrder, IsUnknown, IsUnsorted};

use crate::seen::Seen;
use evt_types::Memory;
use std::alloc::Global;

/// The first entry of a port that isn't there.
pub(crate) fn first_unknown(ports: usize, history: &[Seen]) -> Option<usize>
    ensures some { IfSome result (λ i. IsUnknown ports history.now i) }
    ensures none { IfNone result ((i : ℕ) → ¬ IsUnknown ports history.now i) }
{
    for (at, seen) in history.iter().enumerate() {
        if seen.port >= ports {
            return Some(at);
        }
    }
    None
}

/// The first entry that ended before one that stands before it.
pub(crate) fn first_unsorted(history: &[Seen]) -> Option<usize>
    ensures some { IfSome result (λ i. IsUnsorted history.now i) }
    ensures none { IfNone result ((i : ℕ) → ¬ IsUnsorted history.now i) }
{
    let mut latest = 0;
    for (at, seen) in history.iter().enumerate() {
        if seen.ended < latest {
            return Some(at);
        }
        latest = seen.ended;
    }
    None
}

/// Whether two entries of a port, in this order, are of one call or of two that follow one another.
fn follows(before: &Seen, after: &Seen) -> bool
    ensures { result ≡ specs.follows before.now after.now }
{
    before.ended <= after.began || (before.began == after.began && before.ended == after.ended)
}

/// Whether an entry ended before it began, or doesn't follow its port's last one.
fn is_misplaced(last: &[Option<Seen>], seen: &Seen) -> bool
    requires { seen.now.port < length last.now }
    ensures { result ≡ specs.misplaced last.now seen.now }
{
    if seen.ended < seen.began {
        return true;
    }
    match &last[seen.port] {
        Some(before) => !follows(before, seen),
        None => false,
    }
}

/// The first entry that doesn't follow those of its port.
pub(crate) fn first_misplaced(
    alloc: Global,
    ports: usize,
    history: &[Seen],
) -> Result<Option<usize>, Memory>
    requires { (i : ℕ) → ¬ IsUnknown ports history.now i }
    ensures some { IfOk result (λ found. IfSome found (λ i. IsOutOfOrder history.now i)) }
    ensures none { IfOk result (λ found. IfNone found ((i : ℕ) → ¬ IsOutOfOrder history.now i)) }
{
    let mut last = vec![in alloc; None; ports]?;
    for (at, seen) in history.iter().enumerate() {
        if is_misplaced(&last, seen) {
            return Ok(Some(at));
        }
        last[seen.port] = Some(*seen);
    }
    Ok(None)
}
