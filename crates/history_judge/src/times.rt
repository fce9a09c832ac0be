//! When the answers of each port began.

ghost use Rattle.std.specs.Prelude.{◌≡◌, ℕ, ◌<◌, [], ◌∷◌, ◌++◌, IfOk, IfSome, OnOk, length, slice_get, slice_set};
ghost use Rattle.history_judge.specs.Entries.{IsUnknown};
ghost use Rattle.history_judge.specs.Holds as specs;
ghost use Rattle.history_judge.specs.Holds.{AreTimes, row, rows, until_in};

use crate::seen::{Deed, Seen};
use evt_types::{Memory, Op};
use std::alloc::Global;

/// So many empty lists.
fn empty_times(alloc: Global, count: usize) -> Result<Vec<Vec<u64>>, Memory>
    ensures { IfOk result (λ lists. AreTimes count [] lists.items) }
{
    let mut lists = Vec::with_capacity(alloc, count)?;
    for _ in 0..count {
        lists.push(Vec::new(alloc))?;
    }
    Ok(lists)
}

/// Whether it answers what its port holds.
pub(crate) fn is_answer(seen: &Seen) -> bool
    ensures { result ≡ specs.is_answer_entry seen.now }
{
    match &seen.deed {
        Deed::Sent(reply) => matches!(reply.event.op(), Op::Forward | Op::Release),
        Deed::Got(_) => false,
    }
}

/// Notes when an answer began, at its port.
fn note(times: &mut Vec<Vec<u64>>, seen: &Seen) -> Result<(), Memory>
    requires { seen.now.port < length times.old.items }
    ensures { OnOk result (rows times.new.items ≡ specs.noted (rows times.old.items) seen.now) }
{
    if is_answer(seen) {
        times[seen.port].push(seen.began)?;
    }
    Ok(())
}

/// For each port when the calls of its answers began.
pub(crate) fn answer_times(
    alloc: Global,
    ports: usize,
    history: &[Seen],
) -> Result<Vec<Vec<u64>>, Memory>
    requires { (i : ℕ) → ¬ IsUnknown ports history.now i }
    ensures { IfOk result (λ times. AreTimes ports history.now times.items) }
{
    let mut times = empty_times(alloc, ports)?;
    for seen in history {
        note(&mut times, seen)?;
    }
    Ok(times)
}

/// When the port's answer of this number began, if there is one.
pub(crate) fn until_of(times: &[Vec<u64>], port: usize, number: usize) -> Option<u64>
    requires { port < length times.now }
    ensures { result ≡ until_in times.now port number }
{
    times[port].get(number).copied()
}
