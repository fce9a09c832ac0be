//! Events that were got, as long as they are held for certain.

ghost use Rattle.std.specs.Prelude.{◌≡◌, ℕ, ◌<◌, false, IfNone, IfSome, length};
ghost use Rattle.evt_types.specs.Fault.{IsWithinLimits};
ghost use Rattle.evt_types.specs.Plan.{lanes_of};
ghost use Rattle.history_judge.specs.Breaches as breaches;
ghost use Rattle.history_judge.specs.Breaches.{IsUnlinked};
ghost use Rattle.history_judge.specs.Entries.{IsUnknown};
ghost use Rattle.history_judge.specs.Holds as specs;
ghost use Rattle.history_judge.specs.Holds.{cell_count};

use crate::seen::{Deed, Seen};
use crate::times::until_of;
use evt_types::{Event, MAX_SLOTS, Shape};
use std::alloc::Global;

/// How many cells a queue has: one for each slot that it may have.
const CELLS: usize = MAX_SLOTS as usize;

/// An event of an atomic queue that a port got, and for how long it is held for certain.
#[derive(Clone, Copy)]
pub(crate) struct Hold {
    pub(crate) at: usize,
    pub(crate) port: usize,
    /// The cell of the event's slot.
    pub(crate) cell: usize,
    /// From the end of the call that got it.
    pub(crate) since: u64,
    /// Until the call began that answered it; where none did, it is held still.
    pub(crate) until: Option<u64>,
}

/// How many cells there are.
pub(crate) fn cells(shape: &Shape) -> usize
    ensures { result ≡ cell_count shape.now }
{
    shape.queues().len() * CELLS
}

/// How many ports there are.
pub(crate) fn port_count(shape: &Shape) -> usize
    ensures { result ≡ length shape.now.ports }
{
    shape.ports().len()
}

/// Whether the port may get the event.
fn may_get(shape: &Shape, port: usize, event: &Event) -> bool
    requires { port < lanes_of shape.now }
    ensures { result ≡ breaches.may_get shape.now port event.now }
{
    let queue = usize::from(event.queue);
    if queue >= shape.queues().len() {
        return false;
    }
    shape.serves(port, queue, shape.slot_of(queue, event.flow))
}

/// Whether the entry got what its port may not get.
fn is_unlinked(shape: &Shape, seen: &Seen) -> bool
    requires { seen.now.port < lanes_of shape.now }
    ensures { result ≡ specs.got_wrongly shape.now seen.now }
{
    match &seen.deed {
        Deed::Got(event) => !may_get(shape, seen.port, event),
        Deed::Sent(_) => false,
    }
}

/// The first entry that got what its port may not get.
pub(crate) fn first_unlinked(shape: &Shape, history: &[Seen]) -> Option<usize>
    requires { (i : ℕ) → ¬ IsUnknown (length shape.now.ports) history.now i }
    ensures some { IfSome result (λ i. IsUnlinked shape.now history.now i) }
    ensures none { IfNone result ((i : ℕ) → ¬ IsUnlinked shape.now history.now i) }
{
    for (at, seen) in history.iter().enumerate() {
        if is_unlinked(shape, seen) {
            return Some(at);
        }
    }
    None
}

/// The hold of an entry that got an event of an atomic queue; so many its port got before it.
pub(crate) fn hold_of(
    shape: &Shape,
    seen: &Seen,
    at: usize,
    number: usize,
    times: &[Vec<u64>],
) -> Option<Hold>
    requires port { seen.now.port < length times.now }
    requires linked { specs.got_wrongly shape.now seen.now ≡ false }
    requires within { IsWithinLimits shape.now }
    ensures value { result ≡ specs.hold_in shape.now seen.now at number times.now }
    ensures cell { IfSome result (λ h. h.cell < cell_count shape.now) }
{
    let Deed::Got(event) = &seen.deed else {
        return None;
    };
    let queue = usize::from(event.queue);
    if !shape.queues()[queue].kind.is_atomic() {
        return None;
    }
    Some(Hold {
        at,
        port: seen.port,
        cell: queue * CELLS + shape.slot_of(queue, event.flow),
        since: seen.ended,
        until: until_of(times, seen.port, number),
    })
}
