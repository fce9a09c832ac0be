//! A row of events of a queue that restores no order is handed to a lane.

ghost use Rattle.std.specs.Prelude.{◌≡◌, ℕ, ◌+◌, ◌<◌, ◌≤◌, length, take, IsTrue, IsFalse};
ghost use Rattle.evt_types.specs.declared.shape.TheConstants.{MAX_DEPTH};
ghost use Rattle.order_parts.specs.HandedRow.{AreHandedOn, IsRefused, OfFlows, with_pinned};
ghost use Rattle.order_parts.specs.Pins.{may_pin, pin_at};

use crate::history::{Entry, History};
use crate::pins::Pins;
use evt_types::Delivery;

/// An event more of the slot goes to the lane, if it may: whether it does. A slot without a pin is free.
#[inline(always)]
fn pin_slot(pins: &mut Pins, slot: usize, lane: usize) -> bool
    requires room { IsTrue (may_pin (pin_at pins.old slot) lane) → (pin_at pins.old slot).count < MAX_DEPTH }
    ensures value { result ≡ may_pin (pin_at pins.old slot) lane }
    ensures pinned { IsTrue result → pins.new ≡ with_pinned pins.old slot lane }
    ensures same { IsFalse result → pins.new ≡ pins.old }
{
    if pins.slots() <= slot {
        return true;
    }
    if !pins.may(slot, lane) {
        return false;
    }
    pins.pin(slot, lane);
    true
}

/// Hands events of the queue, which restores no order, to the lane of the history, in their order, as long as the lane may have the
/// slot of each: how many.
#[inline(always)]
pub(crate) fn hand_each<F: Fn(u32) -> usize>(
    pins: &mut Pins,
    history: &mut History,
    lane: usize,
    queue: usize,
    row: &[Delivery],
    slot_of: F,
) -> usize
    requires callable { F.IsAlwaysCallable slot_of }
    requires counts { (slot : ℕ) → IsTrue (may_pin (pin_at pins.old slot) lane) → (pin_at pins.old slot).count + length row.now ≤ MAX_DEPTH }
    requires room { length history.old.entries + length row.now ≤ history.old.capacity }
    ensures few { result ≤ length row.now }
    ensures handed { AreHandedOn (OfFlows (F.post slot_of)) lane queue pins.old history.old.entries (take result row.now) pins.new history.new.entries }
    ensures last { result < length row.now → IsRefused (OfFlows (F.post slot_of)) lane pins.new row.now result }
    ensures capacity { history.new.capacity ≡ history.old.capacity }
{
    let mut count = 0;
    for delivery in row {
        let slot = slot_of(delivery.packed().flow());
        if !pin_slot(pins, slot, lane) {
            return count;
        }
        history.push(Entry {
            queue,
            number: delivery.number(),
            slot,
            place: 0,
        });
        count += 1;
    }
    count
}
