//! A row of events of a queue is dealt among lanes, each event to the lane with fewest unanswered ones.

ghost use Rattle.std.specs.Prelude.{◌≡◌, ℕ, ◌+◌, ◌<◌, ◌≤◌, [], true, false, length, take, IfNone, IfSome, IsTrue};
ghost use Rattle.evt_types.specs.declared.shape.TheConstants.{MAX_DEPTH};
ghost use Rattle.order_parts.specs.Dealing.{AreDealt, AreOpenOf, HasNoLane, IsBestOf, loads_in, room_at, with_entry};
ghost use Rattle.order_parts.specs.HandedRow.{OfFlows, with_pinned};
ghost use Rattle.order_parts.specs.Histories.{HasRoom, lane_in};
ghost use Rattle.order_parts.specs.Orders.{is_restoring};
ghost use Rattle.order_parts.specs.Pins.{may_pin, pin_at};
ghost use Rattle.order_parts.specs.Reorder.{Reordering};
ghost use Rattle.order_parts.specs.Rounds.{IsHolder, IsRound, IsRoundBut};
ghost use Rattle.small_set.specs.SmallSets.{Has};

use crate::histories::note_full;
use crate::history::{Entry, History};
use crate::pins::Pins;
use crate::reorder::Reorder;
use crate::round::{Round, least_loaded};
use arrayvec::ArrayVec;
use evt_types::Delivery;
use small_set::{MAX_MEMBERS, SmallSet};

/// Who may have a slot, of some lanes.
enum Holder {
    /// This one of them alone.
    Is(usize),
    /// None of them.
    Away,
    /// Any of them.
    Free,
}

/// Who may have the slot, of these lanes.
#[inline(always)]
fn holder_among(pins: &Pins, lanes: SmallSet, slot: usize) -> Holder
    ensures { IsHolder (pin_at pins.now slot) lanes result }
{
    match pins.holder(slot) {
        Some(lane) if lane < MAX_MEMBERS && lanes.has(lane) => Holder::Is(lane),
        Some(_) => Holder::Away,
        None => Holder::Free,
    }
}

/// Of these lanes the one that may have the slot and has fewest unanswered events, of several the first.
#[inline(always)]
pub(crate) fn lane_among(
    pins: &Pins,
    histories: &[History],
    lanes: SmallSet,
    slot: usize,
) -> Option<usize>
    requires { (l : ℕ) → Has lanes l → l < length histories.now }
    ensures best { IfSome result (IsBestOf pins.now histories.now lanes slot) }
    ensures none { IfNone result ((l : ℕ) → Has lanes l → ¬ IsTrue (may_pin (pin_at pins.now slot) l)) }
{
    match holder_among(pins, lanes, slot) {
        Holder::Is(lane) => Some(lane),
        Holder::Away => None,
        Holder::Free => least_loaded(histories, lanes),
    }
}

/// The same, in a round. The lane has the slot then: an event more of it goes there. A slot without a pin is free.
#[inline(always)]
fn pin_among(
    pins: &mut Pins,
    round: &mut Round,
    histories: &[History],
    lanes: SmallSet,
    slot: usize,
) -> Option<usize>
    requires there { (l : ℕ) → Has lanes l → l < length histories.now }
    requires room { (l : ℕ) → Has lanes l → IsTrue (may_pin (pin_at pins.old slot) l) → (pin_at pins.old slot).count < MAX_DEPTH }
    requires round { IsRound round.old (loads_in histories.now) lanes }
    ensures best { IfSome result (IsBestOf pins.old histories.now lanes slot) }
    ensures pinned { IfSome result (λ l. pins.new ≡ with_pinned pins.old slot l) }
    ensures none { IfNone result ((l : ℕ) → Has lanes l → ¬ IsTrue (may_pin (pin_at pins.old slot) l)) }
    ensures same { IfNone result (pins.new ≡ pins.old) }
    ensures round { IfSome result (λ l. IsRoundBut l round.new (loads_in histories.now) lanes) }
{
    if pins.slots() <= slot {
        return round.next(histories, lanes);
    }
    let lane = match holder_among(pins, lanes, slot) {
        Holder::Is(lane) => lane,
        Holder::Away => return None,
        Holder::Free => round.next(histories, lanes)?,
    };
    pins.pin(slot, lane);
    Some(lane)
}

/// One event more of the lane is unanswered. It is open no more where it has no room then.
#[inline(always)]
fn push(lanes: &mut [History], opened: &mut SmallSet, lane: usize, entry: Entry)
    requires there { lane < length lanes.old }
    requires low { lane < MAX_MEMBERS }
    requires room { HasRoom lanes.old lane }
    ensures lanes { lanes.new ≡ with_entry lanes.old lane entry }
    ensures open { (among : SmallSet) → AreOpenOf among lanes.old opened.old → AreOpenOf among lanes.new opened.new }
    ensures fewer { (l : ℕ) → Has opened.new l → Has opened.old l }
{
    let history = &mut lanes[lane];
    history.push(entry);
    if history.is_full() {
        note_full(opened, lane);
    }
}

/// Deals events of the queue, which restores no order, in their order, each to the best of the open lanes then, as long as one of these may
/// have the slot of the event: each one's lane. A lane is open until it has no room.
#[inline(always)]
pub(crate) fn deal_each<F: Fn(u32) -> usize>(
    pins: &mut Pins,
    lanes: &mut [History],
    opened: &mut SmallSet,
    queue: usize,
    row: &[Delivery],
    slot_of: F,
    to: &mut ArrayVec<usize, 32>,
)
    requires callable { F.IsAlwaysCallable slot_of }
    requires there { (l : ℕ) → Has opened.old l → l < length lanes.old }
    requires low { (l : ℕ) → Has opened.old l → l < MAX_MEMBERS }
    requires roomy { (l : ℕ) → Has opened.old l → HasRoom lanes.old l }
    requires counts { (slot l : ℕ) → Has opened.old l → IsTrue (may_pin (pin_at pins.old slot) l) → (pin_at pins.old slot).count + room_at lanes.old l ≤ MAX_DEPTH }
    requires few { length row.now ≤ 32 }
    requires none { to.old.items ≡ [] }
    ensures few { length to.new.items ≤ length row.now }
    ensures last { length to.new.items < length row.now → HasNoLane (OfFlows (F.post slot_of)) opened.old pins.new lanes.new row.now (length to.new.items) }
    ensures dealt { (r : Reordering) → is_restoring r ≡ false → AreDealt (OfFlows (F.post slot_of)) opened.old queue r pins.old lanes.old (take (length to.new.items) row.now) to.new.items r pins.new lanes.new }
    ensures open { AreOpenOf opened.old lanes.new opened.new }
    ensures others { (l : ℕ) → ¬ Has opened.old l → lane_in lanes.new l ≡ lane_in lanes.old l }
    ensures count { length lanes.new ≡ length lanes.old }
{
    let mut round = Round::of(*opened);
    for delivery in row {
        let slot = slot_of(delivery.packed().flow());
        let Some(lane) = pin_among(pins, &mut round, lanes, *opened, slot) else {
            return;
        };
        push(
            lanes,
            opened,
            lane,
            Entry {
                queue,
                number: delivery.number(),
                slot,
                place: 0,
            },
        );
        to.push(lane);
    }
}

/// The same of a queue that restores an order. Its slots have no pins.
#[inline(always)]
pub(crate) fn deal_ordered<F: Fn(u32) -> usize>(
    order: &mut Reorder,
    lanes: &mut [History],
    opened: &mut SmallSet,
    queue: usize,
    row: &[Delivery],
    slot_of: F,
    to: &mut ArrayVec<usize, 32>,
)
    requires callable { F.IsAlwaysCallable slot_of }
    requires there { (l : ℕ) → Has opened.old l → l < length lanes.old }
    requires low { (l : ℕ) → Has opened.old l → l < MAX_MEMBERS }
    requires roomy { (l : ℕ) → Has opened.old l → HasRoom lanes.old l }
    requires places { length order.old.places + length row.now ≤ order.old.depth }
    requires restores { is_restoring order.old ≡ true }
    requires few { length row.now ≤ 32 }
    requires none { to.old.items ≡ [] }
    ensures few { length to.new.items ≤ length row.now }
    ensures last { length to.new.items < length row.now → HasNoLane (OfFlows (F.post slot_of)) opened.old [] lanes.new row.now (length to.new.items) }
    ensures dealt { AreDealt (OfFlows (F.post slot_of)) opened.old queue order.old [] lanes.old (take (length to.new.items) row.now) to.new.items order.new [] lanes.new }
    ensures restores { is_restoring order.new ≡ true }
    ensures open { AreOpenOf opened.old lanes.new opened.new }
    ensures others { (l : ℕ) → ¬ Has opened.old l → lane_in lanes.new l ≡ lane_in lanes.old l }
    ensures count { length lanes.new ≡ length lanes.old }
{
    let mut round = Round::of(*opened);
    for delivery in row {
        let slot = slot_of(delivery.packed().flow());
        let Some(lane) = round.next(lanes, *opened) else {
            return;
        };
        let number = delivery.number();
        let place = order.hand(number);
        push(
            lanes,
            opened,
            lane,
            Entry {
                queue,
                number,
                slot,
                place,
            },
        );
        to.push(lane);
    }
}
