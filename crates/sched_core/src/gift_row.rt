//! Where one lane is open, the first events of a queue and level are handed to it as a row.

ghost use Rattle.std.specs.Prelude.{◌≡◌, ℕ, ◌+◌, ◌<◌, ◌≤◌, [], true, false, length, take, IsTrue};
ghost use Rattle.evt_types.specs.Plan.{has_flow_lanes, lanes_of};
ghost use Rattle.evt_types.specs.declared.shape.TheConstants.{MAX_DEPTH, MAX_QUEUES};
ghost use Rattle.order_parts.specs.Histories.{lane_in};
ghost use Rattle.order_parts.specs.Orders.{is_restoring, order_at};
ghost use Rattle.order_parts.specs.Pins.{may_pin};
ghost use Rattle.order_parts.specs.QueuePins.{pin_in};
ghost use Rattle.sched_core.specs.Offered.{IsOnly};
ghost use Rattle.sched_core.specs.GiftRows.{AreHanded};
ghost use Rattle.sched_core.specs.Runs.{AreGiven, HasTurn, IsSteady};

use crate::skips::Skips;
use crate::state::Core;
use arrayvec::ArrayVec;
use evt_types::Delivery;
use order_parts::{AllOrders, AllPins, Entry, Histories};
use parked_queue::{Level, QueueSlots};
use small_set::{MAX_MEMBERS, SmallSet};

/// Hands events of the queue to the lane, in their order, as long as the lane may have the slot of each: how many.
#[inline(always)]
fn hand_all(
    slots: QueueSlots,
    orders: &mut AllOrders,
    pins: &mut AllPins,
    lanes: &mut Histories,
    lane: usize,
    queue: usize,
    row: &[Delivery],
) -> usize
    requires order { queue < length orders.old }
    requires pins { queue < length pins.old }
    requires lane { lane < length lanes.old }
    requires places { is_restoring (order_at orders.old queue) ≡ true → length (order_at orders.old queue).places + length row.now ≤ (order_at orders.old queue).depth }
    requires counts { (slot : ℕ) → IsTrue (may_pin (pin_in pins.old queue slot) lane) → (pin_in pins.old queue slot).count + length row.now ≤ MAX_DEPTH }
    requires room { length (lane_in lanes.old lane).entries + length row.now ≤ (lane_in lanes.old lane).capacity }
    ensures few { result ≤ length row.now }
    ensures handed { AreHanded slots.count lane queue orders.old pins.old lanes.old (take result row.now) orders.new pins.new lanes.new }
{
    if !orders.restores(queue) {
        return lanes.push_row(pins, lane, queue, row, |flow| slots.of(flow));
    }
    let mut count = 0;
    for delivery in row {
        let slot = slots.of(delivery.packed().flow());
        if !pins.may(queue, slot, lane) {
            return count;
        }
        pins.pin(queue, slot, lane);
        let number = delivery.number();
        let place = orders.hand(queue, number);
        lanes.push(
            lane,
            Entry {
                queue,
                number,
                slot,
                place,
            },
        );
        count += 1;
    }
    count
}

impl Core {
    /// Hands the first events of the queue's level to the only open lane, as a row, each of which is the choice then, as far as they are quick
    /// to see. Nothing is logged or counted yet.
    #[inline(always)]
    pub(crate) fn hand_row(
        &mut self,
        lane: usize,
        queue: usize,
        level: Level,
        _lanes: SmallSet,
        bound: usize,
        _skips: &Skips,
        run: &mut ArrayVec<Delivery, 32>,
    )
        requires turn { HasTurn self.old _skips.now queue level.number }
        requires ports { has_flow_lanes self.old.shape queue ≡ false }
        requires steady { IsSteady self.old _skips.now lane queue bound _lanes }
        requires alone { IsOnly _lanes lane }
        requires lane { lane < lanes_of self.old.shape }
        requires counts { length _skips.now.given ≡ MAX_QUEUES }
        requires room { bound ≤ 32 }
        requires none { run.old.items ≡ [] }
        ensures { AreGiven lane queue bound self.old _skips.now run.new.items self.new }
    {
        // To make the set of all slots makes known that there is one.
        let _ = SmallSet::below(MAX_MEMBERS);
        self.queues.push_heads(queue, level, bound, run);
        let count = hand_all(
            self.queues.slots(queue),
            &mut self.orders,
            &mut self.pins,
            &mut self.lanes,
            lane,
            queue,
            run.as_slice(),
        );
        run.truncate(count);
        self.queues.remove_row(queue, level, run.as_slice());
    }
}
