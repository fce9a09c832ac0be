//! The unanswered events of all lanes.

ghost use Rattle.std.specs.Prelude.{◌≡◌, ℕ, true, take, ◌+◌, ◌<◌, ◌≤◌, ◌==◌, ◌∷◌, ◌++◌, [], count_by, length, map, drop, slice_get, slice_set, Some, IfNone, IfOk, IfSome, IsTrue, IsFalse};
ghost use Rattle.evt_types.specs.Plan.{lanes_of};
ghost use Rattle.evt_types.specs.declared.shape.TheConstants.{MAX_DEPTH};
ghost use Rattle.order_parts.specs.Dealing.{AreDealt, HasNoLane, IsBestOf, room_at};
ghost use Rattle.order_parts.specs.HandedRow.{AreHandedOn, IsRefused, OfFlows};
ghost use Rattle.order_parts.specs.Orders.{is_restoring, order_at};
ghost use Rattle.order_parts.specs.Pins.{may_pin};
ghost use Rattle.order_parts.specs.QueuePins.{pin_in, pins_at};
ghost use Rattle.order_parts.specs.History.{entries_of};
ghost use Rattle.order_parts.specs.declared.history.Entry.{Entry as EntryValue};
ghost use Rattle.order_parts.specs.Histories.{AreRoomy, HasRoom, lane_in, AreEmptyLanes};
ghost use Rattle.small_set.specs.SmallSets.{Has, SameBut};

use crate::all_orders::AllOrders;
use crate::all_pins::AllPins;
use crate::dealing::{deal_each, deal_ordered, lane_among};
use crate::handing::hand_each;
use crate::history::{Entry, History};
use arrayvec::ArrayVec;
use evt_types::{Delivery, Memory, Shape};
use small_set::{MAX_MEMBERS, SmallSet};
use std::alloc::Global;
use std::marker::Model;

/// The history of each lane, and a word of the lanes that have room, so that the lanes with room are asked for at once.
#[derive(Drop)]
pub struct Histories {
    pub(crate) lanes: Vec<History>,
    /// Of the first lanes those that have room. The ports' lanes are among them.
    roomy: SmallSet,
}

impl Model for Histories {
    ghost use Rattle.std.specs.Prelude.{List};
    ghost use Rattle.order_parts.specs.History.{Entries};
    ghost use Rattle.order_parts.specs.Histories.{AreRoomy};

    ghost Value = { List Entries };

    ghost view = { λ a. a.lanes.items };

    ghost invariant = { λ a. AreRoomy a.lanes.items a.roomy };
}

/// The unanswered events of each lane, none, with room for what the port may hold.
fn empty_lanes(alloc: Global, shape: &Shape) -> Result<Vec<History>, Memory>
    ensures { IfOk result (λ ls. AreEmptyLanes shape.now (lanes_of shape.now) ls.items) }
{
    let count = shape.lanes();
    let mut lanes = Vec::with_capacity(alloc, count)?;
    for lane in 0..count {
        lanes.push(History::new(alloc, shape.depth_of(lane))?)?;
    }
    Ok(lanes)
}

/// The lane has no room any more, which is seldom so.
#[cold]
pub(crate) fn note_full(roomy: &mut SmallSet, lane: usize)
    ensures others { SameBut lane roomy.old roomy.new }
    ensures full { lane < 64 → ¬ Has roomy.new lane }
{
    if lane < MAX_MEMBERS {
        roomy.remove(lane);
    }
}

/// The lane has room again.
#[cold]
fn note_room(roomy: &mut SmallSet, lane: usize)
    ensures others { SameBut lane roomy.old roomy.new }
    ensures room { lane < 64 → Has roomy.new lane }
{
    if lane < MAX_MEMBERS {
        roomy.add(lane);
    }
}

/// An event leaves the lane, which has room then.
#[inline(always)]
fn leave(roomy: &mut SmallSet, lane: usize, is_full: bool)
    ensures others { SameBut lane roomy.old roomy.new }
    ensures room { IsTrue is_full → lane < 64 → Has roomy.new lane }
    ensures same { IsFalse is_full → roomy.new ≡ roomy.old }
{
    if is_full {
        note_room(roomy, lane);
    }
}

impl Histories {
    /// The histories of the configuration's lanes, in which nothing is unanswered.
    pub fn new(alloc: Global, shape: &Shape) -> Result<Histories, Memory>
        ensures { IfOk result (λ ls. AreEmptyLanes shape.now (lanes_of shape.now) ls) }
    {
        // To read a limit makes known that the limits hold: each lane has room for one event at least.
        let _ = shape.limit();
        Ok(Histories {
            lanes: empty_lanes(alloc, shape)?,
            roomy: SmallSet::below(MAX_MEMBERS),
        })
    }

    /// How many events of the lane are unanswered.
    pub fn len(&self, lane: usize) -> usize
        requires { lane < length self.now }
        ensures { result ≡ length (lane_in self.now lane).entries }
    {
        self.lanes[lane].len
    }

    /// Whether no event of the lane is unanswered.
    pub fn is_empty(&self, lane: usize) -> bool
        requires { lane < length self.now }
        ensures { result ≡ (length (lane_in self.now lane).entries == 0) }
    {
        self.lanes[lane].len == 0
    }

    /// How many events more the lane has room for.
    pub fn room(&self, lane: usize) -> usize
        requires { lane < length self.now }
        ensures { result + length (lane_in self.now lane).entries ≡ (lane_in self.now lane).capacity }
    {
        self.lanes[lane].room()
    }

    /// How many of the lane's unanswered events are of the queue.
    pub fn count_of(&self, lane: usize, queue: usize) -> usize
        requires { lane < length self.now }
        ensures { result ≡ count_by (λ (y : EntryValue). y.queue == queue) (lane_in self.now lane).entries }
    {
        self.lanes[lane].count_of(queue)
    }

    /// Of the first lanes those that have room.
    pub fn roomy(&self) -> SmallSet
        ensures { AreRoomy self.now result }
    {
        self.roomy
    }

    /// One event more is unanswered.
    pub fn push(&mut self, lane: usize, entry: Entry)
        requires there { lane < length self.old }
        requires room { HasRoom self.old lane }
        ensures { self.new ≡ slice_set self.old lane (entries_of ((lane_in self.old lane).entries ++ entry ∷ []) (lane_in self.old lane).capacity) }
    {
        let history = &mut self.lanes[lane];
        history.push(entry);
        if history.is_full() {
            note_full(&mut self.roomy, lane);
        }
    }

    /// Events of a queue that restores no order are handed to the lane, in their order, as long as it may have the slot of each: how
    /// many. Each is one more that is unanswered.
    #[inline(always)]
    pub fn push_row<F: Fn(u32) -> usize>(
        &mut self,
        pins: &mut AllPins,
        lane: usize,
        queue: usize,
        row: &[Delivery],
        slot_of: F,
    ) -> usize
        requires callable { F.IsAlwaysCallable slot_of }
        requires lane { lane < length self.old }
        requires queue { queue < length pins.old }
        requires counts { (slot : ℕ) → IsTrue (may_pin (pin_in pins.old queue slot) lane) → (pin_in pins.old queue slot).count + length row.now ≤ MAX_DEPTH }
        requires room { length (lane_in self.old lane).entries + length row.now ≤ (lane_in self.old lane).capacity }
        ensures few { result ≤ length row.now }
        ensures handed { AreHandedOn (OfFlows (F.post slot_of)) lane queue (pins_at pins.old queue) (lane_in self.old lane).entries (take result row.now) (pins_at pins.new queue) (lane_in self.new lane).entries }
        ensures last { result < length row.now → IsRefused (OfFlows (F.post slot_of)) lane (pins_at pins.new queue) row.now result }
        ensures pins { pins.new ≡ slice_set pins.old queue (pins_at pins.new queue) }
        ensures lanes { self.new ≡ slice_set self.old lane (entries_of (lane_in self.new lane).entries (lane_in self.old lane).capacity) }
    {
        let history = &mut self.lanes[lane];
        let count = hand_each(&mut pins.queues[queue], history, lane, queue, row, slot_of);
        if history.is_full() {
            note_full(&mut self.roomy, lane);
        }
        count
    }

    /// Of these lanes the one that may have the queue's slot and has fewest unanswered events, of several the first.
    #[inline(always)]
    pub fn lane_among(
        &self,
        pins: &AllPins,
        lanes: SmallSet,
        queue: usize,
        slot: usize,
    ) -> Option<usize>
        requires queue { queue < length pins.now }
        requires lanes { (l : ℕ) → Has lanes l → l < length self.now }
        ensures best { IfSome result (IsBestOf (pins_at pins.now queue) self.now lanes slot) }
        ensures none { IfNone result ((l : ℕ) → Has lanes l → ¬ IsTrue (may_pin (pin_in pins.now queue slot) l)) }
    {
        lane_among(&pins.queues[queue], &self.lanes, lanes, slot)
    }

    /// Deals events of the queue among these lanes, in their order, each to the best one of them that has room, as long as one of those
    /// may have the event's slot: each one's lane. Each is one more that is unanswered.
    #[inline(always)]
    pub fn deal_row<F: Fn(u32) -> usize>(
        &mut self,
        orders: &mut AllOrders,
        pins: &mut AllPins,
        among: SmallSet,
        queue: usize,
        row: &[Delivery],
        slot_of: F,
        to: &mut ArrayVec<usize, 32>,
    )
        requires callable { F.IsAlwaysCallable slot_of }
        requires order { queue < length orders.old }
        requires pins { queue < length pins.old }
        requires there { (l : ℕ) → Has among l → l < length self.old }
        requires roomy { (l : ℕ) → Has among l → HasRoom self.old l }
        requires unpinned { is_restoring (order_at orders.old queue) ≡ true → pins_at pins.old queue ≡ [] }
        requires places { is_restoring (order_at orders.old queue) ≡ true → length (order_at orders.old queue).places + length row.now ≤ (order_at orders.old queue).depth }
        requires counts { (slot l : ℕ) → Has among l → IsTrue (may_pin (pin_in pins.old queue slot) l) → (pin_in pins.old queue slot).count + room_at self.old l ≤ MAX_DEPTH }
        requires few { length row.now ≤ 32 }
        requires none { to.old.items ≡ [] }
        ensures few { length to.new.items ≤ length row.now }
        ensures last { length to.new.items < length row.now → HasNoLane (OfFlows (F.post slot_of)) among (pins_at pins.new queue) self.new row.now (length to.new.items) }
        ensures dealt { AreDealt (OfFlows (F.post slot_of)) among queue (order_at orders.old queue) (pins_at pins.old queue) self.old (take (length to.new.items) row.now) to.new.items (order_at orders.new queue) (pins_at pins.new queue) self.new }
        ensures orders { orders.new ≡ slice_set orders.old queue (order_at orders.new queue) }
        ensures pins { pins.new ≡ slice_set pins.old queue (pins_at pins.new queue) }
    {
        let mut open = among;
        match &mut orders.queues[queue] {
            Some(order) => {
                deal_ordered(order, &mut self.lanes, &mut open, queue, row, slot_of, to);
            }
            None => {
                let pins = &mut pins.queues[queue];
                deal_each(pins, &mut self.lanes, &mut open, queue, row, slot_of, to);
            }
        }
        self.roomy = self.roomy.except(among.except(open));
    }

    /// The lane's oldest event, which stays.
    pub fn oldest(&self, lane: usize) -> Entry
        requires there { lane < length self.now }
        requires some { 0 < length (lane_in self.now lane).entries }
        ensures { slice_get (lane_in self.now lane).entries 0 ≡ Some result }
    {
        self.lanes[lane].oldest().unwrap()
    }

    /// The numbers of so many of the lane's oldest events.
    #[inline(always)]
    pub fn numbers(&self, lane: usize, count: usize) -> ArrayVec<u64, 32>
        requires there { lane < length self.now }
        requires few { count ≤ 32 }
        requires held { count ≤ length (lane_in self.now lane).entries }
        ensures { result.items ≡ map (λ (y : EntryValue). y.number) (take count (lane_in self.now lane).entries) }
    {
        self.lanes[lane].numbers(count)
    }

    /// Takes out so many of the lane's oldest events, one at least.
    #[inline(always)]
    pub fn drop_oldest(&mut self, lane: usize, count: usize)
        requires there { lane < length self.old }
        requires some { 0 < count }
        requires held { count ≤ length (lane_in self.old lane).entries }
        ensures { self.new ≡ slice_set self.old lane (entries_of (drop count (lane_in self.old lane).entries) (lane_in self.old lane).capacity) }
    {
        let history = &mut self.lanes[lane];
        leave(&mut self.roomy, lane, history.is_full());
        // To ask for the count makes known that no more are held than there is room for.
        let _ = history.len();
        history.drop_oldest(count);
    }

    /// Takes out the lane's oldest event.
    pub fn pop(&mut self, lane: usize) -> Entry
        requires there { lane < length self.old }
        requires some { 0 < length (lane_in self.old lane).entries }
        ensures oldest { slice_get (lane_in self.old lane).entries 0 ≡ Some result }
        ensures rest { self.new ≡ slice_set self.old lane (entries_of (drop 1 (lane_in self.old lane).entries) (lane_in self.old lane).capacity) }
    {
        let history = &mut self.lanes[lane];
        leave(&mut self.roomy, lane, history.is_full());
        // To ask for the count makes known that no more are held than there is room for.
        let _ = history.len();
        history.pop().unwrap()
    }
}
