//! The reorder buffers of a device's queues.

ghost use Rattle.std.specs.Prelude.{◌≡◌, ◌≢◌, ◌↔◌, ◌<◌, ◌≤◌, ◌^◌, ◌&&◌, true, false, All, Some, length, map, slice_get, slice_set, slice_index_or, sum_by, take, is_some, option_copied, option_map, Some, IfNone, IfOk, IfSome, IsTrue};
ghost use Rattle.order_parts.specs.Histories.{lane_in};
ghost use Rattle.order_parts.specs.InTurn.{AreInTurn, EndsTurn};
ghost use Rattle.order_parts.specs.Reorder.{empty, next_number, place_at, place_or_open, is_open, kept_of, is_done, left, left_plain, oldest_answered, after_leave, open_place};
ghost use Rattle.order_parts.specs.Released.{kept_in_places, released_in};
ghost use Rattle.order_parts.specs.Unpinned.{IsOfQueue};
ghost use Rattle.order_parts.specs.declared.history.Entry.{Entry as EntryValue};
ghost use Rattle.order_parts.specs.Orders.{IsBuffer, is_restoring, has_place, places_for, handed, added_in, left_in, resolved_in, order_at};
ghost use Rattle.evt_types.specs.Plan as plans;

use crate::histories::Histories;
use crate::reorder::Reorder;
use arrayvec::ArrayVec;
use evt_types::{MAX_EXTRAS, MAX_FORWARDS, MAX_QUEUES, Memory, Numbered, PackedEvent, QueueDraft};
use std::alloc::Global;
use std::marker::Model;

/// An ordered queue has a buffer with a place for each of its open events; any other queue restores no order and has none.
#[derive(Drop)]
pub struct AllOrders {
    pub(crate) queues: Vec<Option<Reorder>>,
}

impl Model for AllOrders {
    ghost use Rattle.std.specs.Prelude.{List, map};
    ghost use Rattle.order_parts.specs.Reorder.{Reordering};
    ghost use Rattle.order_parts.specs.Orders.{shown, AreOrders};

    ghost Value = { List Reordering };

    ghost view = { λ a. map shown a.queues.items };

    ghost invariant = { AreOrders };
}

/// How many places the queue has: none where it restores no order.
fn kept_room(queue: &QueueDraft) -> usize
    ensures value { result ≡ plans.kept_room queue.now }
    ensures small { result < 2 ^ 32 }
{
    if queue.kind.is_ordered() {
        queue.order as usize
    } else {
        0
    }
}

/// How many places all queues have: each may keep several events.
pub fn all_kept_room(queues: &[QueueDraft]) -> usize
    requires { length queues.now ≤ MAX_QUEUES }
    ensures { result ≡ sum_by plans.kept_room queues.now }
{
    queues.iter().map(kept_room).sum()
}

/// The buffer of the queue, if it restores an order.
fn buffer(alloc: Global, queue: &QueueDraft) -> Result<Option<Reorder>, Memory>
    ensures { IfOk result (λ o. IsBuffer (plans.kept_room queue.now) o) }
{
    match kept_room(queue) {
        0 => Ok(None),
        depth => Ok(Some(Reorder::new(alloc, depth)?)),
    }
}

impl AllOrders {
    /// The buffers of these queues, without places.
    pub fn new(alloc: Global, queues: &[QueueDraft]) -> Result<AllOrders, Memory>
        ensures { IfOk result (λ o. o ≡ map (λ q. empty (plans.kept_room q)) queues.now) }
    {
        let mut orders = Vec::with_capacity(alloc, queues.len())?;
        for queue in queues {
            orders.push(buffer(alloc, queue)?)?;
        }
        Ok(AllOrders { queues: orders })
    }

    /// Whether the queue restores an order.
    #[inline(always)]
    pub fn restores(&self, queue: usize) -> bool
        requires { queue < length self.now }
        ensures { result ≡ is_restoring (order_at self.now queue) }
    {
        self.queues[queue].is_some()
    }

    /// Whether an event of the queue may be handed out: there is a place for it, or it needs none.
    #[inline(always)]
    pub fn has_place(&self, queue: usize) -> bool
        requires { queue < length self.now }
        ensures { result ≡ has_place (order_at self.now queue) }
    {
        match &self.queues[queue] {
            Some(order) => order.room(),
            None => true,
        }
    }

    /// Of so many events of the queue, how many may be handed out before one is answered: an ordered queue has a place for each.
    #[inline(always)]
    pub fn places_for(&self, queue: usize, most: usize) -> usize
        requires { queue < length self.now }
        ensures { result ≡ places_for (order_at self.now queue) most }
    {
        match &self.queues[queue] {
            Some(order) => order.free().min(most),
            None => most,
        }
    }

    /// The queue's event of this number is handed out: its place, which means something where the queue restores an order.
    #[inline(always)]
    pub fn hand(&mut self, queue: usize, number: u64) -> u64
        requires there { queue < length self.old }
        requires room { IsTrue (has_place (order_at self.old queue)) }
        ensures place { is_restoring (order_at self.old queue) ≡ true → result ≡ next_number (order_at self.old queue) }
        ensures handed { self.new ≡ slice_set self.old queue (handed (order_at self.old queue) number) }
    {
        match &mut self.queues[queue] {
            Some(order) => order.hand(number),
            None => 0,
        }
    }

    /// The event is added beside that of the place, which is unanswered: whether it is kept there.
    pub fn add(&mut self, queue: usize, place: u64, event: PackedEvent) -> bool
        requires there { queue < length self.old }
        requires open { is_restoring (order_at self.old queue) ≡ true → IsTrue (is_open (place_at (order_at self.old queue) place)) }
        requires room { is_restoring (order_at self.old queue) ≡ true → length (place_or_open (order_at self.old queue) place).forwards < MAX_EXTRAS }
        ensures kept { result ≡ is_restoring (order_at self.old queue) }
        ensures added { self.new ≡ slice_set self.old queue (added_in (order_at self.old queue) place event) }
    {
        match &mut self.queues[queue] {
            Some(order) => {
                order.add(place, event);
                true
            }
            None => false,
        }
    }

    /// The event of the place is answered, by a forward or by its release: whether the forward is kept.
    #[inline(always)]
    pub fn resolve(&mut self, queue: usize, place: u64, forward: Option<&PackedEvent>) -> bool
        requires there { queue < length self.old }
        requires open { is_restoring (order_at self.old queue) ≡ true → IsTrue (is_open (place_at (order_at self.old queue) place)) }
        ensures kept { result ≡ (is_restoring (order_at self.old queue) && is_some (option_copied forward.entry)) }
        ensures resolved { self.new ≡ slice_set self.old queue (resolved_in (order_at self.old queue) place (option_copied forward.entry)) }
    {
        match &mut self.queues[queue] {
            Some(order) => {
                order.resolve(place, forward);
                forward.is_some()
            }
            None => false,
        }
    }

    /// Whether the queue's oldest place may leave: there is one, and it is answered.
    #[inline(always)]
    pub fn leaves(&self, queue: usize) -> bool
        requires { queue < length self.now }
        ensures { result ≡ is_some (oldest_answered (order_at self.now queue).places) }
    {
        let Some(order) = &self.queues[queue] else {
            return false;
        };
        match order.ring.front() {
            Some(oldest) => oldest.answered,
            None => false,
        }
    }

    /// The queue's oldest place leaves, where it is answered: its event's number, and what it was passed on as.
    pub fn leave(&mut self, queue: usize) -> Option<(u64, ArrayVec<PackedEvent, MAX_FORWARDS>)>
        requires { queue < length self.old }
        ensures value { option_map left result ≡ oldest_answered (order_at self.old queue).places }
        ensures rest { self.new ≡ slice_set self.old queue (after_leave (order_at self.old queue)) }
    {
        match &mut self.queues[queue] {
            Some(order) => order.leave(),
            None => None,
        }
    }

    /// The queue's oldest place leaves, where it is answered and keeps one event at most: its event's number, and whether it keeps
    /// one, which is copied to `event`. Where it gives nothing it may be that there are more.
    #[inline(always)]
    pub fn leave_plain(&mut self, queue: usize, event: &mut PackedEvent) -> Option<(u64, bool)>
        requires { queue < length self.old }
        ensures value { IfSome result (λ x. oldest_answered (order_at self.old queue).places ≡ Some (left_plain x.0 x.1 event.new)) }
        ensures rest { IfSome result (λ x. self.new ≡ slice_set self.old queue (after_leave (order_at self.old queue))) }
        ensures same { IfNone result ((self.new ≡ self.old) × (event.new ≡ event.old)) }
        ensures bare { IfSome result (λ x. x.1 ≡ false → event.new ≡ event.old) }
    {
        match &mut self.queues[queue] {
            Some(order) => order.leave_plain(event),
            None => None,
        }
    }

    /// Of the lane's oldest events, no more than so many, how many have the queue's oldest places in turn. Where the queue restores no
    /// order there are no places, and it is all of them.
    #[inline(always)]
    pub fn in_turn(&self, queue: usize, lanes: &Histories, lane: usize, most: usize) -> usize
        requires there { queue < length self.now }
        requires lane { lane < length lanes.now }
        requires most { most ≤ length (lane_in lanes.now lane).entries }
        ensures few { result ≤ most }
        ensures turn { is_restoring (order_at self.now queue) ≡ true → AreInTurn queue (order_at self.now queue) (take result (lane_in lanes.now lane).entries) }
        ensures all { is_restoring (order_at self.now queue) ≡ true → result < most → EndsTurn queue (order_at self.now queue) result (lane_in lanes.now lane).entries }
        ensures free { is_restoring (order_at self.now queue) ≡ false → result ≡ most }
    {
        match &self.queues[queue] {
            Some(order) => order.in_turn(queue, &lanes.lanes[lane], most),
            None => most,
        }
    }

    /// Whether the queue's place at this index, counted from the oldest, is there and answered.
    #[inline(always)]
    pub fn is_answered(&self, queue: usize, index: usize) -> bool
        requires { queue < length self.now }
        ensures { result ≡ is_done (slice_get (order_at self.now queue).places index) }
    {
        match &self.queues[queue] {
            Some(order) => order.is_answered(index),
            None => false,
        }
    }

    /// Whether the queue restores an order, and none of its places keeps an event.
    #[inline(always)]
    pub fn is_bare(&self, queue: usize) -> bool
        requires { queue < length self.now }
        ensures { IsTrue result ↔ ((is_restoring (order_at self.now queue) ≡ true) × (kept_in_places (order_at self.now queue).places ≡ 0)) }
    {
        match &self.queues[queue] {
            Some(order) => order.is_bare(),
            None => false,
        }
    }

    /// The lane's oldest events are answered by their releases, as far as they are of the queue and no more than so many: how many. Then
    /// the queue's places leave that are answered, from the oldest on. Of a queue that restores no order it is none.
    #[inline(always)]
    pub fn release_oldest(
        &mut self,
        queue: usize,
        lanes: &Histories,
        lane: usize,
        most: usize,
    ) -> usize
        requires there { queue < length self.old }
        requires lane { lane < length lanes.now }
        requires most { most ≤ length (lane_in lanes.now lane).entries }
        ensures few { result ≤ most }
        ensures each { All (IsOfQueue queue) (take result (lane_in lanes.now lane).entries) }
        ensures last { is_restoring (order_at self.old queue) ≡ true → result < most → (y : EntryValue) × (slice_get (lane_in lanes.now lane).entries result ≡ Some y) × (y.queue ≢ queue) }
        ensures free { is_restoring (order_at self.old queue) ≡ false → result ≡ 0 }
        ensures released { self.new ≡ slice_set self.old queue (released_in (order_at self.old queue) (take result (lane_in lanes.now lane).entries)) }
    {
        match &mut self.queues[queue] {
            Some(order) => order.release_oldest(queue, &lanes.lanes[lane], most),
            None => 0,
        }
    }

    /// So many of the queue's oldest places leave. A queue that restores no order has none.
    #[inline(always)]
    pub fn drop_oldest(&mut self, queue: usize, count: usize)
        requires there { queue < length self.old }
        requires some { is_restoring (order_at self.old queue) ≡ true → count ≤ length (order_at self.old queue).places }
        ensures { self.new ≡ slice_set self.old queue (left_in (order_at self.old queue) count) }
    {
        match &mut self.queues[queue] {
            Some(order) => order.drop_oldest(count),
            None => {}
        }
    }

    /// How many places of the queue there are.
    pub fn len(&self, queue: usize) -> usize
        requires { queue < length self.now }
        ensures { result ≡ length (order_at self.now queue).places }
    {
        match &self.queues[queue] {
            Some(order) => order.ring.len(),
            None => 0,
        }
    }

    /// How many events the place at this index, counted from the oldest, keeps.
    pub fn kept_count(&self, queue: usize, index: usize) -> usize
        requires { queue < length self.now }
        ensures value { result ≡ length (slice_index_or (order_at self.now queue).places index (open_place 0)).forwards }
        ensures within { result ≤ MAX_FORWARDS }
    {
        match &self.queues[queue] {
            Some(order) => order.kept_count(index),
            None => 0,
        }
    }

    /// The nth event that the place at this index keeps, under its event's number.
    pub fn kept_at(&self, queue: usize, index: usize, nth: usize) -> Option<Numbered>
        requires { queue < length self.now }
        ensures { result ≡ slice_get (kept_of (slice_index_or (order_at self.now queue).places index (open_place 0))) nth }
    {
        match &self.queues[queue] {
            Some(order) => order.kept_at(index, nth),
            None => None,
        }
    }
}
