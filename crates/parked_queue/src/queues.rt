//! What waits in several queues.

ghost use Rattle.std.specs.Prelude.{◌≡◌, ℕ, ◌+◌, ◌<◌, ◌≤◌, ◌^◌, ◌%◌, ◌++◌, length, map, slice_set, vec_len, vec_capacity, All, IsTrue, IfOk, IfSome, IfNone};
ghost use Rattle.evt_types.specs.Plan.{level_of};
ghost use Rattle.evt_types.specs.declared.event.Reply.{Reply as ReplyValue};
ghost use Rattle.parked_queue.specs.Busy.{AreBusy};
ghost use Rattle.parked_queue.specs.Waits.{AreSlots, AreWaits, HasNoneAllowed, IsFirstAllowed, IsOnlyOf, all_empty, all_waiting, slot_of, waits_at, with_event, with_replies, without_number};
ghost use Rattle.parked_queue.specs.LevelSets.{AreLevels};
ghost use Rattle.parked_queue.specs.Lists.{delivery_of};
ghost use Rattle.small_set.specs.SmallSets.{Has};

use crate::first::Found;
use crate::level::{LEVELS, Level, Levels};
use crate::parking::{Parking, empty_parkings};
use crate::slot::slot_in;
use crate::waiting::WaitingLists;
use evt_types::{Delivery, PackedEvent, Reply};
use small_set::SmallSet;
use std::alloc::{AllocError, Global};
use std::marker::Model;

/// For each queue the events that wait, the number of the next event, and a word of the levels of which an event waits, so that an
/// empty level is looked at once; and a word of the queues in which something waits, so that an empty queue is never asked. All
/// queues share the memory for what waits.
#[derive(Drop)]
pub struct ParkedQueues {
    /// The lists of all queues, which share one store.
    pub(crate) lists: WaitingLists,
    /// How each queue's events are parted into its own lists.
    pub(crate) queues: Vec<Parking>,
    /// For each queue the levels of which an event waits. One that has become empty leaves when it is next looked at.
    levels: Vec<Levels>,
    /// The queues in which something waits.
    pub(crate) busy: SmallSet,
}

impl Model for ParkedQueues {
    ghost use Rattle.std.specs.Prelude.{List};
    ghost use Rattle.parked_queue.specs.Busy.{AreQueues};
    ghost use Rattle.parked_queue.specs.Parkings.{all_waits};
    ghost use Rattle.parked_queue.specs.Waits.{Waits};

    ghost Value = { List Waits };

    ghost view = { λ a. all_waits a.lists a.queues.items };

    ghost invariant = { λ a. AreQueues a.lists a.queues.items a.levels.items a.busy };
}

impl ParkedQueues {
    /// Queues of so many slots each, with room for so many events in all.
    pub fn new(alloc: Global, slots: &[usize], room: usize) -> Result<ParkedQueues, AllocError>
        requires each { AreSlots slots.now }
        requires few { length slots.now ≤ 64 }
        ensures { IfOk result (λ qs. qs ≡ all_empty room slots.now) }
    {
        let (queues, lists) = empty_parkings(alloc, slots)?;
        let lists = WaitingLists::new(alloc, lists, room)?;
        let levels = vec![in alloc; Levels::none(); slots.len()]?;
        Ok(ParkedQueues {
            lists,
            queues,
            levels,
            busy: SmallSet::none(),
        })
    }

    /// How many queues there are.
    pub fn len(&self) -> usize
        ensures { result ≡ length self.now }
    {
        self.queues.len()
    }

    /// Lets the event wait in the queue that it names, under that queue's next number. Wants room: fewer than there is room for wait in
    /// all queues.
    #[inline(always)]
    pub fn accept(&mut self, event: &PackedEvent)
        requires there { event.now.queue < length self.old }
        requires room { all_waiting self.old < (waits_at self.old event.now.queue).room }
        requires numbers { (waits_at self.old event.now.queue).next < 2 ^ 63 }
        ensures value { self.new ≡ slice_set self.old event.now.queue (with_event (waits_at self.old event.now.queue) event.now) }
        ensures waits { AreWaits (with_event (waits_at self.old event.now.queue) event.now) }
    {
        let queue = usize::from(event.queue());
        let level = Level::of(event);
        let entered = &mut self.queues[queue];
        let number = entered.next;
        entered.next = number + 1;
        entered.count += 1;
        let list = entered.base + level.number;
        if self.lists.push_event(list, number, event) {
            self.levels[queue].add(level);
            self.busy.add(queue);
        }
    }

    /// Lets the events of the replies wait in the queue, one after the other, under its next numbers. All name the queue, and are of the
    /// level. Wants room for all of them.
    #[inline(always)]
    pub fn accept_row(&mut self, queue: usize, level: Level, replies: &[Reply])
        requires there { queue < length self.old }
        requires some { 0 < length replies.now }
        requires named { All (λ (r : ReplyValue). (r.event.queue ≡ queue) × (level_of r.event ≡ level.number)) replies.now }
        requires room { all_waiting self.old + length replies.now ≤ (waits_at self.old queue).room }
        requires numbers { (waits_at self.old queue).next + length replies.now ≤ 2 ^ 63 }
        ensures value { self.new ≡ slice_set self.old queue (with_replies (waits_at self.old queue) replies.now) }
        ensures waits { AreWaits (with_replies (waits_at self.old queue) replies.now) }
    {
        let count = replies.len();
        let entered = &mut self.queues[queue];
        let number = entered.next;
        entered.next = number + count as u64;
        entered.count += count;
        let list = entered.base + level.number;
        if self.lists.push_row(list, number, replies) {
            self.levels[queue].add(level);
            self.busy.add(queue);
        }
    }

    /// The queues in which something waits.
    pub fn busy(&self) -> SmallSet
        ensures { AreBusy self.now result }
    {
        self.busy
    }

    /// The levels of the queue of which an event waits, and perhaps some that have become empty.
    #[inline(always)]
    pub fn levels(&self, queue: usize) -> Levels
        requires { queue < length self.now }
        ensures { AreLevels (waits_at self.now queue) result }
    {
        self.levels[queue]
    }

    /// The slot of a flow of the queue.
    #[inline(always)]
    pub fn slot_of(&self, queue: usize, flow: u32) -> usize
        requires { queue < length self.now }
        ensures value { result ≡ flow % (waits_at self.now queue).slots }
        ensures within { result < (waits_at self.now queue).slots }
    {
        let asked = &self.queues[queue];
        slot_in(asked.slots, asked.mask, flow)
    }

    /// The first event of the queue's level whose slot is allowed. The events before it are set aside, each once.
    #[inline(always)]
    pub fn first(&mut self, queue: usize, level: Level, allowed: SmallSet) -> Option<Found>
        requires { queue < length self.old }
        ensures same { self.new ≡ self.old }
        ensures first { IfSome result (λ f. IsFirstAllowed (waits_at self.old queue) level.number allowed f.waiting) }
        ensures slot { IfSome result (λ f. f.slot ≡ slot_of (waits_at self.old queue).slots f.waiting) }
        ensures names { IfSome result (λ f. f.waiting.event.queue ≡ queue) }
        ensures none { IfNone result (HasNoneAllowed (waits_at self.old queue) level.number allowed) }
        ensures waits { AreWaits (waits_at self.old queue) }
    {
        let asked = &mut self.queues[queue];
        let first = asked.first(&mut self.lists, level, allowed);
        if first.is_none() && asked.is_level_empty(&self.lists, level) {
            self.levels[queue].remove(level);
        }
        first
    }

    /// The first event of the queue's level whose slot is allowed, where that is quick to see. Where it is not, the answer is `None`
    /// too.
    #[inline(always)]
    pub fn head(&self, queue: usize, level: Level, allowed: SmallSet) -> Option<Found>
        requires { queue < length self.now }
        ensures first { IfSome result (λ f. IsFirstAllowed (waits_at self.now queue) level.number allowed f.waiting) }
        ensures slot { IfSome result (λ f. f.slot ≡ slot_of (waits_at self.now queue).slots f.waiting) }
        ensures names { IfSome result (λ f. f.waiting.event.queue ≡ queue) }
        ensures waits { AreWaits (waits_at self.now queue) }
    {
        let asked = &self.queues[queue];
        if !asked.parked[level.number].both(allowed).is_empty() {
            return None;
        }
        let waiting = self.lists.head(asked.base + level.number)?;
        let flow = waiting.event.flow();
        let slot = slot_in(asked.slots, asked.mask, flow);
        if allowed.has(slot) {
            Some(Found {
                slot,
                flow,
                waiting: *waiting,
            })
        } else {
            None
        }
    }

    /// A hint: the slots of which events of the queue's level may be set aside. All that is promised is that they are slots of the
    /// queue, and no other call's answer rests on them.
    #[inline(always)]
    pub fn parked_slots(&self, queue: usize, level: Level) -> SmallSet
        requires { queue < length self.now }
        ensures { (slot : ℕ) → Has result slot → slot < (waits_at self.now queue).slots }
    {
        self.queues[queue].parked[level.number]
    }

    /// Whether all events of the queue's level are set aside, and none of them has an allowed slot. It may say no where all of that is
    /// so: only a yes is promised to be right.
    #[inline(always)]
    pub fn is_blocked(&self, queue: usize, level: Level, allowed: SmallSet) -> bool
        requires { queue < length self.now }
        ensures { IsTrue result → HasNoneAllowed (waits_at self.now queue) level.number allowed }
    {
        let asked = &self.queues[queue];
        let marks = asked.parked[level.number];
        !marks.is_empty()
            && marks.both(allowed).is_empty()
            && self.lists.head(asked.base + level.number).is_none()
    }

    /// Takes the event of this number out of the queue, which is of the level and the slot. At the head of its list it goes at once;
    /// else it is looked for from there on.
    #[inline(always)]
    pub fn remove(&mut self, queue: usize, level: Level, slot: usize, number: u64)
        requires there { queue < length self.old }
        requires slot { slot < (waits_at self.old queue).slots }
        requires only { IsOnlyOf (waits_at self.old queue) level.number slot number }
        ensures value { self.new ≡ slice_set self.old queue (without_number (waits_at self.old queue) number) }
        ensures waits { AreWaits (without_number (waits_at self.old queue) number) }
    {
        let left = &mut self.queues[queue];
        left.remove(&mut self.lists, level, slot, number);
        if left.count == 0 {
            self.busy.remove(queue);
        }
    }

    /// How many events of the queue wait.
    #[inline(always)]
    pub fn count(&self, queue: usize) -> usize
        requires { queue < length self.now }
        ensures value { result ≡ length (waits_at self.now queue).waiting }
        ensures waits { AreWaits (waits_at self.now queue) }
    {
        self.queues[queue].count
    }

    /// Appends each of the queue's waiting events as a delivery, by rising number.
    pub fn list_waiting(&self, queue: usize, into: &mut Vec<Delivery>)
        requires there { queue < length self.now }
        requires room { vec_len into.old + length (waits_at self.now queue).waiting ≤ vec_capacity into.old }
        ensures listed { into.new.items ≡ into.old.items ++ map (delivery_of queue) (waits_at self.now queue).waiting }
        ensures room { vec_capacity into.new ≡ vec_capacity into.old }
    {
        let start = into.len();
        let asked = &self.queues[queue];
        for list in 0..LEVELS * (asked.slots + 1) {
            self.lists.push_deliveries(asked.base + list, into);
        }
        into[start..].sort_unstable_by_key(|delivery| delivery.number());
    }
}
