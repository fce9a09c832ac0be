//! The first events of a level, as a row.

ghost use Rattle.std.specs.Prelude.{◌≡◌, ◌+◌, ◌<◌, ◌≤◌, ◌%◌, ◌++◌, List, All, drop, length, map, slice_set};
ghost use Rattle.evt_types.specs.declared.event.Delivery.{Delivery as DeliveryValue};
ghost use Rattle.evt_types.specs.declared.event.Numbered.{Numbered as NumberedValue};
ghost use Rattle.parked_queue.specs.Lists.{list_at, named_delivery, with_list};
ghost use Rattle.parked_queue.specs.Rows.{AreHeads, at_level, without_all};
ghost use Rattle.parked_queue.specs.Waits.{IsOnlyOf, waits_at};

use crate::chain::{Node, node_behind, release};
use crate::level::Level;
use crate::queues::ParkedQueues;
use crate::slot::QueueSlots;
use crate::waiting::WaitingLists;
use arrayvec::ArrayVec;
use evt_types::Delivery;

impl WaitingLists {
    /// Appends the list's oldest events, no more than so many, each as a delivery of the queue that it names.
    #[inline(always)]
    pub(crate) fn push_heads(&self, list: usize, most: usize, into: &mut ArrayVec<Delivery, 32>)
        requires list { list < length self.now.lists }
        requires room { length into.old.items + most ≤ 32 }
        ensures { (heads rest : List NumberedValue) × (list_at self.now list ≡ heads ++ rest) × (into.new.items ≡ into.old.items ++ map named_delivery heads) × (length heads ≤ most) }
    {
        let chain = self.chains[list];
        let mut cursor = chain.first;
        for _ in 0..most {
            if cursor == chain.spare {
                return;
            }
            let Node { item, next } = self.nodes[cursor];
            into.push(Delivery::new(item.event, item.number));
            cursor = next;
        }
    }

    /// Takes the list's oldest events out, so many.
    #[inline(always)]
    pub(crate) fn drop_heads(&mut self, list: usize, count: usize)
        requires list { list < length self.old.lists }
        requires some { count ≤ length (list_at self.old list) }
        ensures { self.new ≡ with_list self.old list (drop count (list_at self.old list)) }
    {
        if count == 0 {
            return;
        }
        let chain = &mut self.chains[list];
        let first = chain.first;
        let last = node_behind(&self.nodes, *chain, count - 1);
        // The nodes lead to one another already. So only the last one is made to lead to the free nodes, and the first one is taken next.
        chain.first = release(&mut self.nodes, &mut self.free, last);
        self.free = first;
    }
}

impl ParkedQueues {
    /// Appends the first events of the queue's level as deliveries, no more than so many, where they are quick to see. Where they are
    /// not, none is appended.
    #[inline(always)]
    pub fn push_heads(
        &self,
        queue: usize,
        level: Level,
        most: usize,
        into: &mut ArrayVec<Delivery, 32>,
    )
        requires there { queue < length self.now }
        requires room { length into.old.items + most ≤ 32 }
        ensures { AreHeads (waits_at self.now queue) queue level.number most into.old.items into.new.items }
    {
        let asked = &self.queues[queue];
        if asked.parked[level.number].is_empty() {
            self.lists.push_heads(asked.base + level.number, most, into);
        }
    }

    /// The slots of the queue.
    #[inline(always)]
    pub fn slots(&self, queue: usize) -> QueueSlots
        requires { queue < length self.now }
        ensures { result.count ≡ (waits_at self.now queue).slots }
    {
        let asked = &self.queues[queue];
        QueueSlots {
            count: asked.slots,
            mask: asked.mask,
        }
    }

    /// Takes the first events of the queue's level out, which are these.
    #[inline(always)]
    pub fn remove_row(&mut self, queue: usize, level: Level, row: &[Delivery])
        requires there { queue < length self.old }
        requires heads { (heads rest : List NumberedValue) × (at_level level.number (waits_at self.old queue) ≡ heads ++ rest) × (row.now ≡ map named_delivery heads) }
        requires only { All (λ (d : DeliveryValue). IsOnlyOf (waits_at self.old queue) level.number (d.event.flow % (waits_at self.old queue).slots) d.number) row.now }
        ensures { self.new ≡ slice_set self.old queue (without_all (waits_at self.old queue) row.now) }
    {
        let asked = &self.queues[queue];
        if !asked.parked[level.number].is_empty() {
            self.remove_each(queue, level, row);
            return;
        }
        let left = &mut self.queues[queue];
        self.lists.drop_heads(left.base + level.number, row.len());
        left.count -= row.len();
        if left.count == 0 {
            self.busy.remove(queue);
        }
    }

    /// The same of any events of the level.
    #[cold]
    fn remove_each(&mut self, queue: usize, level: Level, row: &[Delivery])
        requires there { queue < length self.old }
        requires only { All (λ (d : DeliveryValue). IsOnlyOf (waits_at self.old queue) level.number (d.event.flow % (waits_at self.old queue).slots) d.number) row.now }
        ensures { self.new ≡ slice_set self.old queue (without_all (waits_at self.old queue) row.now) }
    {
        for delivery in row {
            let slot = self.slot_of(queue, delivery.packed().flow());
            self.remove(queue, level, slot, delivery.number());
        }
    }
}
