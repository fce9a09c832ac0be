//! Many lists of waiting events.

ghost use Rattle.std.specs.Prelude.{◌≡◌, ◌==◌, ◌+◌, ◌<◌, ◌≤◌, ◌^◌, [], ◌++◌, false, filter, length, map, slice_get, vec_len, vec_capacity, IfOk, IsFalse, IsTrue, option_copied};
ghost use Rattle.parked_queue.specs.Lists.{list_at, total_of, all_empty, has_number, named_delivery, numbered, numbered_from, with_last, with_list, with_row, without_first};
ghost use Rattle.parked_queue.specs.Waits.{IsRising, is_other};

use crate::chain::{
    Chain, Node, append, append_row, empty_chains, node_before, release, row_of_nodes, skip,
    take_node,
};
use evt_types::{Delivery, Numbered, PackedEvent, Reply};
use std::alloc::{AllocError, Global};
use std::marker::Model;

/// Many lists of waiting events, with room for so many events in all.
#[derive(Drop)]
pub struct WaitingLists {
    // The nodes of all chains, and the free ones. All are there from the start, so that a push asks for none.
    pub(crate) nodes: Vec<Node>,
    // The node that became free last, which leads to the one before it, and so on. One is left over when there is room for no event.
    // What became free last is taken first, while its memory is in the cache.
    pub(crate) free: usize,
    // One for each list.
    pub(crate) chains: Vec<Chain>,
    room: usize,
}

impl Model for WaitingLists {
    ghost use Rattle.std.specs.Prelude.{slice_get, vec_len};
    ghost use Rattle.parked_queue.specs.Lists.{Lists};
    ghost use Rattle.parked_queue.specs.Store.{lists_in, IsStore};

    ghost Value = { Lists };

    ghost view = { λ a. lists_in (slice_get a.nodes.items) (vec_len a.nodes) a.chains.items a.room };

    ghost invariant = { λ a. IsStore (slice_get a.nodes.items) (vec_len a.nodes) a.free a.chains.items a.room };
}

/// A node for each event and for each list, and the one that is left over.
fn node_count(lists: usize, room: usize) -> Result<usize, AllocError>
    ensures { IfOk result (λ n. n ≡ lists + room + 1) }
{
    let used = lists.checked_add(room).ok_or(AllocError)?;
    used.checked_add(1).ok_or(AllocError)
}

impl WaitingLists {
    /// So many empty lists, with room for so many events in all.
    pub fn new(alloc: Global, lists: usize, room: usize) -> Result<WaitingLists, AllocError>
        ensures { IfOk result (λ s. s ≡ all_empty lists room) }
    {
        let count = node_count(lists, room)?;
        let nodes = row_of_nodes(alloc, count)?;
        let chains = empty_chains(alloc, lists)?;
        Ok(WaitingLists {
            nodes,
            free: lists,
            chains,
            room,
        })
    }

    /// The oldest event of the list, where it lies.
    #[inline(always)]
    pub fn head(&self, list: usize) -> Option<&Numbered>
        requires { list < length self.now.lists }
        ensures { option_copied result ≡ slice_get (list_at self.now list) 0 }
    {
        let chain = self.chains[list];
        if chain.first == chain.spare {
            return None;
        }
        Some(&self.nodes[chain.first].item)
    }

    /// Puts the event at the list's end.
    pub fn push(&mut self, list: usize, item: Numbered)
        requires list { list < length self.old.lists }
        requires room { total_of self.old < self.old.room }
        ensures { self.new ≡ with_last self.old list item }
    {
        let _ = self.push_event(list, item.number, &item.event);
    }

    /// The same of an event where it lies, under this number: whether it is the list's only one.
    #[inline(always)]
    pub fn push_event(&mut self, list: usize, number: u64, event: &PackedEvent) -> bool
        requires list { list < length self.old.lists }
        requires room { total_of self.old < self.old.room }
        ensures only { result ≡ (length (list_at self.old list) == 0) }
        ensures value { self.new ≡ with_last self.old list (numbered number event.now) }
    {
        let spare = take_node(&self.nodes, &mut self.free);
        append(
            &mut self.nodes,
            &mut self.chains[list],
            spare,
            number,
            event,
        )
    }

    /// Puts the events of the replies at the list's end, one after the other, under numbers from this one on: whether nothing was in the
    /// list.
    #[inline(always)]
    pub fn push_row(&mut self, list: usize, number: u64, replies: &[Reply]) -> bool
        requires list { list < length self.old.lists }
        requires room { total_of self.old + length replies.now ≤ self.old.room }
        requires numbers { number + length replies.now ≤ 2 ^ 63 }
        ensures first { result ≡ (length (list_at self.old list) == 0) }
        ensures value { self.new ≡ with_row self.old list (numbered_from number replies.now) }
    {
        let mut chain = self.chains[list];
        let mut free = self.free;
        let first = chain.first == chain.spare;
        append_row(&mut self.nodes, &mut chain, &mut free, number, replies);
        self.chains[list] = chain;
        self.free = free;
        first
    }

    /// Takes the oldest event of the list out, which is there.
    #[inline(always)]
    pub(crate) fn drop_first(&mut self, list: usize)
        requires list { list < length self.old.lists }
        requires some { 0 < length (list_at self.old list) }
        ensures { self.new ≡ without_first self.old list }
    {
        let chain = &mut self.chains[list];
        chain.first = release(&mut self.nodes, &mut self.free, chain.first);
    }

    /// Takes the oldest event of the list out.
    #[inline(always)]
    pub fn pop(&mut self, list: usize) -> Option<Numbered>
        requires { list < length self.old.lists }
        ensures value { result ≡ slice_get (list_at self.old list) 0 }
        ensures rest { self.new ≡ without_first self.old list }
    {
        let first = self.head(list).copied();
        if first.is_some() {
            self.drop_first(list);
        }
        first
    }

    /// Whether the oldest event of the list has the number.
    #[inline(always)]
    fn begins_with(&self, list: usize, number: u64) -> bool
        requires { list < length self.now.lists }
        ensures { result ≡ has_number number (slice_get (list_at self.now list) 0) }
    {
        match self.head(list) {
            Some(oldest) => oldest.number == number,
            None => false,
        }
    }

    /// Takes the oldest event of the list out, where it has the number: whether it has.
    #[inline(always)]
    pub fn pop_number(&mut self, list: usize, number: u64) -> bool
        requires { list < length self.old.lists }
        ensures value { result ≡ has_number number (slice_get (list_at self.old list) 0) }
        ensures taken { IsTrue result → self.new ≡ without_first self.old list }
        ensures kept { IsFalse result → self.new ≡ self.old }
    {
        let found = self.begins_with(list, number);
        if found {
            self.drop_first(list);
        }
        found
    }

    /// Takes the event of the number out of the list, where one behind the oldest has it: whether one has.
    fn take_later(&mut self, list: usize, number: u64) -> bool
        requires list { list < length self.old.lists }
        requires rising { IsRising (list_at self.old list) }
        requires other { has_number number (slice_get (list_at self.old list) 0) ≡ false }
        ensures value { self.new ≡ with_list self.old list (filter (is_other number) (list_at self.old list)) }
        ensures fewer { IsTrue result → total_of self.new + 1 ≡ total_of self.old }
        ensures kept { IsFalse result → total_of self.new ≡ total_of self.old }
    {
        match node_before(&self.nodes, self.chains[list], number) {
            Some(before) => {
                let node = skip(&mut self.nodes, before);
                let _ = release(&mut self.nodes, &mut self.free, node);
                true
            }
            None => false,
        }
    }

    /// Takes the event of the number out of the list: whether it was there. The oldest one goes at once; the others are looked at from
    /// there on.
    pub fn take_number(&mut self, list: usize, number: u64) -> bool
        requires list { list < length self.old.lists }
        requires rising { IsRising (list_at self.old list) }
        ensures value { self.new ≡ with_list self.old list (filter (is_other number) (list_at self.old list)) }
        ensures fewer { IsTrue result → total_of self.new + 1 ≡ total_of self.old }
        ensures kept { IsFalse result → total_of self.new ≡ total_of self.old }
    {
        self.pop_number(list, number) || self.take_later(list, number)
    }

    /// Appends each of the list's events, oldest first, as a delivery of the queue that it names.
    pub fn push_deliveries(&self, list: usize, into: &mut Vec<Delivery>)
        requires list { list < length self.now.lists }
        requires room { vec_len into.old + length (list_at self.now list) ≤ vec_capacity into.old }
        ensures deliveries { into.new.items ≡ into.old.items ++ map named_delivery (list_at self.now list) }
        ensures room { vec_capacity into.new ≡ vec_capacity into.old }
    {
        let chain = self.chains[list];
        let mut cursor = chain.first;
        while cursor != chain.spare {
            let Node { item, next } = self.nodes[cursor];
            into.push_reserved(Delivery::new(item.event, item.number));
            cursor = next;
        }
    }
}
