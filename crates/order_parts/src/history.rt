//! The events that a lane hasn't answered.

ghost use Rattle.std.specs.Prelude.{◌≡◌, ◌+◌, ◌^◌, ◌<◌, ◌≤◌, ◌==◌, [], ◌∷◌, ◌++◌, count_by, length, map, take, drop, slice_get, Some, IfOk};
ghost use Rattle.order_parts.specs.History.{entries_of};
ghost use Rattle.order_parts.specs.declared.history.Entry.{Entry as EntryValue};

use arrayvec::ArrayVec;
use evt_types::Memory;
use std::alloc::Global;
use std::marker::Model;

/// An unanswered event: its queue, its number there, its slot, and its place in an ordered queue's reorder buffer.
#[derive(Clone, Copy, Debug, PartialEq, Eq)]
pub struct Entry {
    pub queue: usize,
    pub number: u64,
    pub slot: usize,
    pub place: u64,
}

/// The unanswered events of a lane, oldest first, in a ring.
#[derive(Drop)]
pub struct History {
    /// As many places as a power of two, so that a mask finds the place after the last one.
    ring: Vec<Entry>,
    mask: usize,
    /// The oldest entry's place.
    first: usize,
    pub(crate) len: usize,
    capacity: usize,
}

impl Model for History {
    ghost use Rattle.order_parts.specs.History.{Entries, entries_of};

    ghost Value = { Entries };

    ghost use Rattle.order_parts.specs.Ring.{held, IsRing};

    ghost view = { λ a. entries_of (held a) a.capacity };

    ghost invariant = { IsRing };
}

impl History {
    /// A history without entries, with room for so many.
    pub fn new(alloc: Global, capacity: usize) -> Result<History, Memory>
        ensures { IfOk result (λ h. h ≡ entries_of [] capacity) }
    {
        // More places than can be counted are asked for as the most that can be, which no memory has.
        let places = capacity.checked_next_power_of_two().unwrap_or(usize::MAX);
        let blank = Entry {
            queue: 0,
            number: 0,
            slot: 0,
            place: 0,
        };
        let ring = vec![in alloc; blank; places]?;
        Ok(History {
            ring,
            mask: places - 1,
            first: 0,
            len: 0,
            capacity,
        })
    }

    /// How many entries there are.
    pub fn len(&self) -> usize
        ensures value { result ≡ length self.now.entries }
        ensures within { (result ≤ self.now.capacity) × (self.now.capacity < 2 ^ 63) }
    {
        self.len
    }

    /// Whether there are none.
    pub fn is_empty(&self) -> bool
        ensures { result ≡ (length self.now.entries == 0) }
    {
        self.len == 0
    }

    /// Whether there is no room for an entry more.
    pub fn is_full(&self) -> bool
        ensures { result ≡ (length self.now.entries == self.now.capacity) }
    {
        self.len == self.capacity
    }

    /// How many entries more there is room for.
    pub fn room(&self) -> usize
        ensures { result + length self.now.entries ≡ self.now.capacity }
    {
        self.capacity - self.len
    }

    /// Appends an entry.
    #[inline(always)]
    pub fn push(&mut self, entry: Entry)
        requires { length self.old.entries < self.old.capacity }
        ensures { self.new ≡ entries_of (self.old.entries ++ entry ∷ []) self.old.capacity }
    {
        let place = (self.first + self.len) & self.mask;
        self.ring[place] = entry;
        self.len += 1;
    }

    /// The oldest entry, which stays.
    pub fn oldest(&self) -> Option<Entry>
        ensures { result ≡ slice_get self.now.entries 0 }
    {
        if self.len == 0 {
            return None;
        }
        Some(self.ring[self.first])
    }

    /// Takes the oldest entry out.
    #[inline(always)]
    pub fn pop(&mut self) -> Option<Entry>
        ensures value { result ≡ slice_get self.old.entries 0 }
        ensures rest { self.new ≡ entries_of (drop 1 self.old.entries) self.old.capacity }
    {
        if self.len == 0 {
            return None;
        }
        let entry = self.ring[self.first];
        self.first = (self.first + 1) & self.mask;
        self.len -= 1;
        Some(entry)
    }

    /// The entry at this index, counted from the oldest, where it lies.
    #[inline(always)]
    pub(crate) fn entry(&self, index: usize) -> &Entry
        requires { index < length self.now.entries }
        ensures { slice_get self.now.entries index ≡ Some result.now }
    {
        &self.ring[(self.first + index) & self.mask]
    }

    /// The numbers of so many of the oldest entries.
    #[inline(always)]
    pub(crate) fn numbers(&self, count: usize) -> ArrayVec<u64, 32>
        requires few { count ≤ 32 }
        requires there { count ≤ length self.now.entries }
        ensures { result.items ≡ map (λ (y : EntryValue). y.number) (take count self.now.entries) }
    {
        let mut numbers = ArrayVec::new();
        for index in 0..count {
            numbers.push(self.entry(index).number);
        }
        numbers
    }

    /// Takes so many of the oldest entries out.
    #[inline(always)]
    pub(crate) fn drop_oldest(&mut self, count: usize)
        requires { count ≤ length self.old.entries }
        ensures { self.new ≡ entries_of (drop count self.old.entries) self.old.capacity }
    {
        self.first = (self.first + count) & self.mask;
        self.len -= count;
    }

    /// How many of the entries are of the queue.
    pub fn count_of(&self, queue: usize) -> usize
        ensures { result ≡ count_by (λ (y : EntryValue). y.queue == queue) self.now.entries }
    {
        let mut count = 0;
        for index in 0..self.len {
            let entry = self.ring[(self.first + index) & self.mask];
            if entry.queue == queue {
                count += 1;
            }
        }
        count
    }
}
