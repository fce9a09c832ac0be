//! Four lists of waiting events.

ghost use Rattle.std.specs.Prelude.{◌≡◌, ◌<◌, ◌≤◌, ◌^◌, ◌↔◌, length, option_copied, IfOk, IfSome, IsOk, OnErr, MatchOption, MatchResult};
ghost use Rattle.evt_types.specs.Plan.{level_of};
ghost use Rattle.level_queues.specs.Lists.{no_events, list_at, item_at, with_last, without, AreLevels};

use crate::list::take_out;
use circular_buffer::HeapCircularBuffer;
use evt_types::{Memory, Numbered};
use std::alloc::Global;
use std::marker::Model;

/// The waiting events of a queue: a list for each level, from 0 for the one that is served first to 3. Each list has room
/// for the same number of events, and has only events of its own level.
#[derive(Debug, Drop)]
pub struct Levels {
    lists: [HeapCircularBuffer<Numbered>; 4],
}

impl Model for Levels {
    ghost use Rattle.level_queues.specs.Lists.{Lists, lists_of};
    ghost use Rattle.level_queues.specs.Rings.{AreRings};

    ghost Value = { Lists };

    ghost view = { λ a. lists_of a.lists };

    ghost invariant = { λ a. AreRings a.lists };
}

impl Levels {
    /// Four empty lists, each with room for so many events.
    pub fn new(alloc: Global, capacity: usize) -> Result<Levels, Memory>
        ensures empty { IfOk result (λ l. l ≡ no_events capacity) }
        ensures levels { IfOk result AreLevels }
    {
        let lists = [
            HeapCircularBuffer::with_capacity(alloc, capacity)?,
            HeapCircularBuffer::with_capacity(alloc, capacity)?,
            HeapCircularBuffer::with_capacity(alloc, capacity)?,
            HeapCircularBuffer::with_capacity(alloc, capacity)?,
        ];
        Ok(Levels { lists })
    }

    /// Lets the event wait behind the others of its level. Where that level is full, the event comes back and nothing has
    /// changed.
    pub fn push(&mut self, item: Numbered) -> Result<(), Numbered>
        ensures room { IsOk result ↔ (length (list_at self.old (level_of item.event)) < self.old.capacity) }
        ensures pushed { MatchResult result
            (λ _. self.new ≡ with_last self.old item)
            (λ back. (back ≡ item) × (self.new ≡ self.old)) }
        ensures full { OnErr result (length (list_at self.old (level_of item.event)) ≡ self.old.capacity) }
        ensures levels { AreLevels self.new }
    {
        self.lists[item.event.level()].try_push_back(item)
    }

    /// The event of the level at this place, counted from the oldest one.
    pub fn at(&self, level: usize, place: usize) -> Option<&Numbered>
        requires { level < 4 }
        ensures value { option_copied result ≡ item_at self.now level place }
        ensures level { IfSome result (λ n. level_of n.now.event ≡ level) }
        ensures levels { AreLevels self.now }
    {
        self.lists[level].get(place)
    }

    /// Takes the oldest event of the level out.
    pub fn remove_front(&mut self, level: usize) -> Option<Numbered>
        requires { level < 4 }
        ensures value { result ≡ item_at self.old level 0 }
        ensures level { IfSome result (λ n. level_of n.event ≡ level) }
        ensures rest { MatchOption result (self.new ≡ self.old) (λ _. self.new ≡ without self.old level 0) }
        ensures levels { AreLevels self.new }
    {
        self.lists[level].pop_front()
    }

    /// Takes the event of the level at this place out. The others keep their order.
    pub fn remove_at(&mut self, level: usize, place: usize) -> Option<Numbered>
        requires { level < 4 }
        ensures value { result ≡ item_at self.old level place }
        ensures level { IfSome result (λ n. level_of n.event ≡ level) }
        ensures rest { MatchOption result (self.new ≡ self.old) (λ _. self.new ≡ without self.old level place) }
        ensures levels { AreLevels self.new }
    {
        take_out(&mut self.lists[level], place)
    }

    /// How many events of the level wait.
    pub fn len(&self, level: usize) -> usize
        requires { level < 4 }
        ensures value { result ≡ length (list_at self.now level) }
        ensures within { (result ≤ self.now.capacity) × (self.now.capacity < 2 ^ 63) }
        ensures levels { AreLevels self.now }
    {
        self.lists[level].len()
    }
}
