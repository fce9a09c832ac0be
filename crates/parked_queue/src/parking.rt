//! How the events that wait in one queue are parted into lists.

ghost use Rattle.std.specs.Prelude.{◌≡◌, ◌+◌, ◌<◌, ◌≤◌, true, length, is_some, option_copied, IfOk, IfSome, IsTrue};
ghost use Rattle.parked_queue.specs.Parted.{own_first, list_of_number, with_below};
ghost use Rattle.parked_queue.specs.Parkings.{AreNewParkings, IsChanged, IsNewParking, IsParted, parted_by, waits_by};
ghost use Rattle.parked_queue.specs.Waits.{AreSlots, HasNoneOf, IsOnlyOf, slot_of, without_number};

use crate::heads::{Heads, head_number};
use crate::level::{LEVELS, Level};
use crate::slot::{mask_for, parked_list};
use crate::waiting::WaitingLists;
use evt_types::Numbered;
use small_set::SmallSet;
use std::alloc::{AllocError, Global};

/// How the events of one queue are parted. From `base` on there is a list for each level, by the level's number, and behind these
/// a list for each slot and level, for the events that are set aside: the level's events whose number is below `below`. `parked`
/// has each slot that may have such an event, `heads` the number of each slot's first one, and `mask` is what leaves a flow's slot.
#[derive(Drop)]
pub(crate) struct Parking {
    pub(crate) base: usize,
    pub(crate) slots: usize,
    pub(crate) mask: usize,
    pub(crate) below: [u64; LEVELS],
    pub(crate) parked: [SmallSet; LEVELS],
    pub(crate) heads: [Heads; LEVELS],
    pub(crate) next: u64,
    pub(crate) count: usize,
}

/// A queue whose lists begin at this one, and in which nothing waits.
fn empty_parking(alloc: Global, base: usize, slots: usize) -> Result<Parking, AllocError>
    requires { 0 < slots }
    ensures { IfOk result (IsNewParking base slots) }
{
    let heads = [
        Heads::none(alloc, slots)?,
        Heads::none(alloc, slots)?,
        Heads::none(alloc, slots)?,
        Heads::none(alloc, slots)?,
    ];
    Ok(Parking {
        base,
        slots,
        mask: mask_for(slots),
        below: [0; LEVELS],
        parked: [SmallSet::none(); LEVELS],
        heads,
        next: 0,
        count: 0,
    })
}

/// Queues of so many slots, in which nothing waits, and how many lists they have.
pub(crate) fn empty_parkings(
    alloc: Global,
    slots: &[usize],
) -> Result<(Vec<Parking>, usize), AllocError>
    requires each { AreSlots slots.now }
    requires few { length slots.now ≤ 64 }
    ensures { IfOk result (λ r. AreNewParkings slots.now r.0.items r.1) }
{
    let mut queues = Vec::with_capacity(alloc, slots.len())?;
    let mut lists = 0;
    for count in slots {
        queues.push(empty_parking(alloc, lists, *count)?)?;
        lists += LEVELS * (*count + 1);
    }
    Ok((queues, lists))
}

impl Parking {
    /// The first event of the level's own list, where it lies.
    #[inline(always)]
    pub(crate) fn front<'a>(&self, lists: &'a WaitingLists, level: Level) -> Option<&'a Numbered>
        requires { IsParted lists.now self.now }
        ensures { option_copied result ≡ own_first (parted_by lists.now self.now) level.number }
    {
        lists.head(self.base + level.number)
    }

    /// Whether no event of the level waits. It may say no where none does, until the marks of its slots are gone.
    #[inline(always)]
    pub(crate) fn is_level_empty(&self, lists: &WaitingLists, level: Level) -> bool
        requires { IsParted lists.now self.now }
        ensures { IsTrue result → HasNoneOf (waits_by lists.now self.now) level.number }
    {
        self.front(lists, level).is_none() && self.parked[level.number].is_empty()
    }

    /// Sets the first event of the level's own list aside, which is of the slot.
    #[cold]
    pub(crate) fn park(&mut self, lists: &mut WaitingLists, level: Level, slot: usize)
        requires parted { IsParted lists.old self.old }
        requires first { is_some (own_first (parted_by lists.old self.old) level.number) ≡ true }
        requires slot { IfSome (own_first (parted_by lists.old self.old) level.number) (λ w. slot ≡ slot_of self.old.slots w) }
        ensures changed { IsChanged lists.old self.old lists.new self.new (waits_by lists.old self.old) }
        ensures below { IfSome (own_first (parted_by lists.old self.old) level.number) (λ w. parted_by lists.new self.new ≡ with_below (parted_by lists.old self.old) level.number (w.number + 1)) }
    {
        if let Some(head) = lists.pop(self.base + level.number) {
            let number = head.number;
            let list = self.base + parked_list(level, slot);
            lists.push(list, head);
            self.heads[level.number].set(slot, head_number(lists.head(list)));
            self.below[level.number] = number + 1;
            self.parked[level.number].add(slot);
        }
    }

    /// Takes the event of this number out, which is of the level and the slot.
    #[inline(always)]
    pub(crate) fn remove(
        &mut self,
        lists: &mut WaitingLists,
        level: Level,
        slot: usize,
        number: u64,
    )
        requires parted { IsParted lists.old self.old }
        requires slot { slot < self.old.slots }
        requires only { IsOnlyOf (waits_by lists.old self.old) level.number slot number }
        ensures { IsChanged lists.old self.old lists.new self.new (without_number (waits_by lists.old self.old) number) }
    {
        if lists.pop_number(self.base + level.number, number) {
            self.count -= 1;
        } else {
            self.remove_other(lists, level, slot, number);
        }
    }

    /// The same, where the event isn't the first one of the level's own list.
    #[cold]
    fn remove_other(&mut self, lists: &mut WaitingLists, level: Level, slot: usize, number: u64)
        requires parted { IsParted lists.old self.old }
        requires slot { slot < self.old.slots }
        requires only { IsOnlyOf (waits_by lists.old self.old) level.number slot number }
        ensures { IsChanged lists.old self.old lists.new self.new (without_number (waits_by lists.old self.old) number) }
    {
        let list = self.base + list_for(&self.below, level, slot, number);
        let taken = lists.take_number(list, number);
        let head = lists.head(self.base + parked_list(level, slot));
        self.heads[level.number].set(slot, head_number(head));
        if taken {
            self.count -= 1;
            // Where no event of the slot is left there, the slot is no longer looked at.
            if head.is_none() {
                self.parked[level.number].remove(slot);
            }
        }
    }
}

/// The list of the event of this number, which is of the level and the slot.
fn list_for(below: &[u64; LEVELS], level: Level, slot: usize, number: u64) -> usize
    requires { slot < 64 }
    ensures { result ≡ list_of_number below.now level.number slot number }
{
    if number < below[level.number] {
        parked_list(level, slot)
    } else {
        level.number
    }
}
