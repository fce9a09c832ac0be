//! The numbers of the first events that are set aside.

ghost use Rattle.std.specs.Prelude.{◌≡◌, ℕ, ◌<◌, length, option_copied, slice_set, replicate, IfOk, IfSome, IfNone};
ghost use Rattle.small_set.specs.SmallSets.{Has};
ghost use Rattle.parked_queue.specs.Heads.{HasNoHead, IsFirstSlot, number_of};

use evt_types::Numbered;
use small_set::SmallSet;
use std::alloc::{AllocError, Global};
use std::marker::Model;

/// In place of a number, where no event of a slot is set aside. No event has it.
pub(crate) const NO_HEAD: u64 = u64::MAX;

/// For each slot the number of its first event of one level that is set aside.
#[derive(Drop)]
pub(crate) struct Heads {
    numbers: Vec<u64>,
}

impl Model for Heads {
    ghost use Rattle.std.specs.Prelude.{List, ℕ};

    ghost Value = { List ℕ };

    ghost view = { λ a. a.numbers.items };
}

impl Heads {
    /// Of so many slots no event is set aside.
    pub(crate) fn none(alloc: Global, slots: usize) -> Result<Heads, AllocError>
        ensures { IfOk result (λ h. h ≡ replicate slots NO_HEAD) }
    {
        let numbers = vec![in alloc; NO_HEAD; slots]?;
        Ok(Heads { numbers })
    }

    /// Notes the number of the slot.
    #[inline(always)]
    pub(crate) fn set(&mut self, slot: usize, number: u64)
        requires { slot < length self.old }
        ensures { self.new ≡ slice_set self.old slot number }
    {
        self.numbers[slot] = number;
    }

    /// Of these slots the one whose first event is the oldest.
    #[inline(always)]
    pub(crate) fn first_of(&self, slots: SmallSet) -> Option<usize>
        requires { (k : ℕ) → Has slots k → k < length self.now }
        ensures first { IfSome result (IsFirstSlot self.now slots) }
        ensures none { IfNone result (HasNoHead self.now slots) }
    {
        let mut best = NO_HEAD;
        let mut first = 0;
        let mut left = slots;
        while let Some(slot) = left.pop() {
            let number = self.numbers[slot];
            if number < best {
                best = number;
                first = slot;
            }
        }
        if best == NO_HEAD { None } else { Some(first) }
    }
}

/// The number of a list's oldest event, where it has one.
#[inline(always)]
pub(crate) fn head_number(head: Option<&Numbered>) -> u64
    ensures { result ≡ number_of (option_copied head.entry) }
{
    match head {
        Some(oldest) => oldest.number,
        None => NO_HEAD,
    }
}
