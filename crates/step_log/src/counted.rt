//! A log that keeps nothing but how many steps there were.

ghost use Rattle.std.specs.Prelude.{◌≡◌, ◌-◌, ◌^◌, ◌≤◌, [], length};
ghost use Rattle.std.proofs.Common.{rules};

use crate::log::StepLog;
use crate::unkept::Unkept;
use evt_types::{Memory, Step};
use std::alloc::AllocError;

/// After so many steps a count has no room for more.
pub const MAX_STEPS: u64 = (1 << 63) - 1;

/// A log in 8 bytes: it counts the steps and keeps none, so that a device may run for as long as it likes.
#[derive(Drop)]
pub struct Counted {
    count: u64,
    seen: Unkept,
    ghost count_is: { count ≡ length seen.seen },
    ghost few: { count ≤ 2 ^ 63 - 1 },
}

impl Counted {
    /// A log without steps.
    pub fn new() -> Counted
        ensures { ⟦<Counted as StepLog>⟧.steps result ≡ [] }
    {
        Counted {
            count: 0,
            seen: Unkept::new(),
        }
    }

    /// How many steps there were.
    pub fn count(&self) -> u64
        ensures { result ≡ length (⟦<Counted as StepLog>⟧.steps self.now) }
    {
        self.count
    }
}

/// It has room for `MAX_STEPS` steps in all; more are answered as want of memory.
impl StepLog for Counted {
    ghost steps = { λ log. log.seen.seen };

    ghost room = { λ log. 2 ^ 63 - 1 - log.count };

    ghost short = { Prim.search rules };

    #[inline(always)]
    fn push_step(&mut self, step: Step) {
        self.seen = Unkept::then(&self.seen, &step);
        self.count += 1;
    }

    fn make_room(&mut self, count: usize) -> Result<(), Memory> {
        if MAX_STEPS - self.count < count as u64 {
            return Err(AllocError);
        }
        Ok(())
    }
}
