//! A log that counts the steps and keeps the last ones.

ghost use Rattle.std.proofs.Common.{rules};

use circular_buffer::HeapCircularBuffer;
use evt_types::Step;
use std::alloc::Global;
use std::marker::Model;
use step_log::{Counted, Memory, StepLog};

/// A log that counts the steps, however many there are, and keeps the last `N` of them, in a ring that is made once.
#[derive(Drop)]
pub struct Tail<const N: usize> {
    counted: Counted,
    kept: HeapCircularBuffer<Step>,
}

/// A contract sees a tail as its count: which steps it keeps is what that says of all steps.
impl<const N: usize> Model for Tail<N> {
    ghost use Rattle.std.specs.Prelude.{◌≡◌};
    ghost use Rattle.circular_buffer.specs.Buffer.{buffer};
    ghost use Rattle.step_log.specs.declared.counted.Counted.{Counted};
    ghost use Rattle.step_tally.specs.Last.{last_steps};

    ghost Value = { Counted };

    ghost view = { λ t. t.counted };

    ghost invariant = { λ t. t.kept ≡ buffer (last_steps N (⟦<Counted as StepLog>⟧.steps t.counted)) N };
}

impl<const N: usize> Tail<N> {
    ghost use Rattle.std.specs.Prelude.{◌≡◌, [], length, min, option_copied, slice_get, IfOk};
    ghost use Rattle.step_tally.specs.Last.{last_steps};

    /// A log without steps.
    pub fn new(alloc: Global) -> Result<Tail<N>, Memory>
        ensures { IfOk result (λ t. ⟦<Tail<N> as StepLog>⟧.steps t ≡ []) }
    {
        let kept = HeapCircularBuffer::with_capacity(alloc, N)?;
        Ok(Tail {
            counted: Counted::new(),
            kept,
        })
    }

    /// How many steps there were.
    pub fn count(&self) -> u64
        ensures { result ≡ length (⟦<Tail<N> as StepLog>⟧.steps self.now) }
    {
        self.counted.count()
    }

    /// How many of them are kept: the last `N`, or all.
    pub fn len(&self) -> usize
        ensures { result ≡ min N (length (⟦<Tail<N> as StepLog>⟧.steps self.now)) }
    {
        self.kept.len()
    }

    /// The kept step at this place, counted from the oldest one.
    pub fn get(&self, index: usize) -> Option<&Step>
        ensures { option_copied result ≡ slice_get (last_steps N (⟦<Tail<N> as StepLog>⟧.steps self.now)) index }
    {
        self.kept.get(index)
    }
}

/// It has room for as many steps as a count has, whatever `N` is.
impl<const N: usize> StepLog for Tail<N> {
    ghost steps = { λ log. ⟦<Counted as StepLog>⟧.steps log };

    ghost room = { λ log. ⟦<Counted as StepLog>⟧.room log };

    ghost short = { Prim.search rules };

    fn push_step(&mut self, step: Step) {
        self.kept.push_back(step);
        self.counted.push_step(step);
    }

    fn make_room(&mut self, count: usize) -> Result<(), Memory> {
        self.counted.make_room(count)
    }
}
