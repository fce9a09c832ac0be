//! A lane's end in a block of its own.

ghost use Rattle.std.specs.Prelude.{◌≡◌, ◌↔◌, ◌<◌, ◌≤◌, false, [], length, IsTrue, IfOk, IfErr};
ghost use Rattle.lane_rings.specs.Ends.{received_by, seen_deliveries, answered, answers_among, unanswered};
ghost use Rattle.lane_rings.specs.Identity.{far_id};

use lane_rings::Far;
use std::alloc::Global;
use std::marker::Model;

/// A lane's end in a block of its own, so that a claim and the end of a stint move a pointer and not the end. Contracts see the end.
#[derive(Drop)]
pub struct BoxedFar {
    pub(crate) end: Box<Far>,
}

impl Model for BoxedFar {
    ghost use Rattle.lane_rings.specs.declared.far.Far.{Far};

    ghost Value = { Far };

    ghost view = { λ b. b.end.value };
}

impl BoxedFar {
    /// The end in a block. After want of memory it comes back.
    pub(crate) fn new(alloc: Global, far: Far) -> Result<BoxedFar, Far>
        ensures boxed { IfOk result (λ b. b ≡ far) }
        ensures back { IfErr result (λ e. e ≡ far) }
    {
        match Box::new(alloc, far) {
            Ok(end) => Ok(BoxedFar { end }),
            Err(refused) => Err(refused.value),
        }
    }

    /// The end, out of its block.
    pub(crate) fn into_far(self) -> Far
        ensures { result ≡ self }
    {
        let BoxedFar { end } = self;
        Box::into_inner(end)
    }

    /// `Far::seen` of the end.
    #[inline(always)]
    pub fn seen(&self) -> usize
        ensures { result ≡ length (seen_deliveries self.now) }
    {
        self.end.seen()
    }

    /// `Far::held` of the end.
    #[inline(always)]
    pub fn held(&self) -> usize
        ensures value { result ≡ length (unanswered self.now) }
        ensures within { result ≤ (far_id self.now).depth }
        ensures fewer { answers_among (answered self.now) ≤ length (received_by self.now) }
    {
        self.end.held()
    }

    /// `Far::is_full` of the end.
    #[inline(always)]
    pub fn is_full(&self) -> bool
        ensures full { IsTrue result ↔ (length (unanswered self.now) ≡ (far_id self.now).depth) }
        ensures room { result ≡ false → length (unanswered self.now) < (far_id self.now).depth }
    {
        self.end.is_full()
    }
}
