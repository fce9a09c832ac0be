//! What a sweep passes over.

ghost use Rattle.std.specs.Prelude.{◌≡◌, ℕ, ◌+◌, ◌-◌, ◌<◌, ◌≤◌, ◌↔◌, true, slice_set, slice_index, nat_lt, length, IsTrue};
ghost use Rattle.transcripts.specs.Choice.{has_bounced};
ghost use Rattle.small_set.specs.SmallSets.{Has};
ghost use Rattle.sched_core.specs.Runs.{given_times};
ghost use Rattle.sched_core.specs.Skipped.{nothing_passed};

use evt_types::{MAX_LANES, MAX_QUEUES, MAX_SWEEP};
use small_set::{MAX_MEMBERS, SmallSet};
use std::marker::Model;

/// How many sets have a member for each lane.
const SETS: usize = (MAX_LANES - 1) / MAX_MEMBERS + 1;

/// The lanes whose ring refused a delivery in this sweep, and how many events of each queue were given in it.
#[derive(Drop)]
pub struct Skips {
    /// The lanes in sets, one after another. The ports' lanes are in the first one.
    bounced: [SmallSet; SETS],
    given: [u8; MAX_QUEUES],
}

impl Model for Skips {
    ghost use Rattle.std.specs.Prelude.{◌≡◌, length};
    ghost use Rattle.transcripts.specs.Choice.{Passed};
    ghost use Rattle.sched_core.specs.Skipped.{lanes_in};
    ghost use Rattle.sched_core.specs.declared.skips.TheConstants.{SETS};

    ghost Value = { Passed };

    ghost view = { λ a. record { bounced = lanes_in a.bounced; given = a.given } };

    ghost invariant = { λ a. length a.bounced ≡ SETS };
}

impl Skips {
    /// Nothing is passed over.
    pub fn none() -> Skips
        ensures { result ≡ nothing_passed }
    {
        Skips {
            bounced: [SmallSet::none(); SETS],
            given: [0; MAX_QUEUES],
        }
    }

    /// The lane's ring refused a delivery.
    pub fn bounced(&mut self, lane: usize)
        requires { lane < MAX_LANES }
        ensures { self.new ≡ record self.old { bounced = slice_set self.old.bounced lane true } }
    {
        let mut set = self.bounced[lane / MAX_MEMBERS];
        set.add(lane % MAX_MEMBERS);
        self.bounced[lane / MAX_MEMBERS] = set;
    }

    /// An event of the queue was given.
    pub fn given(&mut self, queue: usize)
        requires queue { queue < MAX_QUEUES }
        requires count { slice_index self.old.given queue < MAX_SWEEP }
        ensures value { self.new ≡ record self.old { given = slice_set self.old.given queue (slice_index self.old.given queue + 1) } }
        ensures counts { length self.old.given ≡ MAX_QUEUES }
    {
        self.given[queue] += 1;
    }

    /// So many events of the queue were given.
    #[inline(always)]
    pub fn given_row(&mut self, queue: usize, count: usize)
        requires queue { queue < MAX_QUEUES }
        requires count { slice_index self.old.given queue + count ≤ MAX_SWEEP }
        ensures value { self.new ≡ given_times self.old queue count }
        ensures counts { length self.old.given ≡ MAX_QUEUES }
    {
        self.given[queue] += count as u8;
    }

    /// Of the first lanes, as many as a set may have members, those that are passed over.
    pub fn closed(&self) -> SmallSet
        ensures { (l : ℕ) → l < MAX_MEMBERS → Has result l ↔ (has_bounced self.now l ≡ true) }
    {
        self.bounced[0]
    }

    /// Whether the lane is passed over.
    pub fn has_bounced(&self, lane: usize) -> bool
        ensures { result ≡ has_bounced self.now lane }
    {
        lane < MAX_LANES && self.bounced[lane / MAX_MEMBERS].has(lane % MAX_MEMBERS)
    }

    /// Whether an event of the queue was given.
    pub(crate) fn has_given(&self, queue: usize) -> bool
        requires { queue < MAX_QUEUES }
        ensures { IsTrue result ↔ (0 < slice_index self.now.given queue) }
    {
        self.given[queue] > 0
    }

    /// Whether fewer events of the queue were given than the sweep quantum.
    pub fn has_quota(&self, queue: usize, sweep: u32) -> bool
        requires { queue < MAX_QUEUES }
        ensures value { result ≡ nat_lt (slice_index self.now.given queue) sweep }
        ensures counts { length self.now.given ≡ MAX_QUEUES }
    {
        u32::from(self.given[queue]) < sweep
    }

    /// How many events more of the queue the sweep quantum lets be given.
    pub fn quota_left(&self, queue: usize, sweep: u32) -> usize
        requires { queue < MAX_QUEUES }
        ensures value { result ≡ sweep - slice_index self.now.given queue }
        ensures counts { length self.now.given ≡ MAX_QUEUES }
    {
        (sweep as usize).saturating_sub(usize::from(self.given[queue]))
    }
}
