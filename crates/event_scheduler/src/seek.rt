//! The way to the next lane that has a reply.

ghost use Rattle.std.specs.Prelude.{◌≡◌, ◌≢◌, ℕ, ◌<◌, ◌≤◌, List, [], length};
ghost use Rattle.event_scheduler.specs.Scheduler.{seen_at, sight_of};
ghost use Rattle.event_scheduler.specs.Seeking.{SameLanes, fetched_in, seen_in};
ghost use Rattle.event_scheduler.specs.Taking.{Takes};
ghost use Rattle.evt_types.specs.declared.step.Step.{Step as StepValue};
ghost use Rattle.evt_types.specs.Plan.{lanes_of};

use crate::scheduler::Scheduler;
use lane_rings::Near;

/// The first of these lanes, from this one on, of which a reply is fetched, as each is asked by a `fetch` of `most`; or how many lanes
/// there are, where none has a reply. Mostly a lane has nothing, and then it costs one look.
#[inline(always)]
fn first_fetched(lanes: &mut [Near], from: usize, most: usize) -> usize
    requires from { from ≤ length lanes.old }
    requires most { 0 < most }
    ensures same { SameLanes lanes.old lanes.new }
    ensures lane { (from ≤ result) × (result ≤ length lanes.old) }
    ensures none { (l : ℕ) → from ≤ l → l < result → seen_in lanes.new l ≡ [] }
    ensures found { result < length lanes.old → fetched_in lanes.new result ≢ [] }
    ensures others { (l : ℕ) → l < from → seen_in lanes.new l ≡ seen_in lanes.old l }
{
    let count = lanes.len();
    for lane in from..count {
        let near = &mut lanes[lane];
        if near.fetch(most) {
            return lane;
        }
    }
    count
}

impl Scheduler {
    /// The first lane from this one on that has a reply, or how many lanes there are where none has one. It looks at the rings of
    /// the lanes up to that one alone, by a `fetch` of the sweep quantum.
    #[inline(always)]
    pub(crate) fn seek(&mut self, from: usize) -> usize
        requires { from ≤ lanes_of self.old.core.shape }
        ensures takes { (log : List StepValue) → Takes (λ m. 0) 0 (sight_of self.old) log (sight_of self.new) log }
        ensures core { self.new.core ≡ self.old.core }
        ensures lane { (from ≤ result) × (result ≤ lanes_of self.old.core.shape) }
        ensures none { (l : ℕ) → from ≤ l → l < result → seen_at (sight_of self.new) l ≡ [] }
        ensures found { result < lanes_of self.old.core.shape → fetched_in self.new.lanes.items result ≢ [] }
        ensures others { (l : ℕ) → l < from → seen_at (sight_of self.new) l ≡ seen_at (sight_of self.old) l }
    {
        let most = self.core.shape().sweep() as usize;
        first_fetched(&mut self.lanes, from, most)
    }
}
