//! What a scheduler holds, and what can be read of it.

ghost use Rattle.std.specs.Prelude.{◌≡◌, false, length};
ghost use Rattle.credit_pool.specs.Pool.{account, IsSeatOf};
ghost use Rattle.event_scheduler.specs.Hidden.{NoneHidden};
ghost use Rattle.evt_types.specs.Plan.{lanes_of};
ghost use Rattle.std.specs.Arc.{arc_value};

use crate::parts::Parts;
use arrayvec::ArrayVec;
use credit_pool::{CreditSeat, Credits};
use evt_types::Delivery;
use lane_rings::{Hints, Near};
use sched_core::Core;
use std::alloc::Global;
use std::sync::Arc;

/// The scheduler of a device. One thread sweeps with it. Between two sweeps all that it gave is in the delivery rings, where the
/// holders of the lanes see it.
#[derive(Drop)]
pub struct Scheduler {
    pub(crate) pool: Arc<Credits, Global>,
    pub(crate) seat: CreditSeat,
    pub(crate) core: Core,
    pub(crate) lanes: Vec<Near>,
    /// The hints of the flow lanes, which the ports share.
    pub(crate) hints: Arc<Hints, Global>,
    /// The credits of what was turned away, as far as they weren't given back yet.
    pub(crate) pocket: u64,
    /// How many events were accepted as new.
    pub(crate) accepted_new: u64,
    /// What a sweep gives a lane at once; between sweeps nothing rests on it.
    pub(crate) run: ArrayVec<Delivery, 32>,
    pub ghost seat_of: { IsSeatOf (arc_value pool) seat },
    pub ghost drew_none: { (account seat).drawn ≡ 0 },
    pub ghost unset: { (account seat).set_shut ≡ false },
    pub ghost lanes_are: { length lanes.items ≡ lanes_of core.shape },
    pub ghost shown: { NoneHidden lanes.items },
}

impl Scheduler {
    ghost use Rattle.std.specs.Prelude.{◌≡◌, false, List, [], length};
    ghost use Rattle.event_scheduler.specs.Parts.{AreUnused, IsUnused, sight_in};
    ghost use Rattle.event_scheduler.specs.Scheduler.{Serves, sight, sight_of};
    ghost use Rattle.evt_types.specs.declared.step.Step.{Step as StepValue};
    ghost use Rattle.transcripts.specs.Replies.{new_count};
    ghost use Rattle.transcripts.specs.Standing.{Stands};
    ghost use Rattle.transcripts.specs.Transcript as transcripts;

    /// A scheduler at the empty transcript. Its seat is of the pool; it has an end of each lane of the core's configuration, as deep
    /// as the configuration says.
    pub fn new(
        pool: Arc<Credits, Global>,
        seat: CreditSeat,
        core: Core,
        lanes: Vec<Near>,
        hints: Arc<Hints, Global>,
    ) -> Scheduler
        requires seat { IsSeatOf (arc_value pool) seat }
        requires account { IsUnused (account seat) }
        requires core { Stands [] core }
        requires lanes { AreUnused core.shape lanes.items }
        ensures sight { sight_of result ≡ sight (arc_value pool) core lanes.items (account seat) 0 0 }
        ensures serves { Serves [] (sight_of result) }
    {
        Scheduler {
            pool,
            seat,
            core,
            lanes,
            hints,
            pocket: 0,
            accepted_new: 0,
            run: ArrayVec::new(),
        }
    }

    /// What the scheduler is made of: nothing of it has changed.
    pub fn into_parts(self) -> Parts
        ensures sight { sight_in result (sight_of self).accepted_new ≡ sight_of self }
        ensures seat { IsSeatOf (arc_value result.pool) result.seat }
        ensures drawn { (account result.seat).drawn ≡ 0 }
        ensures unset { (account result.seat).set_shut ≡ false }
        ensures lanes { length result.lanes.items ≡ lanes_of result.core.shape }
        ensures shown { NoneHidden result.lanes.items }
    {
        let Scheduler {
            pool,
            seat,
            core,
            lanes,
            hints: _,
            pocket,
            accepted_new: _,
            run: _,
        } = self;
        Parts {
            pool,
            seat,
            core,
            lanes,
            pocket,
        }
    }

    /// The scheduling core, to be read.
    pub fn core(&self) -> &Core
        ensures { result.now ≡ (sight_of self.now).core }
    {
        &self.core
    }

    /// How many events wait, are kept or are unanswered.
    pub fn inside(&self) -> usize
        ensures { (T : List StepValue) → Serves T (sight_of self.now) → result ≡ transcripts.inside (sight_of self.now).core.shape T }
    {
        self.core.inside()
    }

    /// How many events were accepted as new.
    pub fn accepted_new(&self) -> u64
        ensures { (T : List StepValue) → Serves T (sight_of self.now) → result ≡ new_count T }
    {
        self.accepted_new
    }
}
