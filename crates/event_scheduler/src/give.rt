//! What waits is given to the lanes.

ghost use Rattle.std.specs.Prelude.{◌≡◌, ℕ, ◌+◌, ◌*◌, ◌≤◌, length, IfSome};
ghost use Rattle.credit_pool.specs.declared.account.Account.{Account};
ghost use Rattle.credit_pool.specs.declared.pool.Credits.{Credits};
ghost use Rattle.event_scheduler.specs.Giving.{GivesAll};
ghost use Rattle.event_scheduler.specs.Hidden.{NoneHidden};
ghost use Rattle.event_scheduler.specs.Scheduler.{sight};
ghost use Rattle.evt_types.specs.Plan.{lanes_of};
ghost use Rattle.sched_core.specs.Runs.{IsTurn};
ghost use Rattle.transcripts.specs.Choice.{Passed};
ghost use Rattle.transcripts.specs.Standing.{View};

use crate::deal::deal_all;
use arrayvec::ArrayVec;
use evt_types::{Delivery, Serving};
use lane_rings::{Hints, LaneSet, Near};
use sched_core::{Core, Skips, Turn};
use step_log::StepLog;

/// Gives all that may go. There is a copy of the loop for each kind of serving, so that neither asks for what only the other needs.
pub(crate) fn give_all<L: StepLog>(
    core: &mut Core,
    lanes: &mut Vec<Near>,
    hints: &Hints,
    run: &mut ArrayVec<Delivery, 32>,
    log: &mut L,
) -> (usize, usize)
    requires lanes { length lanes.old.items ≡ lanes_of core.old.shape }
    requires shown { NoneHidden lanes.old.items }
    requires room { core.old.shape.sweep * length core.old.shape.queues + lanes_of core.old.shape ≤ L.room log.old }
    ensures gives { (pool : Credits) (v : Account) (p n : ℕ) → GivesAll result.0 result.1 (sight pool core.old lanes.old.items v p n) (L.steps log.old) (sight pool core.new lanes.new.items v p n) (L.steps log.new) }
    ensures lanes { length lanes.new.items ≡ lanes_of core.new.shape }
    ensures shown { NoneHidden lanes.new.items }
{
    if core.shape().serving() == Serving::Flows {
        give_each::<L, true>(core, lanes, hints, run, log)
    } else {
        give_each::<L, false>(core, lanes, hints, run, log)
    }
}

/// Whose turn it is, where flow lanes serve the device.
#[inline(always)]
fn turn_by(flows: bool, next: Option<Turn>) -> Option<Turn>
    ensures { (core : View) (skips : Passed) → IfSome next (IsTurn core skips) → IfSome result (IsTurn core skips) }
{
    if flows { next } else { None }
}

/// Notes the lane to which something was given, where flow lanes serve the device.
#[inline(always)]
fn note(flows: bool, hints: &Hints, gave: &mut LaneSet, lane: usize) {
    if flows {
        hints.gave(gave, lane);
    }
}

/// Gives what is chosen, one run of events for a lane after the other, until no choice is left. A run has no more events than the lane's
/// ring has room for; it goes into the ring at once. A lane whose ring is full is passed over. At the end the hints of the lanes that were
/// given something are set.
#[inline(always)]
fn give_each<L: StepLog, const FLOWS: bool>(
    core: &mut Core,
    lanes: &mut Vec<Near>,
    hints: &Hints,
    run: &mut ArrayVec<Delivery, 32>,
    log: &mut L,
) -> (usize, usize)
    requires lanes { length lanes.old.items ≡ lanes_of core.old.shape }
    requires shown { NoneHidden lanes.old.items }
    requires room { core.old.shape.sweep * length core.old.shape.queues + lanes_of core.old.shape ≤ L.room log.old }
    ensures gives { (pool : Credits) (v : Account) (p n : ℕ) → GivesAll result.0 result.1 (sight pool core.old lanes.old.items v p n) (L.steps log.old) (sight pool core.new lanes.new.items v p n) (L.steps log.new) }
    ensures lanes { length lanes.new.items ≡ lanes_of core.new.shape }
    ensures shown { NoneHidden lanes.new.items }
{
    let _ = core.shape().limit();
    let mut skips = Skips::none();
    let mut given = 0;
    let mut bounced = 0;
    let mut turn = None;
    let mut gave = LaneSet::none();
    while let Some(offer) = core.propose_next(turn, &skips) {
        let lane = offer.lane;
        let dealt = deal_all::<L, FLOWS>(core, lanes, &offer, &mut skips, run, log);
        if dealt > 0 {
            turn = None;
            given += dealt;
            continue;
        }
        let near = &mut lanes[lane];
        let room = near.room();
        if room == 0 {
            core.bounce(lane, log);
            skips.bounced(lane);
            turn = None;
            bounced += 1;
        } else {
            let next = core.give_run(offer, room, &mut skips, run, log);
            near.offer_all(run.as_slice());
            turn = turn_by(FLOWS, next);
            note(FLOWS, hints, &mut gave, lane);
            given += run.len();
        }
    }
    hints.set_all(gave);
    (given, bounced)
}
