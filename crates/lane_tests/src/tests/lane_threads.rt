//! A lane's two ends in threads of their own.

ghost use Rattle.std.specs.Prelude.{◌≡◌};
ghost use Rattle.lane_rings.specs.Identity.{near_id, far_id};

use super::made::{delivery, reply};
use evt_types::Op;
use lane_rings::{Far, Near, beside, lane};
use std::test::Fail;
use std::thread;
use std::thread::Threads;

/// How many deliveries and replies pass between two threads.
const PASSES: u64 = 100_000;

/// In how many turns in a row nothing may pass at an end before it gives up, and the test fails.
const PATIENCE: u32 = 10_000_000;

/// Offers each number below `PASSES`, and takes a reply for each; whether all replies came, in order.
fn schedule(near: Near) -> (Near, bool)
    ensures { near_id result.0 ≡ near_id near }
{
    let mut near = near;
    let (mut offered, mut taken, mut idle) = (0, 0, 0);
    let mut in_order = true;
    for _ in 0..u64::MAX {
        if taken >= PASSES || idle >= PATIENCE {
            break;
        }
        idle += 1;
        if offered < PASSES && near.offer(delivery(offered)).is_ok() {
            offered += 1;
            idle = 0;
        }
        match near.take() {
            Some(back) => {
                in_order = in_order && back == reply(Op::Forward, taken);
                taken += 1;
                idle = 0;
            }
            None => thread::yield_now(),
        }
    }
    (near, in_order && taken == PASSES)
}

/// Receives `PASSES` deliveries, and answers each; whether all deliveries came, in order.
fn hold(far: Far) -> (Far, bool)
    ensures { far_id result.0 ≡ far_id far }
{
    let mut far = far;
    let (mut received, mut answered, mut idle) = (0, 0, 0);
    let mut in_order = true;
    for _ in 0..u64::MAX {
        if answered >= PASSES || idle >= PATIENCE {
            break;
        }
        idle += 1;
        if received < PASSES && !far.is_full() {
            if let Some(next) = far.receive() {
                in_order = in_order && next == delivery(received);
                received += 1;
                idle = 0;
            }
        }
        if far.held() > 0 && far.answer(reply(Op::Forward, answered)).is_ok() {
            answered += 1;
            idle = 0;
        }
        // Also where nothing more may be held and the other ring is full: the other thread may wait for this one's processor.
        if idle > 0 {
            thread::yield_now();
        }
    }
    (far, in_order && answered == PASSES)
}

/// Runs both ends at once; whether all came in order and nothing is left.
fn pass_across<R: Threads + Sync>(rt: &R, near: Near, far: Far) -> bool
    requires { near_id near ≡ far_id far }
{
    let ((near, replies_in_order), (far, deliveries_in_order)) = thread::join(
        rt,
        move || -> (Near, bool)
            ensures { near_id result.0 ≡ near_id near }
        { schedule(near) },
        move || -> (Far, bool)
            ensures { far_id result.0 ≡ far_id far }
        { hold(far) },
    );
    let mut rests = beside(near, far);
    let is_empty = rests.next_undelivered().is_none()
        && rests.next_untaken().is_none()
        && rests.held() == 0;
    replies_in_order && deliveries_in_order && is_empty
}

#[test]
fn two_threads(rt: HostRuntime) -> Result<(), Fail> {
    for depth in [1, 7, 64] {
        let (near, far) = lane(rt.alloc(), depth, 5)?;
        assert!(rt; pass_across(&rt, near, far), "depth {depth}");
    }
    Ok(())
}
