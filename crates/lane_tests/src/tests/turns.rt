//! Four threads that claim and give back at once.
ghost use Rattle.std.specs.Prelude.{◌≡◌, ◌+◌, ◌<◌, length, All, IfOk};
ghost use Rattle.flow_claims.specs.Laws.{IsUnused};
ghost use Rattle.flow_claims.specs.Seats.{HoldsNone};
ghost use Rattle.flow_claims.specs.Claims.{seating, port_of, lanes_of, IsSeatOf};
ghost use Rattle.lane_tests.specs.Idle.{IsIdle, StaysIdle};

use super::made_claims::{claims_of, hold_once};
use flow_claims::{ClaimSeat, Claims, Memory};
use lane_rings::{Far, lane};
use std::alloc::Global;
use std::test::Fail;
use std::thread::{Threads, join, yield_now};

/// How many lanes four threads share, and how often each thread holds one.
const LANES: usize = 8;

const TURNS: u32 = 25_000;

/// How often a thread tries for one lane, while others hold it, before it gives up and the test fails.
const PATIENCE: u32 = 10_000_000;

/// Tries as long as others hold the lane; whether it held the lane before it gave up.
fn hold_soon(claims: &Claims, seat: &mut ClaimSeat, lane: usize) -> bool
    requires seat { IsIdle claims.now seat.old }
    requires lane { lane < length (lanes_of claims.now) }
    ensures { StaysIdle claims.now seat.old seat.new }
{
    for _ in 0..PATIENCE {
        if hold_once(claims, seat, lane).is_ok() {
            return true;
        }
        yield_now();
    }
    false
}

/// Holds the lanes in turn, and gives them back; how often one was held. It stops where it gave up at one.
fn take_turns(claims: &Claims, seat: ClaimSeat) -> (ClaimSeat, u64)
    requires seat { IsIdle claims.now seat }
    requires lanes { length (lanes_of claims.now) ≡ 8 }
    ensures { StaysIdle claims.now seat result.0 }
{
    let mut seat = seat;
    let mut held = 0u64;
    for turn in 0..TURNS {
        if !hold_soon(claims, &mut seat, turn as usize % LANES) {
            return (seat, held);
        }
        held = held.wrapping_add(1);
    }
    (seat, held)
}

fn take_turns_by_two<R: Threads + Sync>(
    rt: &R,
    claims: &Claims,
    a: ClaimSeat,
    b: ClaimSeat,
) -> (ClaimSeat, u64)
    requires first { IsIdle claims.now a }
    requires second { IsIdle claims.now b }
    requires lanes { length (lanes_of claims.now) ≡ 8 }
    ensures seat { IsSeatOf claims.now result.0 × (port_of result.0 ≡ port_of a) }
    ensures none { HoldsNone (seating result.0) }
    ensures parts { (seating result.0).parts ≡ (seating a).parts + (seating b).parts }
{
    let ((a, here), (b, there)) = join(
        rt,
        move || take_turns(claims, a),
        move || take_turns(claims, b),
    );
    (claims.join(a, b), here.wrapping_add(there))
}

/// How many stints the lanes have had, by the numbers of one more of each; none where a lane isn't free.
fn count_stints(claims: &Claims, seat: &mut ClaimSeat) -> Option<u64>
    requires seat { IsIdle claims.now seat.old }
    requires lanes { length (lanes_of claims.now) ≡ 8 }
    ensures { StaysIdle claims.now seat.old seat.new }
{
    let mut count = 0u64;
    for lane in 0..LANES {
        count = count.wrapping_add(hold_once(claims, seat, lane).ok()?);
    }
    Some(count)
}

fn eight_lanes(alloc: Global) -> Result<Vec<Far>, Memory>
    ensures fresh { IfOk result (λ v. All IsUnused v.items) }
    ensures count { IfOk result (λ v. length v.items ≡ 8) }
{
    let mut ends = Vec::with_capacity(alloc, LANES)?;
    for _round in 0..LANES {
        let (_near, far) = lane(alloc, 1, 1)?;
        ends.push_reserved(far);
    }
    Ok(ends)
}

#[test]
fn four_threads_count_every_stint(rt: HostRuntime) -> Result<(), Fail> {
    let mut out = Vec::with_capacity(rt.alloc(), LANES)?;
    let ends = eight_lanes(rt.alloc())?;
    let (claims, seat) = claims_of(rt.alloc(), ends)?;
    let (seat, first) = claims.split(seat, 0).unwrap();
    let (seat, second) = claims.split(seat, 1).unwrap();
    let (seat, third) = claims.split(seat, 2).unwrap();
    let (seat, fourth) = claims.split(seat, 3).unwrap();
    let shared = &claims;
    let ((mut a, here), (b, there)) = join(
        &rt,
        || take_turns_by_two(&rt, shared, first, second),
        || take_turns_by_two(&rt, shared, third, fourth),
    );
    let held = here.wrapping_add(there);
    let count = count_stints(&claims, &mut a);
    claims.close(claims.join(claims.join(seat, a), b), &mut out);
    let every = 4 * u64::from(TURNS);
    assert_eq!(rt; (held, count, out.len()), (every, Some(every), LANES));
    Ok(())
}
