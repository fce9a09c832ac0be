//! Known values of the calls in one thread.
ghost use Rattle.std.specs.Prelude.{◌≡◌, ◌<◌, length, IfOk};
ghost use Rattle.flow_claims.specs.Seats.{HoldsNone};
ghost use Rattle.flow_claims.specs.Claims.{seating, lanes_of, IsSeatOf};
ghost use Rattle.lane_tests.specs.Idle.{IsIdle, StaysIdle};

use super::made::delivery;
use super::made_claims::{claims_of, ends_for, hold_once, lane_again, one_lane};
use evt_types::Delivery;
use flow_claims::{Claim, ClaimSeat, Claims};
use lane_rings::{Far, Memory, Near};
use std::alloc::Global;
use std::test::Fail;

/// What a claim found: the lane, the number of the stint, and how much was held; and what came of another port's try meanwhile.
type Found = (usize, u64, usize, Result<u64, Option<u64>>);

/// Holds lane 0 while the other port tries for it, and gives it back.
fn hold_against(claims: &Claims, seat: &mut ClaimSeat, other: &mut ClaimSeat) -> Option<Found>
    requires seats { IsIdle claims.now seat.old × IsIdle claims.now other.old }
    requires lane { 0 < length (lanes_of claims.now) }
    ensures seat { StaysIdle claims.now seat.old seat.new }
    ensures other { StaysIdle claims.now other.old other.new }
{
    let Claim::Held(stint) = claims.claim(seat, 0) else {
        return None;
    };
    let tried = hold_once(claims, other, 0);
    let found = (stint.lane, stint.number, stint.far.held(), tried);
    claims.give_back(seat, stint);
    Some(found)
}

#[test]
fn two_claimers(rt: HostRuntime) -> Result<(), Fail> {
    let (_near, claims, seat) = one_lane(rt.alloc())?;
    let (seat, mut zero) = claims.split(seat, 0).unwrap();
    let (_seat, mut one) = claims.split(seat, 1).unwrap();
    let first = hold_against(&claims, &mut zero, &mut one);
    let second = hold_against(&claims, &mut one, &mut zero);
    assert_eq!(rt; first, Some((0, 0, 0, Err(Some(1)))));
    assert_eq!(rt; second, Some((0, 1, 0, Err(Some(258)))));
    Ok(())
}

/// Holds the lane, receives what waits there, and surrenders the lane.
fn receive_and_surrender(claims: &Claims, seat: &mut ClaimSeat, lane: usize) -> Option<Delivery>
    requires seat { IsIdle claims.now seat.old }
    requires lane { lane < length (lanes_of claims.now) }
    ensures { StaysIdle claims.now seat.old seat.new }
{
    let Claim::Held(mut stint) = claims.claim(seat, lane) else {
        return None;
    };
    if stint.far.is_full() {
        claims.surrender(seat, stint);
        return None;
    }
    let came = stint.receive();
    claims.surrender(seat, stint);
    came
}

/// Claims over two lanes, with a delivery at the second.
fn two_lanes(alloc: Global) -> Result<(Near, Claims, ClaimSeat), Memory>
    ensures seat { IfOk result (λ r. IsSeatOf r.1 r.2 × (length (lanes_of r.1) ≡ 2)) }
    ensures seating { IfOk result (λ r. HoldsNone (seating r.2) × ((seating r.2).parts ≡ 64)) }
{
    let (_first, far) = lane_again(alloc, 1, 1)?;
    let (mut near, other) = lane_again(alloc, 1, 1)?;
    let _ = near.offer(delivery(5));
    let mut ends = ends_for(alloc, 2)?;
    ends.push_reserved(far);
    ends.push_reserved(other);
    let (claims, seat) = claims_of(alloc, ends)?;
    Ok((near, claims, seat))
}

/// How much is held at the end.
fn held_at(end: Option<Far>) -> Option<usize> {
    let far = end?;
    Some(far.held())
}

#[test]
fn a_surrendered_lane_stays_away(rt: HostRuntime) -> Result<(), Fail> {
    let mut out = ends_for(rt.alloc(), 2)?;
    let (_near, claims, seat) = two_lanes(rt.alloc())?;
    let (seat, mut zero) = claims.split(seat, 0).unwrap();
    let (seat, mut one) = claims.split(seat, 1).unwrap();
    let came = receive_and_surrender(&claims, &mut one, 1);
    let tried = hold_once(&claims, &mut zero, 1);
    claims.close(claims.join(claims.join(seat, zero), one), &mut out);
    assert_eq!(rt; (came, tried), (Some(delivery(5)), Err(Some(511))));
    let held = [held_at(out.pop()), held_at(out.pop()), held_at(out.pop())];
    assert_eq!(rt; held, [Some(1), Some(0), None]);
    Ok(())
}
