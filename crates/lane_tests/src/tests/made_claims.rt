//! Lanes and claims for the tests. Lanes, lists and claims are made again where memory was refused, and serve then as ever.
ghost use Rattle.std.specs.Prelude.{◌≡◌, ◌<◌, [], length, vec_len, vec_capacity, All, IfOk};
ghost use Rattle.lane_rings.specs.Ends.{offered, taken};
ghost use Rattle.lane_rings.specs.Identity.{near_id, far_id};
ghost use Rattle.flow_claims.specs.Laws.{IsUnused};
ghost use Rattle.flow_claims.specs.Seats.{HoldsNone, first_seating};
ghost use Rattle.flow_claims.specs.Claims.{seating, lanes_of, IsSeatOf};
ghost use Rattle.lane_tests.specs.Idle.{IsIdle, StaysIdle};

use flow_claims::{Claim, ClaimSeat, Claims, Memory};
use lane_rings::{Far, Near, lane};
use std::alloc::Global;

/// A lane whose rings have this room.
pub(crate) fn lane_again(alloc: Global, depth: usize, replies: usize) -> Result<(Near, Far), Memory>
    ensures pair { IfOk result (λ r. near_id r.0 ≡ far_id r.1) }
    ensures room { IfOk result (λ r. ((far_id r.1).depth ≡ depth) × ((far_id r.1).room ≡ replies)) }
    ensures near { IfOk result (λ r. (offered r.0 ≡ []) × (taken r.0 ≡ [])) }
    ensures far { IfOk result (λ r. IsUnused r.1) }
{
    match lane(alloc, depth, replies) {
        Ok(ends) => Ok(ends),
        Err(_) => lane(alloc, depth, replies),
    }
}

/// A list in which the ends of so many lanes fit.
pub(crate) fn ends_for(alloc: Global, lanes: usize) -> Result<Vec<Far>, Memory>
    ensures { IfOk result (λ v. (v.items ≡ []) × (vec_len v ≡ 0) × (vec_capacity v ≡ lanes)) }
{
    match Vec::with_capacity(alloc, lanes) {
        Ok(ends) => Ok(ends),
        Err(_) => Vec::with_capacity(alloc, lanes),
    }
}

/// Claims over these lanes, made again of the ends that came back where memory was refused.
pub(crate) fn claims_of(alloc: Global, ends: Vec<Far>) -> Result<(Claims, ClaimSeat), Memory>
    requires { All IsUnused ends.items }
    ensures seat { IfOk result (λ r. IsSeatOf r.0 r.1 × (lanes_of r.0 ≡ ends.items)) }
    ensures seating { IfOk result (λ r. seating r.1 ≡ first_seating ends.items) }
{
    match Claims::new(alloc, ends) {
        Ok(made) => Ok(made),
        Err((_, ends)) => match Claims::new(alloc, ends) {
            Ok(made) => Ok(made),
            Err((memory, _ends)) => Err(memory),
        },
    }
}

/// Claims over one lane, with the end of it that brings deliveries in.
pub(crate) fn one_lane(alloc: Global) -> Result<(Near, Claims, ClaimSeat), Memory>
    ensures seat { IfOk result (λ r. IsSeatOf r.1 r.2 × (length (lanes_of r.1) ≡ 1)) }
    ensures seating { IfOk result (λ r. HoldsNone (seating r.2) × ((seating r.2).parts ≡ 64)) }
{
    let (near, far) = lane_again(alloc, 1, 1)?;
    let mut ends = ends_for(alloc, 1)?;
    ends.push_reserved(far);
    let (claims, seat) = claims_of(alloc, ends)?;
    Ok((near, claims, seat))
}

/// Tries once to hold the lane, and gives it back: the number of the stint, or the word that was seen where it was busy.
pub(crate) fn hold_once(
    claims: &Claims,
    seat: &mut ClaimSeat,
    lane: usize,
) -> Result<u64, Option<u64>>
    requires seat { IsIdle claims.now seat.old }
    requires lane { lane < length (lanes_of claims.now) }
    ensures { StaysIdle claims.now seat.old seat.new }
{
    match claims.claim(seat, lane) {
        Claim::Held(stint) => {
            let number = stint.number;
            claims.give_back(seat, stint);
            Ok(number)
        }
        Claim::Busy { seen } => Err(Some(seen)),
        Claim::WornOut
        | Claim::Raced {
            first: _,
            second: _,
        } => Err(None),
    }
}
