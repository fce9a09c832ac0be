//! Refused memory: the ends come back in their order, from `new` as from `close`.

ghost use Rattle.std.specs.Prelude.{◌≡◌, ◌≤◌, [], length, vec_capacity, All, IfOk};
ghost use Rattle.flow_claims.specs.Laws.{IsUnused};

use super::made::delivery;
use super::made_claims::{ends_for, lane_again};
use flow_claims::Claims;
use lane_rings::{Far, Memory};
use std::alloc::Global;
use std::test::Fail;

/// The number of the delivery that waits at an end.
fn waiting_at(end: Option<Far>) -> Option<u64> {
    let mut far = end?;
    if far.is_full() {
        return None;
    }
    Some(far.receive()?.number())
}

/// The holder's end of a lane in which a delivery of this number waits.
fn waiting(alloc: Global, number: u64) -> Result<Far, Memory>
    ensures { IfOk result IsUnused }
{
    let (mut near, far) = lane_again(alloc, 1, 1)?;
    let _ = near.offer(delivery(number));
    Ok(far)
}

/// The ends of three lanes, in which these wait.
fn three_waiting(alloc: Global) -> Result<Vec<Far>, Memory>
    ensures unused { IfOk result (λ v. All IsUnused v.items) }
    ensures three { IfOk result (λ v. length v.items ≡ 3) }
{
    let mut ends = ends_for(alloc, 3)?;
    ends.push_reserved(waiting(alloc, 10)?);
    ends.push_reserved(waiting(alloc, 11)?);
    ends.push_reserved(waiting(alloc, 12)?);
    Ok(ends)
}

/// The ends that come back of claims over these.
fn ends_back(alloc: Global, ends: Vec<Far>, mut out: Vec<Far>) -> Vec<Far>
    requires unused { All IsUnused ends.items }
    requires room { (out.items ≡ []) × (length ends.items ≤ vec_capacity out) }
{
    match Claims::new(alloc, ends) {
        Ok((claims, seat)) => {
            claims.close(seat, &mut out);
            out
        }
        Err((_, ends)) => ends,
    }
}

#[test]
fn ends_come_back_in_order(rt: HostRuntime) -> Result<(), Fail> {
    let out = ends_for(rt.alloc(), 3)?;
    let ends = three_waiting(rt.alloc())?;
    let mut back = ends_back(rt.alloc(), ends, out);
    let (third, second) = (waiting_at(back.pop()), waiting_at(back.pop()));
    let (first, none) = (waiting_at(back.pop()), back.pop().is_none());
    assert_eq!(rt;
        (third, second, first, none),
        (Some(12), Some(11), Some(10), true)
    );
    Ok(())
}
