//! What a port keeps: a seat with the stint that it has open, in one struct.
ghost use Rattle.std.specs.Prelude.{◌≡◌, ◌<◌, length};
ghost use Rattle.flow_claims.specs.Claims.{seating, port_of, lanes_of, IsSeatOf};
ghost use Rattle.flow_claims.specs.Open.{IsOpen};

use super::made::{delivery, reply};
use super::made_claims::one_lane;
use evt_types::{Delivery, Op, Reply};
use flow_claims::{Claim, ClaimSeat, Claims, Stint};
use lane_rings::AnswerFault;
use std::test::Fail;

/// A port with one open stint.
#[derive(Drop)]
struct Port {
    seat: ClaimSeat,
    stint: Stint,
    ghost held: { IsOpen (seating seat) stint },
}

impl Port {
    fn receive(&mut self) -> Option<Delivery>
        ensures { self.new.seat ≡ self.old.seat }
    {
        if self.stint.far.is_full() {
            return None;
        }
        self.stint.receive()
    }

    fn answer(&mut self, reply: Reply) -> Result<(), AnswerFault>
        ensures { self.new.seat ≡ self.old.seat }
    {
        self.stint.answer(reply)
    }

    /// Ends the stint: gives the lane back where nothing is unanswered, and else surrenders it.
    fn leave(self, claims: &Claims) -> ClaimSeat
        requires { IsSeatOf claims.now self.seat }
        ensures seat { IsSeatOf claims.now result }
        ensures port { port_of result ≡ port_of self.seat }
    {
        let Port { mut seat, stint } = self;
        if stint.far.held() == 0 {
            claims.give_back(&mut seat, stint);
        } else {
            claims.surrender(&mut seat, stint);
        }
        seat
    }
}

/// A port claims lane 0, receives what waits there, releases it and gives the lane back.
fn serve_once(claims: &Claims, mut seat: ClaimSeat) -> (ClaimSeat, Option<Delivery>)
    requires seat { IsSeatOf claims.now seat × (port_of seat < 254) }
    requires lane { 0 < length (lanes_of claims.now) }
    ensures { IsSeatOf claims.now result.0 × (port_of result.0 ≡ port_of seat) }
{
    let Claim::Held(stint) = claims.claim(&mut seat, 0) else {
        return (seat, None);
    };
    let mut port = Port { seat, stint };
    let came = port.receive();
    let answered = port.answer(reply(Op::Release, 0));
    let seat = port.leave(claims);
    if answered == Ok(()) {
        (seat, came)
    } else {
        (seat, None)
    }
}

/// The number of the stint that lane 0 has next, and how much is held in it.
fn next_stint(claims: &Claims, mut seat: ClaimSeat) -> Option<(u64, usize)>
    requires seat { IsSeatOf claims.now seat × (port_of seat < 254) }
    requires lane { 0 < length (lanes_of claims.now) }
{
    match claims.claim(&mut seat, 0) {
        Claim::Held(stint) => Some((stint.number, stint.far.held())),
        Claim::WornOut
        | Claim::Busy { seen: _ }
        | Claim::Raced {
            first: _,
            second: _,
        } => None,
    }
}

#[test]
fn a_port_keeps_its_stint(rt: HostRuntime) -> Result<(), Fail> {
    let (mut near, claims, seat) = one_lane(rt.alloc())?;
    let offered = near.offer(delivery(5));
    let (_seat, seat) = claims.split(seat, 3).unwrap();
    let (seat, came) = serve_once(&claims, seat);
    assert_eq!(rt; (offered, came), (Ok(()), Some(delivery(5))));
    assert_eq!(rt;
        (near.take(), next_stint(&claims, seat)),
        (Some(reply(Op::Release, 0)), Some((1, 0)))
    );
    Ok(())
}
