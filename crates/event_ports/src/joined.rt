//! A port's seats joined into those of the device that stops.

ghost use Rattle.std.specs.Prelude.{◌≡◌, ℕ, ◌+◌, ◌≤◌, [], length, map, count_by, vec_capacity, All};
ghost use Rattle.credit_pool.specs.Accounts.{after_join};
ghost use Rattle.credit_pool.specs.Pool as credits;
ghost use Rattle.evt_types.specs.Operation.{is_new_reply};
ghost use Rattle.lane_rings.specs.Identity.{far_id};
ghost use Rattle.lane_rings.specs.Ends.{received_by, answered, held_list};
ghost use Rattle.flow_claims.specs.Claims.{seating, port_of, IsSeatOf};
ghost use Rattle.flow_claims.specs.Seats.{HoldsNone};
ghost use Rattle.event_ports.specs.declared.lane.Lane.TheVariants as lanes;
ghost use Rattle.credit_pool.specs.Pockets.{IsPocket};
ghost use Rattle.event_ports.specs.Lanes.{held_of, pair_in};
ghost use Rattle.event_ports.specs.Ports.{own_site, account_of, pocket_of, hand, mores_by, news_by, releases_by};
ghost use Rattle.event_ports.specs.Stop.{Joins, IsPortOf, IsPaid, IsCounted, IsJoined, AreLeft};

use crate::port::Port;
use crate::rest::{Left, Rest};
use credit_pool::{CreditSeat, Credits};
use flow_claims::{ClaimSeat, Claims};

/// Takes a port apart, and joins its seats into these. Each flow lane that it holds is surrendered.
pub fn join_port(
    pool: &Credits,
    claims: &Claims,
    credit: CreditSeat,
    claim: ClaimSeat,
    port: Port,
) -> (CreditSeat, ClaimSeat, Rest)
    requires pool { credits.IsSeatOf pool.now credit × ((own_site port).pool ≡ pool.now) }
    requires claims { IsSeatOf claims.now claim × HoldsNone (seating claim) × ((own_site port).lanes.flows.claims ≡ claims.now) }
    ensures credit { credits.IsSeatOf pool.now result.0 × (credits.account result.0 ≡ after_join (credits.account credit) (account_of port)) }
    ensures bit { (credits.account result.0).set_shut ≡ (credits.account credit).set_shut }
    ensures claim { IsSeatOf claims.now result.1 × (port_of result.1 ≡ port_of claim) }
    ensures no_new { (j : ℕ) → count_by is_new_reply ((hand port).said (lanes.Flow j)) ≡ 0 }
    ensures stints { Joins port (seating claim) (seating result.1) }
    ensures own { (far_id result.2.own ≡ (own_site port).lanes.own) × (received_by result.2.own ≡ (hand port).got lanes.Own) × (answered result.2.own ≡ (hand port).said lanes.Own) }
    ensures number { result.2.number ≡ (own_site port).number }
    ensures held { result.2.held.items ≡ (hand port).holding }
    ensures within { length (hand port).holding ≤ (own_site port).lanes.depth }
    ensures counted { IsCounted port }
    ensures ordered { map pair_in (held_of lanes.Own (hand port).holding) ≡ held_list result.2.own }
    ensures paid { (result.2.pocket ≡ pocket_of port) × IsPocket result.2.pocket ((account_of port).drawn + releases_by port) ((account_of port).returned + news_by port + mores_by port) }
{
    let number = port.number();
    let _ = port.held();
    let Left {
        credit: its_credit,
        claim: its_claim,
        own,
        held,
        pocket,
    } = port.into_left();
    let credit = pool.join(credit, its_credit);
    let claim = claims.join(claim, its_claim);
    let rest = Rest {
        number,
        own,
        held,
        pocket,
    };
    (credit, claim, rest)
}

/// Takes all ports apart, and joins their seats into these. What is left of them is added in their order, where room was reserved.
pub fn join_ports(
    pool: &Credits,
    claims: &Claims,
    mut credit: CreditSeat,
    mut claim: ClaimSeat,
    ports: Vec<Port>,
    into: &mut Vec<Rest>,
) -> (CreditSeat, ClaimSeat)
    requires pool { credits.IsSeatOf pool.now credit }
    requires claims { IsSeatOf claims.now claim × HoldsNone (seating claim) }
    requires ports { All (IsPortOf pool.now claims.now) ports.items }
    requires room { (into.old.items ≡ []) × (length ports.items ≤ vec_capacity into.old) }
    ensures joined { IsJoined pool.now claims.now credit claim ports.items result.0 result.1 }
    ensures left { AreLeft ports.items into.new.items }
    ensures counted { All IsCounted ports.items }
    ensures paid { All IsPaid ports.items }
{
    for port in ports {
        let (its_credit, its_claim, rest) = join_port(pool, claims, credit, claim, port);
        credit = its_credit;
        claim = its_claim;
        into.push_reserved(rest);
    }
    (credit, claim)
}
