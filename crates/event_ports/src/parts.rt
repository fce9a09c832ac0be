//! How a port is made of its parts, and taken apart again.

ghost use Rattle.std.specs.Prelude.{◌≡◌, ℕ, ◌+◌, ◌<◌, ◌≤◌, [], false, length, map, count_by, All, IfOk, IfErr};
ghost use Rattle.std.specs.Arc.{arc_value};
ghost use Rattle.credit_pool.specs.Pool as credits;
ghost use Rattle.evt_types.specs.Operation.{is_new_reply};
ghost use Rattle.lane_rings.specs.Identity.{far_id};
ghost use Rattle.lane_rings.specs.Ends.{received_by, answered, held_list};
ghost use Rattle.flow_claims.specs.Claims.{seating, port_of, lanes_of, IsSeatOf};
ghost use Rattle.flow_claims.specs.Laws.{IsUnused};
ghost use Rattle.flow_claims.specs.Seats.{HoldsNone};
ghost use Rattle.event_ports.specs.declared.lane.Lane.TheVariants as lanes;
ghost use Rattle.event_ports.specs.Holds.{AreLinked};
ghost use Rattle.event_ports.specs.Lanes.{IsEmptyHand, IsEndOf, held_of, pair_in};
ghost use Rattle.credit_pool.specs.Pockets.{IsPocket};
ghost use Rattle.event_ports.specs.Ports.{own_site, account_of, counts_of, pocket_of, hand, links, mores_by, news_by, releases_by};
ghost use Rattle.event_ports.specs.Stop.{IsCounted};
ghost use Rattle.event_ports.specs.Counts.{no_counts};
ghost use Rattle.event_ports.specs.Parts.{FitTogether, AreFresh, own_site_by};

use crate::counts::PortCounts;
use crate::desk::Desk;
use crate::flows::{FlowLanes, free_entries};
use crate::held_ring::HeldRing;
use crate::lanes::Lanes;
use crate::port::Port;
use crate::rest::Left;
use credit_pool::{CreditSeat, Credits};
use evt_types::Memory;
use flow_claims::{ClaimSeat, Claims};
use lane_rings::{Far, Hints};
use std::alloc::{AllocError, Global};
use std::sync::Arc;

/// What a port is made of.
#[derive(Drop)]
pub struct Parts {
    /// The credits of the device, and a seat for the port.
    pub pool: Arc<Credits, Global>,
    pub credit: CreditSeat,
    /// The flow lanes of the device, a seat for the port, and the lanes to which the port is linked, by rising number.
    pub claims: Arc<Claims, Global>,
    pub claim: ClaimSeat,
    pub flows: usize,
    pub links: Vec<usize>,
    /// The hints of the flow lanes, which the scheduler and the ports share.
    pub hints: Arc<Hints, Global>,
    /// The end of the port's own lane, and how many deliveries may be held.
    pub own: Far,
    pub depth: usize,
    /// The port's number, and how many queues the device has.
    pub number: usize,
    pub queues: usize,
    /// Whether a dequeue first releases what is held.
    pub implicit: bool,
    /// How many credits are drawn at a time, and up to how many may be in use then.
    pub quantum: u64,
    pub threshold: u64,
}

impl Port {
    /// A port with nothing in its pocket, that holds nothing and counted nothing. After want of memory the parts come back.
    pub fn new(alloc: Global, parts: Parts) -> Result<Port, (Memory, Parts)>
        requires fit { FitTogether parts }
        requires fresh { AreFresh parts }
        ensures site { IfOk result (λ p. own_site p ≡ own_site_by parts) }
        ensures credit { IfOk result (λ p. account_of p ≡ credits.account parts.credit) }
        ensures empty { IfOk result (λ p. IsEmptyHand (hand p) × (pocket_of p ≡ 0)) }
        ensures counts { IfOk result (λ p. counts_of p ≡ no_counts) }
        ensures back { IfErr result (λ e. e.1 ≡ parts) }
    {
        let Ok(stints) = free_entries(alloc, parts.flows) else {
            return Err((AllocError, parts));
        };
        let Ok(order) = HeldRing::new(alloc, parts.depth, !parts.links.is_empty()) else {
            return Err((AllocError, parts));
        };
        let Parts {
            pool,
            credit,
            claims,
            claim,
            flows: _,
            links,
            hints,
            own,
            depth: _,
            number,
            queues,
            implicit,
            quantum,
            threshold,
        } = parts;
        let flows = FlowLanes::new(claims, claim, stints, links, hints);
        let lanes = Lanes::new(own, flows, order);
        let desk = Desk {
            pool,
            seat: credit,
            lanes,
            number,
            queues,
            implicit,
            quantum,
            threshold,
            pocket: 0,
        };
        let counts = PortCounts::default();
        Ok(Port { desk, counts })
    }

    /// Takes the port apart. Each flow lane that it holds is surrendered: no claim gets it any more.
    pub fn into_left(self) -> Left
        ensures credit { (credits.account result.credit ≡ account_of self) × credits.IsSeatOf (own_site self).pool result.credit }
        ensures unset { (credits.account result.credit).set_shut ≡ false }
        ensures claim { IsSeatOf (own_site self).lanes.flows.claims result.claim × (port_of result.claim ≡ (own_site self).number) }
        ensures parts { (seating result.claim).parts ≡ (own_site self).lanes.flows.parts }
        ensures none_open { HoldsNone (seating result.claim) }
        ensures own { (far_id result.own ≡ (own_site self).lanes.own) × (received_by result.own ≡ (hand self).got lanes.Own) × (answered result.own ≡ (hand self).said lanes.Own) }
        ensures lists { IsEndOf (hand self) (seating result.claim).finished }
        ensures no_new { (j : ℕ) → count_by is_new_reply ((hand self).said (lanes.Flow j)) ≡ 0 }
        ensures linked { AreLinked (own_site self).number (links self) (seating result.claim).finished }
        ensures held { result.held.items ≡ (hand self).holding }
        ensures counted { IsCounted self }
        ensures ordered { map pair_in (held_of lanes.Own (hand self).holding) ≡ held_list result.own }
        ensures paid { (result.pocket ≡ pocket_of self) × IsPocket result.pocket ((account_of self).drawn + releases_by self) ((account_of self).returned + news_by self + mores_by self) }
    {
        let Port { desk, counts: _ } = self;
        let Desk {
            seat,
            lanes,
            pocket,
            ..
        } = desk;
        let (own, claim, held) = lanes.into_parts();
        Left {
            credit: seat,
            claim,
            own,
            held,
            pocket,
        }
    }
}
