//! What the parts of a device share, and their seats of it.

ghost use Rattle.std.specs.Prelude.{◌≡◌, ◌-◌, ◌^◌, ◌<◌, ◌≤◌, IfOk, All};
ghost use Rattle.std.specs.Arc.{arc_value};
ghost use Rattle.credit_pool.specs.Pool.{limit_of};
ghost use Rattle.flow_claims.specs.Claims.{lanes_of, port_of};
ghost use Rattle.flow_claims.specs.Laws.{IsUnused};
ghost use Rattle.event_device.specs.Seats.{AreSeats, claim_parts, credit_parts};

use crate::fault::Want;
use credit_pool::{CreditSeat, Credits};
use flow_claims::{ClaimSeat, Claims};
use lane_rings::{Far, Hints};
use std::alloc::{AllocError, Global};
use std::sync::Arc;
use step_log::Memory;

/// The credits of a device, and the claims and the hints of its flow lanes.
#[derive(Drop)]
pub(crate) struct Shared {
    pub(crate) pool: Arc<Credits, Global>,
    pub(crate) claims: Arc<Claims, Global>,
    pub(crate) hints: Arc<Hints, Global>,
}

/// A seat of each.
#[derive(Drop)]
pub(crate) struct Seats {
    pub(crate) credit: CreditSeat,
    pub(crate) claim: ClaimSeat,
}

impl Shared {
    /// So many credits, all free, the claims of these lanes, hints that nothing is in them, and the first seats, which have all
    /// parts. The scheduler has so many lanes before the flow lanes.
    pub(crate) fn new(
        alloc: Global,
        limit: u64,
        before: usize,
        ends: Vec<Far>,
    ) -> Result<(Shared, Seats), Memory>
        requires limit { limit ≤ 2 ^ 32 }
        requires ends { All IsUnused ends.items }
        ensures pool { IfOk result (λ r. limit_of (arc_value r.0.pool) ≡ limit) }
        ensures claims { IfOk result (λ r. lanes_of (arc_value r.0.claims) ≡ ends.items) }
        ensures seats { IfOk result (λ r. AreSeats r.0 r.1 64 64) }
    {
        let (pool, credit) = Credits::new(alloc, limit)?;
        let Ok((claims, claim)) = Claims::new(alloc, ends) else {
            return Err(AllocError);
        };
        let pool = Arc::new(alloc, pool)?;
        let claims = Arc::new(alloc, claims)?;
        let hints = Arc::new(alloc, Hints::new(before))?;
        let shared = Shared {
            pool,
            claims,
            hints,
        };
        Ok((shared, Seats { credit, claim }))
    }

    /// Gives one part of each seat to seats for the port of this number: they are the second.
    pub(crate) fn split(&self, seats: Seats, port: usize) -> Result<(Seats, Seats), Want>
        requires seats { AreSeats self.now seats (credit_parts seats.credit) (claim_parts seats.claim) }
        requires parts { (1 < credit_parts seats.credit) × (1 < claim_parts seats.claim) }
        requires port { port < 254 }
        ensures rest { IfOk result (λ r. AreSeats self.now r.0 (credit_parts seats.credit - 1) (claim_parts seats.claim - 1)) }
        ensures part { IfOk result (λ r. AreSeats self.now r.1 1 1) }
        ensures port { IfOk result (λ r. port_of r.1.claim ≡ port) }
    {
        let Seats { credit, claim } = seats;
        let Ok((credit, own_credit)) = self.pool.split(credit) else {
            return Err(Want::Seat);
        };
        let Ok((claim, own_claim)) = self.claims.split(claim, port) else {
            return Err(Want::Seat);
        };
        let own = Seats {
            credit: own_credit,
            claim: own_claim,
        };
        Ok((Seats { credit, claim }, own))
    }
}
