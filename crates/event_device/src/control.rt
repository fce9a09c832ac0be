//! The control of a device.

ghost use Rattle.std.specs.Prelude.{◌≡◌, []};
ghost use Rattle.std.specs.Arc.{arc_value};
ghost use Rattle.credit_pool.specs.Pool as credits;
ghost use Rattle.flow_claims.specs.Claims.{IsSeatOf, seating};
ghost use Rattle.flow_claims.specs.Seats.{HoldsNone};

use credit_pool::{CreditSeat, Credits};
use flow_claims::{ClaimSeat, Claims};
use std::alloc::Global;
use std::sync::Arc;

/// The control of a device: it shuts the device, and alone does so. It keeps what the ports and the scheduler didn't get of the credits
/// and of the claims.
#[derive(Drop)]
pub struct Control {
    pub(crate) pool: Arc<Credits, Global>,
    pub(crate) claims: Arc<Claims, Global>,
    pub(crate) credit: CreditSeat,
    pub(crate) claim: ClaimSeat,
    pub ghost credit_of: { credits.IsSeatOf (arc_value pool) credit },
    pub ghost claim_of: { IsSeatOf (arc_value claims) claim },
    pub ghost unused: { ((credits.account credit).drawn ≡ 0) × ((credits.account credit).returned ≡ 0) },
    pub ghost no_stint: { HoldsNone (seating claim) × ((seating claim).finished ≡ []) },
}

impl Control {
    ghost use Rattle.std.specs.Prelude.{◌≡◌, true};
    ghost use Rattle.event_device.specs.Control.{control_of, was_shut};

    /// The control with these seats, which drew, returned and claimed nothing.
    pub fn new(
        pool: Arc<Credits, Global>,
        claims: Arc<Claims, Global>,
        credit: CreditSeat,
        claim: ClaimSeat,
    ) -> Control
        requires credit { credits.IsSeatOf (arc_value pool) credit }
        requires claim { IsSeatOf (arc_value claims) claim }
        requires unused { ((credits.account credit).drawn ≡ 0) × ((credits.account credit).returned ≡ 0) }
        requires no_stint { HoldsNone (seating claim) × ((seating claim).finished ≡ []) }
        ensures site { control_of result ≡ record { pool = arc_value pool; claims = arc_value claims; credit_parts = (credits.account credit).parts; claim_parts = (seating claim).parts } }
        ensures shut { was_shut result ≡ (credits.account credit).set_shut }
    {
        Control {
            pool,
            claims,
            credit,
            claim,
        }
    }

    /// Shuts the device: no port may bring a new event in from now on, and the scheduler turns away those that came and weren't taken.
    pub fn shut(&mut self)
        ensures site { control_of self.new ≡ control_of self.old }
        ensures shut { was_shut self.new ≡ true }
    {
        self.pool.shut(&mut self.credit);
    }
}
