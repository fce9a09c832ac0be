//! What is left of a port that was taken apart.

ghost use Rattle.std.specs.Prelude.{◌≡◌, []};

use crate::held_ring::HeldRing;
use credit_pool::CreditSeat;
use flow_claims::ClaimSeat;
use lane_rings::Far;

/// What is left of a port once all its flow lanes were surrendered.
#[derive(Drop)]
pub struct Left {
    pub credit: CreditSeat,
    pub claim: ClaimSeat,
    /// The end of the own lane.
    pub own: Far,
    /// What is held, in the order of the dequeues.
    pub held: HeldRing,
    pub pocket: u64,
}

/// What is left of a port whose seats were joined to others.
#[derive(Drop)]
pub struct Rest {
    /// The port's number.
    pub number: usize,
    /// The end of the own lane.
    pub own: Far,
    /// What is held, in the order of the dequeues.
    pub held: HeldRing,
    pub pocket: u64,
}
