//! What a scheduler is made of.

use credit_pool::{CreditSeat, Credits};
use lane_rings::Near;
use sched_core::Core;
use std::alloc::Global;
use std::sync::Arc;

/// What a scheduler leaves when it ends: its core, the ends of its lanes, its seat of the pool, and the credits in its pocket.
#[derive(Drop)]
pub struct Parts {
    pub pool: Arc<Credits, Global>,
    pub seat: CreditSeat,
    pub core: Core,
    pub lanes: Vec<Near>,
    pub pocket: u64,
}
