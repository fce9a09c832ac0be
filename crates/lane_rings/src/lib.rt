//! The lane between the scheduler and one holder: a ring of deliveries one way and a ring of replies the other.
//! Each end may move to a thread of its own.
#![tactic(auto)]

mod deliveries;
mod far;
mod gathering;
mod held_pairs;
mod hints;
mod intake;
mod near;
mod outlet;
mod pair;
mod rests;

pub use deliveries::Deliveries;
pub use evt_types::Memory;
pub use far::{AnswerFault, Far, Refusal};
pub use hints::{Hints, LaneSet};
pub use near::Near;
pub use pair::{beside, lane};
pub use rests::Beside;
