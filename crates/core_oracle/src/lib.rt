//! A scheduling core for tests to measure the product's core by. It does what the definitions say in the plainest way: it
//! keeps what waits in each level of a queue, and lists of all that was ever handed out and logged, and finds each answer by going
//! over them. What it is worth lies in being read. Its calls promise nothing but that they end and never panic, so there is no edit
//! that they would refuse.
#![tactic(auto)]

mod choice;
mod fault;
mod offer;
mod reply;
mod skips;
mod state;

pub use fault::PlainFault;
pub use offer::PlainOffer;
pub use reply::PlainTook;
pub use skips::PlainSkips;
pub use state::PlainCore;
