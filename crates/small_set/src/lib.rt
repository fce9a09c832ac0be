//! A set of numbers below 64, as one word: the members of lanes, slots or queues at which something holds. Each call is a few
//! instructions, and a walk over a set visits its members alone.
#![tactic(auto)]

mod set;

pub use set::{MAX_MEMBERS, SmallSet};
