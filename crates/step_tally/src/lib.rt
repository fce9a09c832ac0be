//! Logs of a scheduler that say more than how many steps there were: a tally, which counts them by queue and by lane, and a tail,
//! which keeps the last ones. What they say is of all steps, whether these are kept or not.
#![tactic(auto)]

mod counts;
mod gives;
mod laws;
mod rows;
mod tables;
mod tail;
mod tally;

pub use counts::{LaneCounts, QueueCounts};
pub use laws::{
    accepted_are_given_or_wait, accepted_are_new_or_forwarded, answers_are_released_or_forwarded,
    given_are_answered_or_unanswered, given_are_given_to_lanes,
};
pub use tail::Tail;
pub use tally::Tally;
