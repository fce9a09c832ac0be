//! The tests, a file for each subject, and what they have in common.

mod calls;
mod credits;
mod lane_threads;
mod lanes;
mod left;
mod made;
mod made_claims;
mod memory;
mod port;
mod refusals;
mod rows;
mod turns;
