//! Where the steps of a scheduler go: a vector that keeps them all, or a count of them. What is promised of a device speaks of all
//! its steps, whichever log it has.
#![tactic(auto)]

mod counted;
mod log;
mod unkept;

pub use counted::{Counted, MAX_STEPS};
pub use evt_types::Memory;
pub use log::StepLog;
