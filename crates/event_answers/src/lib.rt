//! What the calls of an event device answer: refusals, counts, and the report of a device that was stopped.
#![tactic(auto)]

mod answer;
mod report;

pub use answer::{Behind, Refused, StopFault, Swept};
pub use report::{Held, Report, Turned, Undelivered, Untaken};
