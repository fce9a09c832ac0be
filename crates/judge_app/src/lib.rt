//! The work of `evsched judge`, by the configuration of a document: the log that `play` printed is judged, or a history, what an
//! application saw of an event device.
#![tactic(auto)]

mod breaches;
mod entries;
mod fault;
mod forwards;
mod gifts;
mod judged;
mod orders;
mod reason;
mod reason_words;
mod reasons;
mod scans;
mod sets;
mod steps;
mod words;

pub use fault::JudgeFault;
pub use judged::{Finding, Judged, judge_text, status_of};
