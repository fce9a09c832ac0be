//! The log that `play` prints, read back: the steps of which a text is the log.
#![tactic(auto)]

mod begin;
mod fault;
mod line;
mod reading;
mod steps;
mod words;

pub use fault::LogFault;
pub use reading::{Log, read_log};
