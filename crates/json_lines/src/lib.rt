//! A played script as JSON, one object a line: what its calls answered, the transcript, and what is left in the device.
#![tactic(auto)]

mod answers;
mod lines;
mod log;
mod objects;
mod report;

pub use lines::json_of;
