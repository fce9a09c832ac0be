//! What is counted of a run beside its text: by queue how many events came, were given and waited at most, by a log that counts them,
//! and by port how many it enqueued, dequeued and was refused; and the text of it, and the same as JSON.
#![tactic(auto)]

mod counted;
mod json;
mod looks;
mod text;
mod waits;

pub use counted::counts_of;
pub use json::write_counts_json;
pub use looks::{Looks, PortWork, ThreadWork};
pub use text::{Counts, QueueWork, write_counts};
pub use waits::Waits;
