//! Judges what an application sees of any event device: for each port its enqueues and dequeues, an entry for each event, with the
//! times before and after the call. What it calls broken is broken in every run of a device that fits what was seen.
#![tactic(auto)]

mod answers;
mod arrivals;
mod breach;
mod crowds;
mod depths;
mod early;
mod entries;
mod fault;
mod holds;
mod judging;
mod laws;
mod order;
mod seen;
mod times;
mod undecided;
mod values;
mod watch;

pub use breach::Breach;
pub use fault::HistoryFault;
pub use judging::judge_history;
pub use laws::breaches_are_impossible;
pub use seen::{Deed, Seen};
pub use undecided::{Undecided, count_undecided};
