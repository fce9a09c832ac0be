//! The scheduler of a device: it looks at the credit word, takes the replies of the lanes and gives the lanes what waits. One sweep
//! goes once over all of that, and appends its steps to a log.
#![tactic(auto)]

mod deal;
mod give;
mod laws;
mod look;
mod parts;
mod scheduler;
mod seek;
mod sweep;
mod take;

pub use event_answers::Swept;
pub use evt_types::Memory;
pub use laws::a_full_ring_ends_a_lane;
pub use parts::Parts;
pub use scheduler::Scheduler;
