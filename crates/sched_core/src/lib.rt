//! The scheduling core: which events wait, which are out, what is taken from the lanes and what is given to them. Each
//! call appends the steps that it makes to a log, and the transcript that they form stays lawful.
#![tactic(auto)]

mod answer;
mod deal;
mod gift_row;
mod give;
mod inside;
mod lanes;
mod new;
mod offer;
mod open_slots;
mod propose;
mod queues;
mod row;
mod run;
mod settle;
mod shut;
mod skips;
mod slot_lanes;
mod state;
mod take;
mod turn;

pub use evt_types::Memory;
pub use offer::Offer;
pub use run::MAX_RUN;
pub use skips::Skips;
pub use state::Core;
pub use take::Took;
pub use turn::Turn;
