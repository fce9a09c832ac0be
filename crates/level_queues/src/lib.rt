//! The waiting events of a queue, in four lists, one for each level.
#![tactic(auto)]

mod levels;
mod list;

pub use evt_types::Memory;
pub use levels::Levels;
