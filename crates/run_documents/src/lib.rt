//! What a pipeline's document says: the configuration of its device, its stages' actions and its trace, or its first fault.
#![tactic(auto)]

mod action;
mod drafts;
mod judge;
mod pipeline;
mod survey;
mod trace;

pub use action::action_at;
pub use pipeline::{Pipeline, read_pipeline};
