//! What a transcript of a scheduler says, when it is lawful, what a scheduling core holds of it and may do next: definitions,
//! in `specs`, and the laws that follow from them, each the contract of a function that does nothing.
#![tactic(auto)]

mod laws;

pub use laws::{
    a_sweep_fits, a_view_tells, entries_are_few, flow_lanes_stand_alone, hand_order_is_restored,
    inside_settles, lawful_by_steps, sources_are_few, sources_once, steps_of_a_reply,
    steps_of_a_reply_are_few, steps_of_lawful,
};
