//! The law of the running world: what holds at every moment of every run, whatever the threads do, and that what is found at the
//! end came about by such a run. Definitions, in `specs`, and the laws, each the contract of a function that does nothing.
#![tactic(auto)]

mod laws;

pub use laws::{
    account_at_stop, each_event_is_in_one_place, every_run_keeps, hands_at_stop, stop_is_a_run,
};
