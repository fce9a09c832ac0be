//! The credits of a device: one shared word, from which any thread draws and to which it gives back, by single atomic steps.
//!
//! Bit 0 of the word says that the pool is shut, and the higher bits are the free credits.
//! Each thread steps with a seat, whose account says what was drawn and returned through it. Between any two steps of any seats,
//! the free credits and all that was drawn are the limit and all that was returned: the functions that do nothing are the laws of
//! the pool, of each such state and of each step.
#![tactic(auto)]

mod account;
mod answer;
mod laws;
mod pool;
mod rule;

pub use account::Account;
pub use answer::{Draw, Give};
pub use laws::{
    a_split_and_a_join_change_no_sum, a_step_changes_one_account, credits_add_up,
    every_step_keeps_the_rule, parts_add_up, the_bit_has_its_cause,
};
pub use pool::{CreditSeat, Credits};
pub use rule::CreditRule;
