//! A history, as `history_judge` judges one, read from its text: a line of JSON for each entry.
#![tactic(auto)]

mod entry;
mod event;
mod fault;
mod field;
mod number;
mod reading;

pub use fault::{Cause, Key, ReadFault};
pub use reading::read_history;
