//! The picture of a log in SVG: what each step did, as a mark in the rows of the queues and lanes.
#![tactic(auto)]

mod head;
mod layout;
mod links;
mod marks;
mod picture;
mod signs;
mod titles;

pub use picture::{are_placed, marks_name_each_step, timeline};
