//! Where a document is at fault and why, in words for the person who wrote it. The fault is the first one of the document, which
//! `play` and `run` name too.
#![tactic(auto)]

mod bad;
mod confirmed;
mod explanation;
mod key_marks;
mod keys;
mod lines;
mod missing;
mod near;
mod parts;
mod places;
mod script;
mod shape;
mod stages;
mod tables;
mod toml_text;
mod unknown;

pub use explanation::{Explanation, explain, explain_play, explain_run, is_pipeline, too_long};
pub use places::{Place, TableName};
