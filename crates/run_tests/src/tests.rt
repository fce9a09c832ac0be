//! The tests, a file for each subject, and what they have in common.

mod cuts;
mod documents;
mod faults;
mod gates;
mod logs;
mod pipelines;
mod streams;
