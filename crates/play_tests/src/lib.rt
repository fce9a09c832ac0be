//! Tests of the program's work that no file shows: documents are played over readers and writers in memory, and calls are made
//! directly. The documents with whole texts, and the faulty ones, are files, which the program `example_runs` plays. What is public the
//! tests of pipelines use too.
#![tactic(auto)]

pub mod cuts;
pub mod failing;
pub mod slow;
#[cfg(test)]
mod tests;
