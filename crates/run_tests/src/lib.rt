//! Tests of the running of pipelines that no file shows: documents are run by threads over readers and writers in memory, workers
//! meet at a gate, a small log is checked, and calls are made directly. The documents with whole texts, and the faulty ones, are
//! files, which the program `example_runs` runs.
#![tactic(auto)]

#[cfg(test)]
mod tests;
