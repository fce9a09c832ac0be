//! Tests of the judge of transcripts.
#![tactic(auto)]

#[cfg(test)]
mod verdicts;
