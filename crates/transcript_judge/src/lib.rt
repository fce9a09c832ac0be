//! A judge of transcripts: it reads the steps of any device, one after the other, and tells whether they are lawful, or which step
//! first broke which promise. What it tells is what the definitions say, whatever the device.
#![tactic(auto)]

mod by_number;
mod formed;
mod judging;
mod keys;
mod laws;
mod ledger;
mod nested;
mod reading;
mod rows;
mod scans;
mod spot;
mod verdict;
mod waiting;

pub use judging::judge;
pub use laws::{broken_clauses_stay_broken, fronts_are_closed, verdicts_are_one};
pub use rows::{broken_rows, unbroken_rows};
pub use verdict::{Clause, Verdict};
