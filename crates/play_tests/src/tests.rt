//! The tests, a file for each subject, and what they have in common.

mod causes;
mod cuts;
mod documents;
mod faults;
mod lengths;
mod misuse;
mod streams;
mod words;
