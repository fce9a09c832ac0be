//! Tests of the event device over what it makes public: want of memory, a stop that is refused, and runs of several threads.
#![tactic(auto)]

#[cfg(test)]
mod tests;
