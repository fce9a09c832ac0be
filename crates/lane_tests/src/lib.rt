//! Tests of the crates that threads share, over what they make public: the calls in one thread, what a port keeps of its claims, refused
//! memory, and what only a run of several threads can show.
#![tactic(auto)]

#[cfg(test)]
mod tests;
