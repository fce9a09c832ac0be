//! Tests of the parts that a scheduling core is made of, over what they make public: events and configurations, the lists of
//! waiting events, and pins, reorder buffers and histories; of logs that count and that keep the last steps; and of a core that is
//! made again where memory was refused.
#![tactic(auto)]

#[cfg(test)]
mod tests;
