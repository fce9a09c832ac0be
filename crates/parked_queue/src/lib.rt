//! What waits in queues, so that the oldest event of a level whose slot is allowed is found in constant time, whatever waits
//! before it: an event whose slot isn't allowed is set aside once, into a list of its slot's own. All lists stand in one store of
//! nodes, which are all there from the start, and an event comes or goes in constant time.
#![tactic(auto)]

mod chain;
mod counts;
mod first;
mod heads;
mod level;
mod parking;
mod queues;
mod row;
mod slot;
mod waiting;

pub use first::Found;
pub use level::{Level, Levels};
pub use queues::ParkedQueues;
pub use slot::QueueSlots;
pub use waiting::WaitingLists;
