//! What a scheduling core keeps beside its waiting events: which lane holds a slot of an atomic queue, the reorder buffer
//! of an ordered queue, and the events that a lane hasn't answered; and these of all queues and lanes.
#![tactic(auto)]

mod all_orders;
mod all_pins;
mod dealing;
mod handing;
mod histories;
mod history;
mod pins;
mod reorder;
mod round;

pub use all_orders::{AllOrders, all_kept_room};
pub use all_pins::AllPins;
pub use evt_types::Memory;
pub use histories::Histories;
pub use history::{Entry, History};
pub use pins::Pins;
pub use reorder::Reorder;
