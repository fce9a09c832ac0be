//! What the scheduler, its ports and its rings speak of: events and their words, replies, the steps of a transcript, and the
//! configuration of a device, as it is asked for and checked.
#![tactic(auto)]

mod check;
mod code;
mod draft;
mod event;
mod flows;
mod numbers;
mod packed;
mod shape;
mod step;
mod word;

pub use draft::{Draft, PortDraft, QueueDraft, Serving};
pub use event::{
    Delivery, Event, EventFault, KeptEvent, Kind, MAX_EVENT_TYPES, MAX_EXTRAS, MAX_FLOWS,
    MAX_FORWARDS, Numbered, Op, Reply,
};
pub use flows::{FLOW_DEPTH, FlowLane};
pub use numbers::limits_are_numbers;
pub use packed::PackedEvent;
pub use shape::{
    MAX_ALL_REPLIES, MAX_ALL_SLOTS, MAX_BOUND, MAX_DEPTH, MAX_LANES, MAX_LIMIT, MAX_ORDER,
    MAX_PORTS, MAX_QUEUES, MAX_SLOTS, MAX_SWEEP, Shape, ShapeFault,
};
pub use step::{Outcome, Source, Step};
pub use word::WordFault;

/// Want of memory.
pub type Memory = std::alloc::AllocError;
