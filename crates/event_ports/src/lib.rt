//! The port of an event device, for both kinds of serving: it enqueues to its own lane and to the flow lanes that it holds, and
//! dequeues from them. No call of a port takes a lock or memory.
#![tactic(auto)]

mod counts;
mod dequeue;
mod desk;
mod fill;
mod flows;
mod held_ring;
mod joined;
mod lane;
mod lanes;
mod parts;
mod port;
mod rest;
mod rows;
mod stop;

pub use counts::PortCounts;
pub use event_answers::{Behind, Refused};
pub use evt_types::Memory;
pub use held_ring::HeldRing;
pub use joined::{join_port, join_ports};
pub use lane::{Holding, Lane};
pub use lane_rings::Deliveries;
pub use parts::Parts;
pub use port::Port;
pub use rest::{Left, Rest};
pub use stop::{flow_lanes_at_stop, ports_at_stop};
