//! A device for C programs, behind handles that lie in a program's memory: the hub, which is its scheduler with all that is at home, its
//! ports and its control. Their calls take and give words, numbers and arrays of these.
#![tactic(auto)]

mod config;
mod control;
mod counts;
mod draft;
mod errno;
mod event;
mod hub;
mod left;
mod now;
mod port;
mod refusal;
mod report;
mod start;
mod stop;
mod stopped;
mod sweep_counts;

pub use config::{Config, PortConf, QueueConf};
pub use control::ControlHandle;
pub use event::{CEvent, CLeft};
pub use hub::{Hub, to_thread};
pub use port::{PortHandle, Seat};
