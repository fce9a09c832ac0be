//! An event device: a scheduler, which sweeps, its ports, each for one thread, and its control, which shuts it. This is the crate
//! that a program names.
#![tactic(auto)]

mod apart;
mod books;
mod control;
mod fault;
mod halt;
mod held;
mod lanes;
mod lend;
mod list_events;
mod list_lanes;
mod port_order;
mod ports;
mod recorder;
mod room;
mod running;
mod shared;
mod start;
mod stop;
mod worker;

pub use control::Control;
pub use event_answers::{Held, Report, StopFault, Swept, Turned, Undelivered, Untaken};
pub use event_ports::{Behind, Deliveries, Holding, Lane, Port, PortCounts, Refused};
pub use event_scheduler::Scheduler;
pub use fault::{DeviceFault, NotStopped};
pub use recorder::Recorder;
pub use running::Device;
pub use start::device;
pub use step_log::{Counted, Memory, StepLog};
pub use step_tally::{LaneCounts, QueueCounts, Tail, Tally};
pub use worker::ComesBack;
