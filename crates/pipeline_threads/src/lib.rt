//! A pipeline on a device: a producer that brings a trace in, workers that carry out the stages' actions, each in a thread of its
//! own, and the scheduler in the caller's.
#![tactic(auto)]

mod fault;
mod gate;
mod patience;
mod producer;
mod promise;
mod run;
mod submit;
mod sweeps;
mod threads;
mod worker;

pub use fault::RunFault;
pub use gate::{Gate, OpenGate, Phase};
pub use run::{run_counted, run_pipeline};
pub use run_counts::{Looks, PortWork, ThreadWork};
