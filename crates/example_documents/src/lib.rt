//! The example documents, as the program prints them.
#![tactic(auto)]

mod flows;
mod pipelines;
mod stages;

use flows::{BACKPRESSURE, FIRST_EVENT, ONE_FLOW_TWO_PORTS, OVERTAKING, TWO_FLOWS};
use pipelines::{DROPPING_STAGES, THREE_STAGES};
use stages::{ORDERED_RELEASE, ORDERED_STAGE, SEVERAL_FORWARDS, TRANSMIT, TWO_STAGES};

/// The names of the examples, and the command that takes each.
pub const EXAMPLES: [(&str, &str); 12] = [
    ("first-event", "play"),
    ("two-flows", "play"),
    ("one-flow-two-ports", "play"),
    ("overtaking", "play"),
    ("backpressure", "play"),
    ("two-stages", "play"),
    ("ordered-stage", "play"),
    ("ordered-release", "play"),
    ("transmit", "play"),
    ("several-forwards", "play"),
    ("three-stages", "run"),
    ("dropping-stages", "run"),
];

/// The example of this name.
pub fn example(name: &str) -> Option<&'static str> {
    match name {
        "first-event" => Some(FIRST_EVENT),
        "two-flows" => Some(TWO_FLOWS),
        "one-flow-two-ports" => Some(ONE_FLOW_TWO_PORTS),
        "overtaking" => Some(OVERTAKING),
        "backpressure" => Some(BACKPRESSURE),
        "two-stages" => Some(TWO_STAGES),
        "ordered-stage" => Some(ORDERED_STAGE),
        "ordered-release" => Some(ORDERED_RELEASE),
        "transmit" => Some(TRANSMIT),
        "several-forwards" => Some(SEVERAL_FORWARDS),
        "three-stages" => Some(THREE_STAGES),
        "dropping-stages" => Some(DROPPING_STAGES),
        _ => None,
    }
}
