//! The program `core_bench`: the scheduling core hands out and takes back bursts of events while its workers hold so many unanswered
//! ones, so many wait, and so many are blocked.
#![tactic(auto)]

mod asked;
mod busy;
mod device;
mod fault;
mod rounds;
mod run;

use asked::{read_words, words};
use fault::BenchFault;
use rounds::inside_after;
use std::process::ExitCode;
use std::rt::Env;

/// Makes the rounds that the words ask for, and prints what is inside after them.
fn print_rounds<R: AllocGlobal + Env + Print>(rt: &R) -> Result<(), BenchFault> {
    let words = words(rt)?;
    let asked = read_words(&words)?;
    let inside = inside_after(rt.alloc(), asked)?;
    match println!(rt;
        "held={} flows={} waiting={} blocked={} queues={} busy={} ports={} burst={} rounds={} inside={inside}",
        asked.held,
        asked.flows,
        asked.waiting,
        asked.blocked,
        asked.queues,
        asked.busy,
        asked.ports,
        asked.burst,
        asked.rounds
    ) {
        Ok(()) => Ok(()),
        Err(_) => Err(BenchFault::Write),
    }
}

fn main(rt: HostRuntime) -> ExitCode {
    match print_rounds(&rt) {
        Ok(()) => ExitCode::from(0),
        Err(fault) => {
            let text = fault.text();
            let _ = eprintln!(rt; "core_bench: {text}");
            ExitCode::from(fault.status())
        }
    }
}
