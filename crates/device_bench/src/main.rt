//! The program `device_bench`: events go through a device in one thread, in bursts, and it prints how many went by; or with the word
//! `measure` how long an event takes.
//!
//! With the word `run` and four more the trace of so many events is run by threads through a pipeline of three stages. It prints how
//! long the text is of what the stages accepted, and on standard error how many nanoseconds the threads took; the rest of its time
//! goes into the check and the text of the log. Without words it makes two small runs, too.
#![tactic(auto)]

ghost use Rattle.std.specs.Prelude.{◌≤◌};

mod asked;
mod bench;
mod burst;
mod case;
mod config;
mod count;
mod document;
mod fault;
mod measure;
mod run;
mod timer;
mod trace;

use asked::{Asked, read_run, serving_word, words};
use case::{BURSTS, cases};
use count::{Passed, count};
use document::document;
use evt_types::Serving;
use fault::BenchFault;
use measure::{Times, measure};
use run::text_length;
use std::process::ExitCode;
use std::rt::Env;
use std::sync::Wait;
use std::thread::Threads;
use std::time::{Clock, CpuClock};
use timer::Timer;

/// Prints how many events of each case went by.
fn print_counts<R: AllocGlobal + Print>(rt: &R) -> Result<(), BenchFault> {
    for case in cases() {
        for burst in BURSTS {
            let Passed {
                entered,
                given,
                released,
                inside,
            } = count(rt.alloc(), case, burst)?;
            let name = case.name;
            println!(rt;
                "{name} {burst} entered={entered} given={given} released={released} inside={inside}"
            )?;
        }
    }
    Ok(())
}

/// Prints how many nanoseconds an event of each case takes: of all, of the first and of the last events.
fn print_times<R: AllocGlobal + Print + CpuClock>(rt: &R) -> Result<(), BenchFault> {
    for case in cases() {
        for burst in BURSTS {
            let Times { all, first, last } = measure(rt, rt.alloc(), case, burst)?;
            let name = case.name;
            println!(rt; "{name} {burst} {all} {first} {last}")?;
        }
    }
    Ok(())
}

/// Makes the run that is asked for, and prints its line.
fn print_run<R: AllocGlobal + Clock + Print + Eprint + Threads + Wait + Sync>(
    rt: &R,
    asked: Asked,
) -> Result<(), BenchFault>
    requires { 1 ≤ asked.workers }
{
    let Asked {
        serving,
        workers,
        events,
        burst,
    } = asked;
    let document = document(rt.alloc(), serving)?;
    let timer = Timer::new(rt, events);
    let bytes = text_length(
        rt,
        &timer,
        rt.alloc(),
        document.as_bytes(),
        workers,
        events,
        burst,
    )?;
    let nanoseconds = timer.nanoseconds();
    let _ = eprintln!(rt; "threads={nanoseconds}");
    let serving = serving_word(serving);
    println!(rt; "{serving} workers={workers} events={events} bytes={bytes}")?;
    Ok(())
}

/// Prints what no word asks for: how many events went by, and a small run of each serving.
fn print_all<R: AllocGlobal + Clock + Print + Eprint + Threads + Wait + Sync>(
    rt: &R,
) -> Result<(), BenchFault> {
    print_counts(rt)?;
    for serving in [Serving::Ports, Serving::Flows] {
        let asked = Asked {
            serving,
            workers: 2,
            events: 1000,
            burst: 32,
        };
        print_run(rt, asked)?;
    }
    Ok(())
}

/// Prints what the words ask for.
fn answer<R: AllocGlobal + Clock + CpuClock + Env + Print + Eprint + Threads + Wait + Sync>(
    rt: &R,
) -> Result<(), BenchFault> {
    let words = words(rt)?;
    match words.as_slice() {
        [] => print_all(rt),
        [word] if word.as_str() == "measure" => print_times(rt),
        [word, rest @ ..] if word.as_str() == "run" => print_run(rt, read_run(rest)?),
        _ => Err(BenchFault::Words),
    }
}

fn main(rt: HostRuntime) -> ExitCode {
    match answer(&rt) {
        Ok(()) => ExitCode::from(0),
        Err(fault) => {
            let text = fault.text();
            let _ = eprintln!(rt; "device_bench: {text}");
            ExitCode::from(fault.status())
        }
    }
}
