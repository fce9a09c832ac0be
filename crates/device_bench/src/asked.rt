//! The words of the command line, and the run that they ask for.

ghost use Rattle.std.specs.Prelude.{◌≡◌, ◌≤◌, true, IfOk, IfErr, IfSome};
ghost use Rattle.device_bench.specs.Fault.{is_of_words};

use crate::fault::BenchFault;
use evt_types::Serving;
use std::env;
use std::rt::Env;

/// The most workers.
pub const MAX_WORKERS: u64 = 8;
/// The most events.
pub const MAX_EVENTS: u64 = 1_000_000;
/// The most events that a worker dequeues at once.
const MAX_BURST: u64 = 64;

/// What a run is asked for.
#[derive(Clone, Copy)]
pub struct Asked {
    /// Who hands the events of the atomic stage out.
    pub serving: Serving,
    /// How many workers there are.
    pub workers: u64,
    /// How many events the trace has.
    pub events: u64,
    /// How many events a worker dequeues at once, at most.
    pub burst: u64,
}

/// The word of a serving.
pub fn serving_word(serving: Serving) -> &'static str {
    match serving {
        Serving::Ports => "ports",
        Serving::Flows => "flows",
    }
}

/// The serving of a word.
fn serving_of(word: &str) -> Option<Serving> {
    if word == serving_word(Serving::Ports) {
        Some(Serving::Ports)
    } else if word == serving_word(Serving::Flows) {
        Some(Serving::Flows)
    } else {
        None
    }
}

/// A number of `least..=most`.
fn within(least: u64, most: u64, word: &str) -> Option<u64>
    ensures { IfSome result (λ n. (least ≤ n) × (n ≤ most)) }
{
    match word.parse::<u64>() {
        Ok(number) if least <= number && number <= most => Some(number),
        _ => None,
    }
}

/// What the words after `run` ask for.
pub fn read_run(words: &[String]) -> Result<Asked, BenchFault>
    ensures workers { IfOk result (λ a. (1 ≤ a.workers) × (a.workers ≤ MAX_WORKERS)) }
    ensures events { IfOk result (λ a. a.events ≤ MAX_EVENTS) }
    ensures burst { IfOk result (λ a. (1 ≤ a.burst) × (a.burst ≤ MAX_BURST)) }
    ensures fault { IfErr result (λ e. is_of_words e ≡ true) }
{
    let [serving, workers, events, burst] = words else {
        return Err(BenchFault::WordCount);
    };
    let serving = serving_of(serving).ok_or(BenchFault::Serving)?;
    let workers = within(1, MAX_WORKERS, workers).ok_or(BenchFault::Workers)?;
    let events = within(0, MAX_EVENTS, events).ok_or(BenchFault::Events)?;
    let burst = within(1, MAX_BURST, burst).ok_or(BenchFault::Burst)?;
    Ok(Asked {
        serving,
        workers,
        events,
        burst,
    })
}

/// The words of the command line after the program's name.
pub fn words<R: AllocGlobal + Env>(rt: &R) -> Result<Vec<String>, BenchFault> {
    let args = env::args(rt).map_err(|_| BenchFault::Words)?;
    let words: Vec<String> = args.skip(1).collect(rt.alloc())?;
    Ok(words)
}
