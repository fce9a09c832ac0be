//! What the words of the command line ask for.

ghost use Rattle.std.specs.Prelude.{◌≤◌, IfOk, IfSome};

use crate::fault::BenchFault;
use evt_types::MAX_QUEUES;
use std::env;
use std::rt::Env;

/// The most unanswered events of the workers.
pub const MAX_HELD: u64 = 64;
/// The most flows: one slot of the queue is left to the blocked events.
pub const MAX_FLOWS: u8 = 63;
/// The most worker ports: a device has the source and the busy port beside them.
pub const MAX_WORKERS: u64 = 30;
/// The most events of a burst.
pub const MAX_BURST: u64 = 32;

/// What a run is asked for.
#[derive(Clone, Copy)]
pub struct Asked {
    /// How many unanswered events the workers hold.
    pub held: u64,
    /// Of how many flows the events are.
    pub flows: u8,
    /// How many events wait.
    pub waiting: u64,
    /// How many events wait in front of all these and can't be given.
    pub blocked: u64,
    /// How many queues there are.
    pub queues: u32,
    /// To how many of them the workers' events go, by turns.
    pub busy: u8,
    /// How many worker ports there are.
    pub ports: u64,
    /// How many events are released, and as many handed out, in a round.
    pub burst: u64,
    /// How many rounds there are.
    pub rounds: u64,
}

/// A number of `1..=most`.
fn within(most: u64, word: &str) -> Option<u64>
    ensures { IfSome result (λ n. (1 ≤ n) × (n ≤ most)) }
{
    match word.parse::<u64>() {
        Ok(number) if 1 <= number && number <= most => Some(number),
        _ => None,
    }
}

/// A number.
fn number(word: &str) -> Option<u64> {
    word.parse::<u64>().ok()
}

/// What the words ask for.
pub fn read_words(words: &[String]) -> Result<Asked, BenchFault>
    ensures { IfOk result (λ a. (1 ≤ a.flows) × (1 ≤ a.busy)) }
{
    let [
        held,
        flows,
        waiting,
        blocked,
        queues,
        busy,
        ports,
        burst,
        rounds,
    ] = words
    else {
        return Err(BenchFault::WordCount);
    };
    let held = within(MAX_HELD, held).ok_or(BenchFault::Held)?;
    let flows = within(u64::from(MAX_FLOWS), flows).ok_or(BenchFault::Flows)?;
    let waiting = number(waiting).ok_or(BenchFault::Waiting)?;
    let blocked = number(blocked).ok_or(BenchFault::Blocked)?;
    let queues = within(MAX_QUEUES as u64, queues).ok_or(BenchFault::Queues)?;
    let busy = within(queues, busy).ok_or(BenchFault::Busy)?;
    let ports = within(MAX_WORKERS, ports).ok_or(BenchFault::Ports)?;
    let burst = within(MAX_BURST, burst).ok_or(BenchFault::Burst)?;
    let rounds = number(rounds).ok_or(BenchFault::Rounds)?;
    if held < burst {
        return Err(BenchFault::FewHeld);
    }
    Ok(Asked {
        held,
        flows: flows as u8,
        waiting,
        blocked,
        queues: queues as u32,
        busy: busy as u8,
        ports,
        burst,
        rounds,
    })
}

/// The words of the command line after the program's name.
pub fn words<R: AllocGlobal + Env>(rt: &R) -> Result<Vec<String>, BenchFault> {
    let args = env::args(rt).map_err(|_| BenchFault::WordCount)?;
    args.skip(1)
        .collect(rt.alloc())
        .map_err(|_| BenchFault::Memory)
}
