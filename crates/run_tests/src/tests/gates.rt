//! Workers that meet at a gate: none goes on until as many have come as there are workers, so they are seen to work at the same time.

use super::documents::runs;
use pipeline_app::Gate;
use std::alloc::{AllocError, Global};
use std::process::Abort;
use std::sync::Wait;
use std::sync::atomic::{AtomicBool, AtomicU64, Ordering};
use std::test::Fail;
use std::thread::{Threads, yield_now};

/// How often a worker looks for the others in vain before it goes on and the test fails.
const PATIENCE: u32 = 100_000_000;

/// How often an event entered, and by which worker the last time.
#[derive(Drop)]
struct Entries {
    count: AtomicU64,
    worker: AtomicU64,
}

impl Entries {
    fn none() -> Entries {
        Entries {
            count: AtomicU64::new(0),
            worker: AtomicU64::new(0),
        }
    }
}

/// A gate at which each of so many workers is held until all are there. The events' payloads are the numbers from 1.
#[derive(Drop)]
struct Meeting {
    workers: u64,
    entered: AtomicU64,
    /// How many events the scheduler had accepted at its last sweep.
    accepted: AtomicU64,
    /// Whether a worker waited in vain, or came with another payload.
    missed: AtomicBool,
    entries: Vec<Entries>,
}

impl Meeting {
    /// So many workers are to meet, over so many events.
    fn of(alloc: Global, workers: u32, events: u64) -> Result<Meeting, AllocError> {
        let mut entries = Vec::new(alloc);
        for _ in 0..events {
            entries.push(Entries::none())?;
        }
        Ok(Meeting {
            workers: u64::from(workers),
            entered: AtomicU64::new(0),
            accepted: AtomicU64::new(0),
            missed: AtomicBool::new(false),
            entries,
        })
    }

    /// Notes that an event was entered by this worker: whether there is such an event.
    fn note(&self, worker: usize, payload: u64) -> bool {
        let Some(entries) = self.entries.get(payload.wrapping_sub(1) as usize) else {
            return false;
        };
        entries.count.fetch_add(1, Ordering::SeqCst);
        entries.worker.store(worker as u64, Ordering::SeqCst);
        true
    }

    /// Whether as many have entered as there are workers, and all events are accepted. A worker that waits enters no second time, so they
    /// are as many workers, which are all in `enter`. Would more run than these, some event would be given to one of the others.
    fn is_complete(&self) -> bool {
        let accepted = self.accepted.load(Ordering::SeqCst);
        self.entered.load(Ordering::SeqCst) >= self.workers && accepted >= self.entries.len() as u64
    }

    /// Waits until the meeting is complete; whether it was in time.
    fn wait(&self) -> bool {
        for _ in 0..PATIENCE {
            if self.is_complete() {
                return true;
            }
            yield_now();
        }
        false
    }

    /// What was otherwise than that each event entered once, and that all workers met and no other entered.
    fn other(&self, alloc: Global) -> Result<Option<&'static str>, AllocError> {
        if self.missed.load(Ordering::SeqCst) {
            return Ok(Some("the workers didn't meet"));
        }
        let mut seen = Vec::new(alloc);
        for entries in &self.entries {
            if entries.count.load(Ordering::SeqCst) != 1 {
                return Ok(Some("an event didn't enter once"));
            }
            let worker = entries.worker.load(Ordering::SeqCst);
            if !seen.contains(&worker) {
                seen.push(worker)?;
            }
        }
        if seen
            .iter()
            .any(|worker| *worker < 1 || *worker > self.workers)
        {
            Ok(Some("a worker of another number"))
        } else if seen.len() as u64 != self.workers {
            Ok(Some("another number of workers"))
        } else {
            Ok(None)
        }
    }
}

impl Gate for Meeting {
    fn enter(&self, worker: usize, payload: u64) {
        let is_known = self.note(worker, payload);
        self.entered.fetch_add(1, Ordering::SeqCst);
        if !self.wait() || !is_known {
            self.missed.store(true, Ordering::SeqCst);
        }
    }

    fn swept(&self, accepted: u64, _inside: usize) {
        self.accepted.store(accepted, Ordering::SeqCst);
    }
}

/// A document of one stage, by its serving, its trace and its stage; how many events are in it, and how many workers meet in its run,
/// which writes this.
#[derive(Clone, Copy)]
struct Met {
    serving: &'static str,
    trace: &'static str,
    stage: &'static str,
    events: u64,
    workers: u32,
    text: &'static str,
}

static MEETINGS: [Met; 4] = [
    // Two events of one flow of a parallel queue.
    Met {
        serving: "ports",
        trace: "1 128 1\n1 128 2\n",
        stage: "kind = \"parallel\"",
        events: 2,
        workers: 2,
        text: "stage 0 flow 1 level 2: 1 2\n",
    },
    // Events of two slots of an atomic queue.
    Met {
        serving: "flows",
        trace: "1 128 1\n2 128 2\n",
        stage: "kind = \"atomic\"\nslots = 4",
        events: 2,
        workers: 2,
        text: "stage 0 flow 1 level 2: 1\nstage 0 flow 2 level 2: 2\n",
    },
    // Eight events of one flow of a parallel queue.
    Met {
        serving: "ports",
        trace: "1 128 1\n1 128 2\n1 128 3\n1 128 4\n1 128 5\n1 128 6\n1 128 7\n1 128 8\n",
        stage: "kind = \"parallel\"",
        events: 8,
        workers: 8,
        text: "stage 0 flow 1 level 2: 1 2 3 4 5 6 7 8\n",
    },
    // Events of eight slots of an atomic queue.
    Met {
        serving: "flows",
        trace: "1 128 1\n2 128 2\n3 128 3\n4 128 4\n5 128 5\n6 128 6\n7 128 7\n8 128 8\n",
        stage: "kind = \"atomic\"\nslots = 8",
        events: 8,
        workers: 8,
        text: "stage 0 flow 1 level 2: 1\nstage 0 flow 2 level 2: 2\nstage 0 flow 3 level 2: 3\nstage 0 flow 4 level 2: 4\nstage 0 flow 5 level 2: 5\nstage 0 flow 6 level 2: 6\nstage 0 flow 7 level 2: 7\nstage 0 flow 8 level 2: 8\n",
    },
];

/// Sixteen events of one flow of a parallel queue, for workers of any number.
const SIXTEEN: Met = Met {
    serving: "ports",
    trace: "1 128 1\n1 128 2\n1 128 3\n1 128 4\n1 128 5\n1 128 6\n1 128 7\n1 128 8\n1 128 9\n1 128 10\n1 128 11\n1 128 12\n1 128 13\n1 128 14\n1 128 15\n1 128 16\n",
    stage: "kind = \"parallel\"",
    events: 16,
    workers: 1,
    text: "stage 0 flow 1 level 2: 1 2 3 4 5 6 7 8 9 10 11 12 13 14 15 16\n",
};

/// The document. Each worker may hold four events, but takes one at a time.
fn document_of(alloc: Global, met: &Met) -> Result<String, AllocError> {
    let Met {
        serving,
        trace,
        stage,
        ..
    } = met;
    format!(in alloc;
        "serving = \"{serving}\"\nlimit = 32\nquantum = 1\nsweep = 8\ndepth = 4\nreplies = 8\ntrace = \"\"\"\n{trace}\"\"\"\n[[stage]]\n{stage}\n"
    )
}

/// Runs the document with so many workers, who meet, and no other comes.
fn meet<R: Threads + Wait + Abort + Sync>(
    rt: &R,
    alloc: Global,
    met: &Met,
    workers: u32,
) -> Result<(), Fail> {
    let document = document_of(alloc, met)?;
    let gate = Meeting::of(alloc, workers, met.events)?;
    runs(rt, alloc, document.as_bytes(), workers, &gate, Ok(met.text));
    let other = gate.other(alloc)?;
    assert_eq!(rt; other, None, "{workers} workers");
    Ok(())
}

#[test]
fn all_workers_meet(rt: HostRuntime) -> Result<(), Fail> {
    for met in &MEETINGS {
        meet(&rt, rt.alloc(), met, met.workers)?;
    }
    Ok(())
}

#[test]
fn as_many_workers_run_as_are_asked_for(rt: HostRuntime) -> Result<(), Fail> {
    for workers in 1..=8 {
        meet(&rt, rt.alloc(), &SIXTEEN, workers)?;
    }
    Ok(())
}
