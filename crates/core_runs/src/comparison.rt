//! Both cores go through the same moves, drawn at random from a seed: all that they answer and log is the same.

use crate::device::Device;
use crate::drawn_moves::{Counts, Drawing};
use crate::fault::RunFault;
use crate::moves::{Made, Move};
use crate::pair::Pair;
use core_oracle::PlainTook;
use evt_types::{Kind, MAX_EXTRAS, Op, Serving};
use std::alloc::Global;

/// How many seeds a device is run with.
const SEEDS: u64 = 50;
/// How many turns a run has.
const TURNS: usize = 1000;
/// How often a thing happens at least in the runs of a device, if they are worth the comparison.
const OFTEN: u32 = 100;

/// A device, and of how many flows the events of its runs are.
#[derive(Clone, Copy)]
pub(crate) struct Compared {
    pub(crate) name: &'static str,
    device: Device,
    flows: usize,
}

/// A device in which few events may be.
const SMALL: Device = Device {
    limit: 10,
    sweep: 4,
    serving: Serving::Ports,
    queues: &[],
    ports: &[],
};

/// The devices on which the cores are compared.
pub(crate) static COMPARED: [Compared; 6] = [
    Compared {
        name: "a parallel queue",
        device: Device {
            limit: 6,
            queues: &[(Kind::Parallel, 128, 1)],
            ports: &[(4, &[]), (3, &[0]), (2, &[0])],
            ..SMALL
        },
        flows: 6,
    },
    Compared {
        name: "atomic queues of few slots",
        device: Device {
            limit: 8,
            sweep: 3,
            queues: &[(Kind::Atomic, 128, 2), (Kind::Atomic, 128, 3)],
            ports: &[(4, &[0]), (3, &[0, 1]), (4, &[1, 0])],
            ..SMALL
        },
        flows: 6,
    },
    Compared {
        name: "ordered queues of few places",
        device: Device {
            queues: &[(Kind::Ordered, 128, 3), (Kind::Ordered, 128, 5)],
            ports: &[(4, &[]), (2, &[0]), (3, &[0, 1]), (2, &[1, 0])],
            ..SMALL
        },
        flows: 6,
    },
    Compared {
        name: "queues of all kinds",
        device: Device {
            limit: 16,
            sweep: 2,
            queues: &[
                (Kind::Parallel, 200, 1),
                (Kind::Atomic, 10, 2),
                (Kind::Ordered, 10, 4),
                (Kind::Atomic, 128, 1),
            ],
            ports: &[
                (8, &[0, 1]),
                (4, &[2, 3]),
                (6, &[0, 1, 2, 3]),
                (3, &[3, 2, 1]),
            ],
            ..SMALL
        },
        flows: 6,
    },
    Compared {
        name: "flow lanes beside an ordered and a parallel queue",
        device: Device {
            sweep: 3,
            serving: Serving::Flows,
            queues: &[
                (Kind::Ordered, 128, 4),
                (Kind::Atomic, 128, 3),
                (Kind::Parallel, 128, 1),
            ],
            ports: &[(4, &[]), (3, &[0, 1]), (4, &[2, 1, 0])],
            ..SMALL
        },
        flows: 6,
    },
    // Most workers are full most of the time, so that many events wait whose slot stands on a full one.
    Compared {
        name: "many blocked flows",
        device: Device {
            limit: 200,
            sweep: 16,
            queues: &[(Kind::Atomic, 128, 64)],
            ports: &[(4, &[]), (1, &[0]), (1, &[0]), (2, &[0]), (8, &[0])],
            ..SMALL
        },
        flows: 40,
    },
];

/// How often each thing came of a turn in the runs of a device.
#[derive(Clone, Copy, Debug, Default)]
struct Seen {
    accepted: u32,
    kept: u32,
    released: u32,
    turned: u32,
    refused: u32,
    given: u32,
    bounced: u32,
    nothing: u32,
    /// More than one event was given together, to several lanes, and it was known whose turn it was.
    long: u32,
    dealt: u32,
    by_turn: u32,
    /// More than one reply was taken in a row: NEWs, FORWARDs and RELEASEs.
    news: u32,
    forwards: u32,
    releases: u32,
    /// What was added beside an unanswered event was accepted at once, was kept, or was refused; and an event had as many as there
    /// may be.
    added: u32,
    added_kept: u32,
    not_added: u32,
    filled: u32,
}

impl Seen {
    /// Notes what came of a turn.
    fn note(&mut self, step: Move, made: Made) {
        let adds = step.adds_on().is_some();
        let count = match made {
            Made::Took(Some(PlainTook::Kept)) if adds => &mut self.added_kept,
            Made::Took(Some(_)) if adds => &mut self.added,
            Made::Took(None) if adds => &mut self.not_added,
            Made::Took(Some(PlainTook::Accepted)) => &mut self.accepted,
            Made::Took(Some(PlainTook::Kept)) => &mut self.kept,
            Made::Took(Some(PlainTook::Released)) => &mut self.released,
            Made::Took(Some(PlainTook::Turned)) => &mut self.turned,
            Made::Took(None) => &mut self.refused,
            Made::Gave(Some(_)) => &mut self.given,
            Made::Bounced(Some(_)) => &mut self.bounced,
            Made::Gave(None) | Made::Bounced(None) => &mut self.nothing,
            Made::TookRow(2..) => self.row(step),
            Made::TookRow(_) | Made::Nothing => return,
        };
        *count = count.saturating_add(1);
    }

    /// How often such replies as these were taken in a row.
    fn row(&mut self, step: Move) -> &mut u32 {
        match step {
            Move::Replies { packet, .. } if packet.op == Op::New => &mut self.news,
            Move::Replies { packet, .. } if packet.op == Op::Forward => &mut self.forwards,
            _ => &mut self.releases,
        }
    }

    /// Notes how many events were given together, whether to several lanes, and whether it was known whose turn it was, where events were
    /// given.
    fn note_run(&mut self, made: Made, length: usize, has_dealt: bool, knew_turn: bool) {
        if !matches!(made, Made::Gave(Some(_))) {
            return;
        }
        if length > 1 {
            self.long = self.long.saturating_add(1);
        }
        if has_dealt {
            self.dealt = self.dealt.saturating_add(1);
        }
        if knew_turn {
            self.by_turn = self.by_turn.saturating_add(1);
        }
    }

    /// Notes that an event was to be added on a lane on which as many are added now as there may be.
    fn note_extras(&mut self, extras: usize) {
        if extras == MAX_EXTRAS {
            self.filled = self.filled.saturating_add(1);
        }
    }

    /// Whether each thing that may happen on the device has happened often: an ordered queue keeps events and what is added beside
    /// them, and no other does; whose turn it is, is known where flow lanes serve.
    fn is_varied(&self, device: &Device) -> bool {
        let counts = [
            self.accepted,
            self.released,
            self.turned,
            self.refused,
            self.given,
            self.long,
            self.dealt,
            self.news,
            self.forwards,
            self.releases,
            self.bounced,
            self.nothing,
            self.not_added,
            self.filled,
        ];
        counts.iter().all(|count| *count >= OFTEN)
            && comes_where(device.has_ordered(), self.kept)
            && comes_where(device.serving == Serving::Flows, self.by_turn)
            && comes_where(device.has_ordered(), self.added_kept)
            && comes_where(device.has_unordered(), self.added)
    }
}

/// Whether it came often where it may come, and else never.
fn comes_where(may_come: bool, count: u32) -> bool {
    if may_come { count >= OFTEN } else { count == 0 }
}

/// Makes the drawn moves on both cores.
fn make_drawn(pair: &mut Pair, drawing: &mut Drawing, seen: &mut Seen) -> Result<(), RunFault> {
    for turn in 0..TURNS {
        if drawing.below(10) == 0 {
            let _ = pair.make(Move::NextSweep)?;
        }
        let step = drawing.next(turn > TURNS / 2);
        let knew_turn = pair.knows_turn();
        let made = pair.make(step)?;
        seen.note(step, made);
        seen.note_run(made, pair.run_len(), pair.has_dealt(), knew_turn);
        if let Some(lane) = step.adds_on() {
            seen.note_extras(pair.extras_len(lane));
        }
    }
    pair.must_hold_alike()
}

/// The run of a seed.
fn compare_run(
    alloc: Global,
    compared: &Compared,
    seed: u64,
    seen: &mut Seen,
) -> Result<(), RunFault> {
    let device = &compared.device;
    let mut pair = Pair::new(alloc, device)?;
    let counts = Counts {
        ports: device.ports.len(),
        lanes: pair.lanes(),
        queues: device.queues.len(),
        flows: compared.flows,
    };
    make_drawn(&mut pair, &mut Drawing::new(seed, counts), seen)
}

/// The runs of all seeds. In each the cores must do alike, and all together must be varied.
pub(crate) fn compare(alloc: Global, compared: &Compared) -> Result<(), RunFault> {
    let mut seen = Seen::default();
    for seed in 0..SEEDS {
        compare_run(alloc, compared, seed, &mut seen)?;
    }
    if seen.is_varied(&compared.device) {
        Ok(())
    } else {
        Err(RunFault::Otherwise(format!(in alloc; "alike, but not varied: {seen:?}")?))
    }
}
