//! The cases that are measured.

ghost use Rattle.std.specs.Prelude.{◌≡◌, ◌<◌, ◌≤◌, ◌^◌};

use evt_types::{Event, FLOW_DEPTH, Kind, MAX_DEPTH, MAX_SLOTS, Op, PackedEvent, Serving};

/// The queue that new events enter.
pub const FIRST: u8 = 0;
/// The queue that forwarded events enter.
pub const SECOND: u8 = 1;
/// The bursts with which each case runs.
pub const BURSTS: [usize; 3] = [1, 8, 32];

/// Which log a device has.
#[derive(Clone, Copy)]
pub enum LogKind {
    /// It counts the steps and keeps none, as a program of packets wants it.
    Counted,
    /// It counts them by queue and by lane too.
    Tally,
}

/// A case: the queue that new events enter, and what the worker does with them.
#[derive(Clone, Copy)]
pub struct Case {
    pub name: &'static str,
    pub kind: Kind,
    pub serving: Serving,
    /// Of how many flows the events are.
    pub flows: u32,
    /// Whether the worker forwards each event to a parallel queue, and releases it there.
    pub forwards: bool,
    pub log: LogKind,
    pub ghost in_range: { (1 ≤ flows) × (flows ≤ 2 ^ 20) },
}

/// A case in which the scheduler hands all events to the ports.
fn make_case(name: &'static str, kind: Kind, flows: u32, forwards: bool) -> Case
    requires { (1 ≤ flows) × (flows ≤ 2 ^ 20) }
{
    Case {
        name,
        kind,
        serving: Serving::Ports,
        flows,
        forwards,
        log: LogKind::Counted,
    }
}

/// A case in which each slot of an atomic queue has a lane, which the worker claims.
fn make_lane_case(name: &'static str, flows: u32) -> Case
    requires { (1 ≤ flows) × (flows ≤ 2 ^ 20) }
{
    Case {
        name,
        kind: Kind::Atomic,
        serving: Serving::Flows,
        flows,
        forwards: false,
        log: LogKind::Counted,
    }
}

/// The case `atomic-64-flows` over a log that counts by queue and by lane.
fn make_tally_case(name: &'static str) -> Case {
    Case {
        name,
        kind: Kind::Atomic,
        serving: Serving::Ports,
        flows: 64,
        forwards: false,
        log: LogKind::Tally,
    }
}

/// The cases, in the order in which they run.
pub fn cases() -> [Case; 10] {
    [
        make_case("atomic-1-flow", Kind::Atomic, 1, false),
        make_case("atomic-64-flows", Kind::Atomic, 64, false),
        make_tally_case("atomic-64-flows-tally"),
        make_case("atomic-1024-flows", Kind::Atomic, 1024, false),
        make_lane_case("atomic-1-flow-lanes", 1),
        make_lane_case("atomic-64-flows-lanes", 64),
        make_lane_case("atomic-1024-flows-lanes", 1024),
        make_case("parallel", Kind::Parallel, 64, false),
        make_case("ordered", Kind::Ordered, 64, false),
        make_case("ordered-to-parallel", Kind::Ordered, 64, true),
    ]
}

impl Case {
    /// How many of its events the worker may hold: of a slot's lane no more than the lane's depth.
    pub fn room(&self) -> u32 {
        match self.serving {
            Serving::Ports => MAX_DEPTH,
            Serving::Flows => self
                .flows
                .min(MAX_SLOTS)
                .saturating_mul(FLOW_DEPTH)
                .min(MAX_DEPTH),
        }
    }

    /// The new event of this number.
    pub fn event(&self, number: u64) -> PackedEvent {
        PackedEvent::of(&Event {
            flow: (number % u64::from(self.flows)) as u32,
            sub_type: 0,
            event_type: 0,
            op: Op::New,
            queue: FIRST,
            priority: 128,
            impl_opaque: 0,
            payload: number,
        })
    }
}
