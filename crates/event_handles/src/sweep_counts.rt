//! What the sweeps of a device did.

ghost use Rattle.std.specs.Prelude.{◌≡◌, ◌≤◌, length};
ghost use Rattle.evt_types.specs.declared.shape.TheConstants.{MAX_PORTS};
ghost use Rattle.event_handles.specs.Logs.{steps_logged};
ghost use Rattle.event_handles.specs.Sweeps.{AreKept, AreSent};

use event_device::{Counted, Device, Swept, Tally};
use evt_types::MAX_PORTS;

/// What the sweeps of a device did since it was made. Numbers wrap at 2^64.
#[derive(Clone, Copy)]
pub(crate) struct SweepCounts {
    /// How many sweeps there were.
    pub(crate) sweeps: u64,
    /// How many replies they took.
    pub(crate) taken: u64,
    /// How many events they gave.
    pub(crate) given: u64,
    /// How many of them took nothing.
    pub(crate) no_take: u64,
    /// How many of them gave nothing.
    pub(crate) no_give: u64,
    /// Whether the last one gave something.
    pub(crate) gave: bool,
    /// For each port how many events its lane was given so far.
    pub(crate) sent: [u64; MAX_PORTS],
    /// The same before the last sweep that gave something.
    pub(crate) before: [u64; MAX_PORTS],
}

/// How many ports the device has.
pub(crate) fn port_count(device: &Device) -> usize
    ensures value { result ≡ length device.now.recorded.sight.core.shape.ports }
    ensures few { result ≤ MAX_PORTS }
{
    let shape = device.core().shape();
    // To read a limit makes known that the limits hold.
    let _ = shape.limit();
    shape.ports().len()
}

/// Notes of each of the first so many lanes how many events it was given so far, and what was noted of it before.
fn note_lanes(
    log: &Tally<Counted>,
    lanes: usize,
    sent: &mut [u64; MAX_PORTS],
    before: &mut [u64; MAX_PORTS],
)
    requires { lanes ≤ MAX_PORTS }
    ensures sent { AreSent (steps_logged log.now) lanes sent.new }
    ensures before { AreKept lanes sent.old before.new }
{
    // Counted down: of a range over so few lanes the compiler makes several loops, whose choice costs more than the lanes.
    let mut left = lanes;
    while left > 0 {
        left -= 1;
        before[left] = sent[left];
        sent[left] = log.lane(left).tx;
    }
}

impl SweepCounts {
    ghost use Rattle.std.specs.Prelude.{◌≡◌};
    ghost use Rattle.event_handles.specs.Sweeps.{AreNoted, after_sweep, no_sweeps};

    /// No sweep yet.
    pub(crate) fn none() -> SweepCounts
        ensures { result ≡ no_sweeps }
    {
        SweepCounts {
            sweeps: 0,
            taken: 0,
            given: 0,
            no_take: 0,
            no_give: 0,
            gave: false,
            sent: [0; MAX_PORTS],
            before: [0; MAX_PORTS],
        }
    }

    /// Counts a sweep of the device. Where that gave nothing, what is noted of the lanes is still so.
    pub(crate) fn count(&mut self, swept: &Swept, device: &Device)
        ensures counted { self.new ≡ after_sweep swept.now self.new.sent self.new.before self.old }
        ensures noted { AreNoted swept.now.given device.now self.old self.new }
    {
        self.sweeps = self.sweeps.wrapping_add(1);
        self.taken = self.taken.wrapping_add(swept.taken as u64);
        self.given = self.given.wrapping_add(swept.given as u64);
        if swept.taken == 0 {
            self.no_take = self.no_take.wrapping_add(1);
        }
        self.gave = swept.given != 0;
        if swept.given == 0 {
            self.no_give = self.no_give.wrapping_add(1);
        } else {
            note_lanes(
                device.log(),
                port_count(device),
                &mut self.sent,
                &mut self.before,
            );
        }
    }
}
