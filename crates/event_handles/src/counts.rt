//! What a hub says of its counts.

ghost use Rattle.std.specs.Prelude.{◌≡◌, ◌<◌};
ghost use Rattle.event_handles.specs.Counts.{lane_list, numbers_of, queue_list, sweep_list};
ghost use Rattle.event_handles.specs.Logs.{steps_logged};
ghost use Rattle.event_handles.specs.Report.{Fills};

use crate::errno::{EINVAL, ENODEV};
use crate::hub::Hub;
use crate::report::fill;
use crate::sweep_counts::SweepCounts;
use event_device::{Counted, LaneCounts, QueueCounts, Tally};
use evt_types::{MAX_LANES, MAX_QUEUES};

/// The number of the device's counts, after those of the queues and of the lanes.
const OF_DEVICE: usize = MAX_QUEUES + MAX_LANES;

/// The number of the counts of its sweeps.
const OF_SWEEPS: usize = OF_DEVICE + 1;

fn sweep_list(counts: &SweepCounts) -> [u64; 5]
    ensures { result ≡ sweep_list counts.now }
{
    [
        counts.sweeps,
        counts.taken,
        counts.given,
        counts.no_take,
        counts.no_give,
    ]
}

fn queue_list(counts: QueueCounts) -> [u64; 3]
    ensures { result ≡ queue_list counts }
{
    [counts.rx_new, counts.rx_forwarded, counts.tx]
}

fn lane_list(counts: LaneCounts) -> [u64; 7]
    ensures { result ≡ lane_list counts }
{
    [
        counts.rx_new,
        counts.tx,
        counts.released,
        counts.forwarded,
        counts.added,
        counts.turned,
        counts.bounced,
    ]
}

/// Writes the counts of queue `what`, or of the lane that has the number after the queues.
fn count(log: &Tally<Counted>, what: usize, out: &mut [u64]) -> i64
    requires { what < 192 }
    ensures { Fills (numbers_of (steps_logged log.now) what) out.old out.new result }
{
    if what < MAX_QUEUES {
        fill(&queue_list(log.queue(what)), out)
    } else {
        fill(&lane_list(log.lane(what - MAX_QUEUES)), out)
    }
}

impl Hub {
    ghost use Rattle.event_handles.specs.Counts.{IsCounted};

    /// Writes counts to the front of the array: 0. Below 32 those of a queue, in the order of `QueueCounts`; below 192 those of a lane, in
    /// the order of `LaneCounts`; of 192 how many events were accepted as new, and how many are inside, which after the stop isn't known:
    /// -19; of 193 how many sweeps there were, what they took and gave, and how many took nothing and gave nothing. -22 where the array is
    /// shorter or the number is above. -19 where the device was refused.
    pub fn counts(&self, what: usize, out: &mut [u64]) -> i64
        ensures { IsCounted self.now what out.old out.new result }
    {
        match (&self.device, &self.stopped) {
            (Some(device), _) if what < OF_DEVICE => count(device.log(), what, out),
            (Some(device), _) if what == OF_DEVICE => {
                fill(&[device.accepted_new(), device.inside() as u64], out)
            }
            (None, Some(stopped)) if what < OF_DEVICE => count(&stopped.report.log, what, out),
            (None, Some(_)) if what == OF_DEVICE => ENODEV,
            (Some(_), _) if what == OF_SWEEPS => fill(&sweep_list(&self.sweeps), out),
            (None, Some(_)) if what == OF_SWEEPS => fill(&sweep_list(&self.sweeps), out),
            (None, None) => ENODEV,
            _ => EINVAL,
        }
    }
}
