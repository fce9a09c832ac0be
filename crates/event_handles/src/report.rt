//! What a hub says of a device that was stopped, in numbers.

ghost use Rattle.std.specs.Prelude.{◌≡◌, ◌-◌, ◌^◌, min, sum};
ghost use Rattle.event_handles.specs.Report.{Fills};

use crate::errno::{EINVAL, ENODEV};
use crate::hub::Hub;
use crate::stopped::Stopped;

/// Writes the numbers to the front of the array: 0. -22 where it is shorter.
pub(crate) fn fill(numbers: &[u64], out: &mut [u64]) -> i64
    ensures { Fills numbers.now out.old out.new result }
{
    let count = numbers.len();
    if out.len() < count {
        return EINVAL;
    }
    out[..count].copy_from_slice(numbers);
    0
}

/// The sum of the numbers, or the greatest number where it is above that.
fn sum_of(numbers: &[u64]) -> u64
    ensures { result ≡ min (sum numbers.now) (2 ^ 64 - 1) }
{
    let mut sum: u64 = 0;
    for number in numbers {
        sum = sum.saturating_add(*number);
    }
    sum
}

impl Stopped {
    ghost use Rattle.std.specs.Prelude.{◌≡◌};
    ghost use Rattle.event_handles.specs.Report.{report_numbers};

    fn numbers(&self) -> [u64; 9]
        ensures { result ≡ report_numbers self.now.report }
    {
        let report = &self.report;
        [
            report.free,
            report.own,
            sum_of(&report.pockets),
            report.waiting.len() as u64,
            report.kept.len() as u64,
            report.undelivered.len() as u64,
            report.held.len() as u64,
            report.untaken.len() as u64,
            report.turned.len() as u64,
        ]
    }
}

impl Hub {
    ghost use Rattle.event_handles.specs.Report.{IsReported};

    /// Writes to the front of the array how many credits were free, the scheduler's and the ports', and how many events waited, were kept,
    /// weren't delivered, were held, weren't taken and were turned away: 0. -22 where it has fewer than nine items, -19 before the stop.
    pub fn report(&self, out: &mut [u64]) -> i64
        ensures { IsReported self.now out.old out.new result }
    {
        let Some(stopped) = &self.stopped else {
            return ENODEV;
        };
        fill(&stopped.numbers(), out)
    }
}
