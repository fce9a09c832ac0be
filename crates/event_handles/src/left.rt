//! What is left in a device that was stopped, for C.

ghost use Rattle.std.specs.Prelude.{◌≡◌};
ghost use Rattle.event_handles.specs.Left.{left_in, shown};

use crate::errno::ENODEV;
use crate::event::{CEvent, CLeft, c_event, kind_at};
use crate::hub::Hub;
use crate::stopped::Stopped;
use evt_types::{Event, Kind, MAX_QUEUES};

/// How many lists of what is left there are, one for each part.
const PARTS: usize = 5;

/// An event as it is, with the scheduling type of its queue.
fn shown(kinds: &[Kind; MAX_QUEUES], event: &Event) -> CEvent
    ensures { result ≡ shown kinds.now event.now }
{
    c_event(event, kind_at(kinds, usize::from(event.queue)))
}

/// What is left in a part, of a queue or lane.
fn left_in(part: u64, kinds: &[Kind; MAX_QUEUES], event: &Event, number: u64, lane: usize) -> CLeft
    ensures { result ≡ left_in part kinds.now event.now number lane }
{
    CLeft {
        event: shown(kinds, event),
        number,
        part,
        lane: lane as u64,
    }
}

impl Stopped {
    ghost use Rattle.std.specs.Prelude.{◌≡◌, ◌<◌, ◌^◌, [], slice_get, IsSome, slice_index_or};
    ghost use Rattle.event_handles.specs.Left.{lists_of};
    ghost use Rattle.event_handles.specs.Pulls.{Pulls, Takes};

    /// What comes next in this part's list.
    fn current(&self) -> Option<CLeft>
        ensures here { result ≡ slice_get (slice_index_or (lists_of self.now.report self.now.kinds) self.now.part []) self.now.handed }
        ensures few { IsSome result → self.now.handed < 2 ^ 63 }
    {
        let report = &self.report;
        let kinds = &self.kinds;
        let handed = self.handed;
        match self.part {
            0 => report
                .waiting
                .get(handed)
                .map(|x| left_in(0, kinds, &x.event(), x.number(), x.queue())),
            1 => report
                .kept
                .get(handed)
                .map(|x| left_in(1, kinds, &x.event, x.number, x.queue)),
            2 => report
                .undelivered
                .get(handed)
                .map(|x| left_in(2, kinds, &x.event, x.number, x.lane)),
            3 => report
                .untaken
                .get(handed)
                .map(|x| left_in(3, kinds, &x.event, 0, x.lane)),
            4 => report
                .turned
                .get(handed)
                .map(|x| left_in(4, kinds, &x.event, 0, x.lane)),
            _ => None,
        }
    }

    /// Hands out the first of what wasn't yet.
    fn next(&mut self) -> Option<CLeft>
        ensures { Takes self.old self.new result }
    {
        while self.part < PARTS {
            if let Some(left) = self.current() {
                self.handed += 1;
                return Some(left);
            }
            self.part += 1;
            self.handed = 0;
        }
        None
    }

    /// Hands out as much as the array has room for.
    fn pull(&mut self, out: &mut [CLeft]) -> usize
        ensures { Pulls self.old self.new out.old out.new result }
    {
        for (count, item) in out.iter_mut().enumerate() {
            match self.next() {
                Some(left) => *item = left,
                None => return count,
            }
        }
        out.len()
    }
}

impl Hub {
    ghost use Rattle.event_handles.specs.Pulls.{IsLeft};

    /// Hands out what is left, beside what ports hold, as much as the array has room for: how much. -19 before the stop.
    pub fn left(&mut self, out: &mut [CLeft]) -> i64
        ensures { IsLeft self.old self.new out.old out.new result }
    {
        let Some(stopped) = &mut self.stopped else {
            return ENODEV;
        };
        stopped.pull(out) as i64
    }
}
