//! A port in C's memory.

ghost use Rattle.std.specs.Prelude.{◌≡◌};
ghost use Rattle.event_handles.specs.Ports.{count_list};

use crate::errno::{EINVAL, ENOBUFS, ENODEV};
use crate::event::{CEvent, read_all, write_all};
use crate::refusal::number_of_end;
use event_ports::{Deliveries, Port, PortCounts};
use evt_types::{Kind, MAX_QUEUES, Reply};

/// How many events one call enqueues at most.
const BURST: usize = 64;

/// How many numbers a port's counts are.
const COUNTS: usize = 11;

/// A port with the scheduling types of the device's queues, and the arrays of its calls, which are kept since to make one writes all of
/// it.
#[derive(Drop)]
pub struct Seat {
    pub(crate) port: Port,
    pub(crate) kinds: [Kind; MAX_QUEUES],
    replies: [Reply; BURST],
    deliveries: Deliveries,
    why: i64,
}

/// A port for C; without a seat where the device had none left.
#[derive(Drop)]
pub struct PortHandle {
    pub seat: Option<Seat>,
}

/// The counts in the order of their fields.
fn numbers_of(counts: PortCounts) -> [u64; COUNTS]
    ensures { result ≡ count_list counts }
{
    [
        counts.enqueued,
        counts.dequeued,
        counts.released,
        counts.stopped,
        counts.bad_queue,
        counts.nothing_held,
        counts.backpressure,
        counts.raced,
        counts.full,
        counts.too_many,
        counts.behind,
    ]
}

impl Seat {
    ghost use Rattle.std.specs.Prelude.{◌≡◌, pos};
    ghost use Rattle.event_handles.specs.Ports.{Dequeues, Enqueues};

    /// A port to which nothing was done by a program.
    pub(crate) fn new(port: Port, kinds: [Kind; MAX_QUEUES]) -> Seat
        ensures port { result.port ≡ port }
        ensures kinds { result.kinds ≡ kinds }
        ensures why { result.why ≡ pos 0 }
    {
        Seat {
            port,
            kinds,
            replies: [Reply::default(); BURST],
            deliveries: Deliveries::new(),
            why: 0,
        }
    }

    fn enqueue(&mut self, events: &[CEvent]) -> i64
        ensures { Enqueues self.old self.new events.now result }
    {
        let count = events.len().min(BURST);
        read_all(&events[..count], &mut self.replies);
        let (taken, end) = self.port.enqueue_packed(&self.replies[..count]);
        self.why = number_of_end(&end);
        taken as i64
    }

    fn dequeue(&mut self, out: &mut [CEvent]) -> i64
        ensures { Dequeues self.old self.new out.old out.new result }
    {
        match self.port.dequeue_burst(out.len(), &mut self.deliveries) {
            Ok(count) => {
                write_all(self.deliveries.as_slice(), &self.kinds, out);
                self.why = 0;
                count as i64
            }
            Err(_) => {
                self.why = ENOBUFS;
                ENOBUFS
            }
        }
    }
}

impl PortHandle {
    ghost use Rattle.std.specs.Prelude.{◌≡◌};
    ghost use Rattle.event_handles.specs.Ports.{IsCounted, IsDequeue, IsEnqueue, held_in, pocket_in, why_in};

    /// Enqueues the events one after the other up to the first that is refused, 64 at most: how many were taken. Why the next one wasn't
    /// is then what `why` says. -19 without a seat.
    pub fn enqueue(&mut self, events: &[CEvent]) -> i64
        ensures { IsEnqueue self.old.seat self.new.seat events.now result }
    {
        match &mut self.seat {
            Some(seat) => seat.enqueue(events),
            None => ENODEV,
        }
    }

    /// Dequeues as many events as are there, as the array has room for and as the port may hold: how many came. With implicit release what
    /// is held is released first; -105 where a ring has no room for that, and nothing came. -19 without a seat.
    pub fn dequeue(&mut self, out: &mut [CEvent]) -> i64
        ensures { IsDequeue self.old.seat self.new.seat out.old out.new result }
    {
        match &mut self.seat {
            Some(seat) => seat.dequeue(out),
            None => ENODEV,
        }
    }

    /// The number of the refusal that ended the last enqueue, -105 where the last dequeue had no room for its releases, and else 0. -19
    /// without a seat.
    pub fn why(&self) -> i64
        ensures { result ≡ why_in self.now.seat }
    {
        match &self.seat {
            Some(seat) => seat.why,
            None => ENODEV,
        }
    }

    /// How many events are held. -19 without a seat.
    pub fn held(&self) -> i64
        ensures { result ≡ held_in self.now.seat }
    {
        match &self.seat {
            Some(seat) => seat.port.held() as i64,
            None => ENODEV,
        }
    }

    /// How many credits are in the port's pocket, or the greatest number where there are more. -19 without a seat.
    pub fn pocket(&self) -> i64
        ensures { result ≡ pocket_in self.now.seat }
    {
        match &self.seat {
            Some(seat) => seat.port.pocket().min(i64::MAX as u64) as i64,
            None => ENODEV,
        }
    }

    /// Writes what the port counted since it was made to the front of the array, in the order of `PortCounts`. -22 where it is
    /// shorter, -19 without a seat.
    pub fn counts(&self, out: &mut [u64]) -> i64
        ensures { IsCounted self.now.seat out.old out.new result }
    {
        let Some(seat) = &self.seat else {
            return ENODEV;
        };
        if out.len() < COUNTS {
            return EINVAL;
        }
        let numbers = numbers_of(seat.port.counts());
        out[..COUNTS].copy_from_slice(&numbers);
        0
    }

    /// Lets go of the port, and of all that it has.
    pub fn close(self) {
        drop(self);
    }
}
