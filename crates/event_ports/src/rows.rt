//! Rows of replies that have one operation: they are judged by their count, and go into the ring by one store.

ghost use Rattle.std.specs.Prelude.{◌≡◌, ◌<◌, ◌≤◌, length, take, All};
ghost use Rattle.evt_types.specs.declared.event.Reply.{Reply as ReplyValue};
ghost use Rattle.evt_types.specs.declared.event.Op.TheVariants as ops;

use crate::desk::Desk;
use event_answers::Refused;
use evt_types::{Op, Reply};

/// How many of so many replies are RELEASEs, before the first that isn't.
#[inline(always)]
fn count_releases(replies: &[Reply], most: usize) -> usize
    requires { most ≤ length replies.now }
    ensures within { result ≤ most }
    ensures releases { All (λ (r : ReplyValue). r.event.op ≡ ops.Release) (take result replies.now) }
{
    for position in 0..most {
        let Op::Release = replies[position].event.op() else {
            return position;
        };
    }
    most
}

/// How many of so many replies are FORWARDs to one of so many queues, before the first that isn't.
#[inline(always)]
fn count_forwards(replies: &[Reply], most: usize, queues: usize) -> usize
    requires { most ≤ length replies.now }
    ensures within { result ≤ most }
    ensures forwards { All (λ (r : ReplyValue). (r.event.op ≡ ops.Forward) × (r.event.queue < queues)) (take result replies.now) }
{
    for position in 0..most {
        let event = &replies[position].event;
        let Op::Forward = event.op() else {
            return position;
        };
        if usize::from(event.queue()) >= queues {
            return position;
        }
    }
    most
}

impl Desk {
    ghost use Rattle.std.specs.Prelude.{◌≤◌, length, take};
    ghost use Rattle.event_ports.specs.Desks.{Bursts, EnqueuesAll, events_of};
    ghost use Rattle.event_ports.specs.Rows.{LooksOver};

    // Submits the first of several replies, as long as they make a row: how many, and why the next one was refused, where it was. What is
    // left is left to `submit`.
    #[inline(always)]
    pub(crate) fn submit_row(&mut self, replies: &[Reply]) -> (usize, Option<Refused>)
        ensures within { result.0 ≤ length replies.now }
        ensures chain { Bursts self.old (events_of replies.now) result.0 result.1 self.new }
    {
        if replies.len() < 2 {
            return (0, None);
        }
        match replies[0].event.op() {
            Op::New => self.submit_news(replies),
            Op::Forward => (self.submit_forwards(replies), None),
            Op::Release => (self.submit_releases(replies), None),
            Op::ForwardMore => (0, None),
        }
    }

    // How many of so many replies are NEWs to queues of the device that may be brought in, each after a look at the credits as `submit` has
    // it, before the first that isn't; and why that is refused, where it is: the device is shut.
    #[inline(always)]
    fn look_for_news(&mut self, replies: &[Reply], most: usize) -> (usize, Option<Refused>)
        requires { most ≤ length replies.now }
        ensures within { result.0 ≤ most }
        ensures looked { LooksOver self.old replies.now result.0 result.1 self.new }
    {
        for taken in 0..most {
            let event = &replies[taken].event;
            if !event.is_new() || usize::from(event.queue()) >= self.queues {
                return (taken, None);
            }
            if self.shut_seen() {
                return (taken, Some(Refused::Stopped));
            }
        }
        (most, None)
    }

    // Submits the first of the replies, as long as they are NEWs to queues of the device. The others are left to `submit`, as soon as the
    // pocket is empty or no free slot is known.
    #[inline(always)]
    fn submit_news(&mut self, replies: &[Reply]) -> (usize, Option<Refused>)
        ensures within { result.0 ≤ length replies.now }
        ensures chain { Bursts self.old (events_of replies.now) result.0 result.1 self.new }
    {
        let most = replies
            .len()
            .min(self.pocket as usize)
            .min(self.lanes.known_room());
        let (count, refused) = self.look_for_news(replies, most);
        if count == 0 {
            return (0, refused);
        }
        self.lanes.bring_row(&replies[..count]);
        self.pocket -= count as u64;
        (count, refused)
    }

    // Submits the first of the replies, as long as they are RELEASEs of what came from the own lane: how many. The others are left to
    // `submit`, as soon as no free slot is known, and before two quanta are in the pocket: the return rule is applied there alone.
    #[inline(always)]
    fn submit_releases(&mut self, replies: &[Reply]) -> usize
        ensures within { result ≤ length replies.now }
        ensures taken { EnqueuesAll (take result (events_of replies.now)) self.old self.new }
    {
        let spare = self.quantum.saturating_mul(2).saturating_sub(self.pocket);
        let most = replies.len().min(spare.saturating_sub(1) as usize);
        let count = count_releases(replies, self.lanes.own_row(most));
        if count == 0 {
            return 0;
        }
        self.lanes.answer_row(&replies[..count]);
        self.pocket += count as u64;
        count
    }

    // The same of FORWARDs to queues of the device.
    #[inline(always)]
    fn submit_forwards(&mut self, replies: &[Reply]) -> usize
        ensures within { result ≤ length replies.now }
        ensures taken { EnqueuesAll (take result (events_of replies.now)) self.old self.new }
    {
        let most = self.lanes.own_row(replies.len());
        let count = count_forwards(replies, most, self.queues);
        if count == 0 {
            return 0;
        }
        self.lanes.answer_row(&replies[..count]);
        count
    }
}
