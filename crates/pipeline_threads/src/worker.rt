//! A worker: it carries out the stages' actions on the events that it receives.

ghost use Rattle.std.specs.Prelude.{ℕ, ◌≡◌, ◌≤◌, true, All, IsTrue, length};
ghost use Rattle.event_ports.specs.Counts.{no_counts, plus};
ghost use Rattle.event_ports.specs.Lanes.{reply_of};
ghost use Rattle.event_ports.specs.Ports.{counts_of};
ghost use Rattle.event_device.specs.Device.{site_of};
ghost use Rattle.evt_types.specs.Operation.{is_answer_op};
ghost use Rattle.pipeline_laws.specs.Pipeline.{IsProper};
ghost use Rattle.pipeline_laws.specs.Promises.{said_to};
ghost use Rattle.pipeline_threads.specs.Ports.{AreDue, HasCounted, HasWorked, IsEven, IsIdle};
ghost use Rattle.run_counts.specs.Looking.{HasLooked, looked};
ghost use Rattle.transcripts.specs.Replies.{said};

use crate::gate::Gate;
use crate::patience::Patience;
use crate::promise::Worked;
use crate::submit::submit_all;
use arrayvec::ArrayVec;
use event_device::{Deliveries, Port};
use evt_types::{Delivery, Event, Outcome};
use pipeline_laws::{Action, answer};
use run_counts::Looks;
use std::sync::Wait;

/// How many events a worker may dequeue at once.
const MAX_BURST: usize = 64;

/// What a worker dequeued at once, and the events by which it answers that. Its arrays are made once for all of a worker's bursts.
#[derive(Drop)]
struct Burst {
    deliveries: Deliveries,
    answers: ArrayVec<Event, MAX_BURST>,
}

impl Burst {
    fn new() -> Burst {
        Burst {
            deliveries: Deliveries::new(),
            answers: ArrayVec::new(),
        }
    }
}

/// The number nearest to this one that a worker may dequeue at once. One that took none would never come to its end.
fn nearest(most: usize) -> usize
    ensures { result ≤ MAX_BURST }
{
    if most > MAX_BURST {
        MAX_BURST
    } else if most == 0 {
        1
    } else {
        most
    }
}

/// The event by which the delivery is answered: its stage's action, and on to the next stage, or a release.
fn answer_event(actions: &[Action], delivery: &Delivery) -> Event
    requires actions { All IsProper actions.now }
    requires few { length actions.now ≤ 255 }
    ensures said { said (reply_of result) ≡ said_to actions.now delivery.now }
    ensures answers { is_answer_op result.op ≡ true }
{
    match answer(actions, delivery.queue(), &delivery.event()) {
        Outcome::Forwarded(event) => event,
        Outcome::Released => Event::release(),
    }
}

/// The events by which the deliveries are answered, in their order. The worker of this number passes the gate before each action.
fn answer_each<G: Gate>(
    gate: &G,
    worker: usize,
    actions: &[Action],
    deliveries: &[Delivery],
    answers: &mut ArrayVec<Event, MAX_BURST>,
)
    requires actions { All IsProper actions.now }
    requires few { length actions.now ≤ 255 }
    requires fits { length deliveries.now ≤ MAX_BURST }
    ensures { AreDue actions.now deliveries.now answers.new.items }
{
    answers.clear();
    for delivery in deliveries {
        gate.enter(worker, delivery.event().payload);
        answers.push(answer_event(actions, delivery));
    }
}

/// Dequeues a burst of at most so many events, of what has come, counts that look, and answers all of it: whether the worker is to go on.
fn turn<R: Wait, G: Gate>(
    rt: &R,
    gate: &G,
    actions: &[Action],
    most: usize,
    port: &mut Port,
    burst: &mut Burst,
    patience: &mut Patience,
    looks: &mut Looks,
) -> bool
    requires actions { All IsProper actions.now }
    requires few { length actions.now ≤ 255 }
    requires fits { most ≤ MAX_BURST }
    requires even { IsEven actions.now port.old }
    requires counted { HasCounted port.old }
    ensures site { site_of port.new ≡ site_of port.old }
    ensures even { IsTrue result → IsEven actions.now port.new }
    ensures worked { HasWorked actions.now port.new }
    ensures looked { (came : ℕ) × (looks.new ≡ looked came looks.old) × ((counts_of port.new).dequeued ≡ plus (counts_of port.old).dequeued came) }
{
    let Ok(came) = port.dequeue_burst(most, &mut burst.deliveries) else {
        unreachable!()
    };
    looks.count(came);
    if came == 0 {
        patience.wait();
        return !port.shut_seen();
    }
    *patience = Patience::new();
    answer_each(
        gate,
        port.number(),
        actions,
        burst.deliveries.as_slice(),
        &mut burst.answers,
    );
    submit_all(rt, port, &burst.answers)
}

/// Receives and answers events, in bursts of at most so many, until the device is shut, and counts its looks for them.
pub(crate) fn work<R: Wait, G: Gate>(
    rt: &R,
    gate: &G,
    actions: &[Action],
    most: usize,
    port: Port,
) -> Worked
    requires actions { All IsProper actions.now }
    requires few { length actions.now ≤ 255 }
    requires idle { IsIdle port }
    ensures site { site_of result.port ≡ site_of port }
    ensures worked { HasWorked actions.now result.port }
    ensures looked { HasLooked no_counts (counts_of result.port) result.looks }
{
    let mut port = port;
    let most = nearest(most);
    let mut burst = Burst::new();
    let mut patience = Patience::new();
    let mut looks = Looks::none();
    for _ in rt.forever() {
        if !turn(
            rt,
            gate,
            actions,
            most,
            &mut port,
            &mut burst,
            &mut patience,
            &mut looks,
        ) {
            return Worked { port, looks };
        }
    }
    unreachable!()
}
