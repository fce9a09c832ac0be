//! Places of an ordered queue's hand-out, and events that a lane was given.

ghost use Rattle.std.specs.Prelude.{◌≡◌, false, [], OnOk};
ghost use Rattle.transcripts.specs.Standing.{add_to_place, answer_place};

use evt_types::{Event, Memory, Outcome};
use std::alloc::Global;
use std::marker::Model;

/// An open number of an ordered queue: whether it is answered, and what it was passed on as.
#[derive(Drop)]
pub(crate) struct Spot {
    number: u64,
    answered: bool,
    forwards: Vec<Event>,
}

impl Model for Spot {
    ghost use Rattle.evt_types.specs.Place.{Place};

    ghost Value = { Place };

    ghost view = { λ s. record { number = s.number; answered = s.answered; forwards = s.forwards.items } };
}

impl Spot {
    /// A number that was given now.
    pub(crate) fn open(alloc: Global, number: u64) -> Spot
        ensures { result ≡ record { number = number; answered = false; forwards = [] } }
    {
        Spot {
            number,
            answered: false,
            forwards: Vec::new(alloc),
        }
    }

    pub(crate) fn number(&self) -> u64
        ensures { result ≡ self.now.number }
    {
        self.number
    }

    pub(crate) fn is_answered(&self) -> bool
        ensures { result ≡ self.now.answered }
    {
        self.answered
    }

    pub(crate) fn forwards(&self) -> &[Event]
        ensures { result.now ≡ self.now.forwards }
    {
        &self.forwards
    }

    /// The number is answered so, if it is this one's.
    pub(crate) fn answer(&mut self, number: u64, outcome: &Outcome) -> Result<(), Memory>
        ensures { OnOk result (self.new ≡ answer_place number outcome.now self.old) }
    {
        if self.number != number {
            return Ok(());
        }
        self.answered = true;
        if let Outcome::Forwarded(event) = outcome {
            self.forwards.push(*event)?;
        }
        Ok(())
    }

    /// The event is added beside the number, if it is this one's.
    pub(crate) fn add(&mut self, number: u64, event: &Event) -> Result<(), Memory>
        ensures { OnOk result (self.new ≡ add_to_place number event.now self.old) }
    {
        if self.number == number {
            self.forwards.push(*event)?;
        }
        Ok(())
    }
}

/// An event that a lane was given and has not answered.
#[derive(Drop)]
pub(crate) struct HeldEvent {
    queue: usize,
    number: u64,
    slot: usize,
}

impl Model for HeldEvent {
    ghost use Rattle.transcripts.specs.Transcript.{Held};

    ghost Value = { Held };

    ghost view = { λ h. record { queue = h.queue; number = h.number; slot = h.slot } };
}

impl HeldEvent {
    pub(crate) fn new(queue: usize, number: u64, slot: usize) -> HeldEvent
        ensures { result ≡ record { queue = queue; number = number; slot = slot } }
    {
        HeldEvent {
            queue,
            number,
            slot,
        }
    }

    pub(crate) fn queue(&self) -> usize
        ensures { result ≡ self.now.queue }
    {
        self.queue
    }

    pub(crate) fn number(&self) -> u64
        ensures { result ≡ self.now.number }
    {
        self.number
    }

    pub(crate) fn slot(&self) -> usize
        ensures { result ≡ self.now.slot }
    {
        self.slot
    }
}
