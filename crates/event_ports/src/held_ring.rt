//! What a port holds, in a ring whose number of places is fixed, so that its mask is a constant.

ghost use Rattle.std.specs.Prelude.{◌≡◌, ◌+◌, ◌<◌, ◌≤◌, true, false, [], ◌∷◌, ◌++◌, length, map, drop, slice_get, option_copied, IfOk};
ghost use Rattle.lists.specs.Windows.{window};
ghost use Rattle.lane_rings.specs.Identity.{far_id};
ghost use Rattle.event_ports.specs.HeldRings.{holds};
ghost use Rattle.event_ports.specs.Lanes.{held_in, holding_of};

use crate::lane::{Holding, Lane};
use evt_types::{Delivery, Memory};
use lane_rings::{Deliveries, Far};
use std::alloc::Global;
use std::marker::Model;

/// How many places there are: as many as a port may hold at most, and a power of two, so that a mask finds the next place.
const PLACES: usize = 64;

/// What a port holds, oldest first, in a ring. A port without flow lanes notes nothing: its own lane's end knows what is unanswered.
#[derive(Drop)]
pub struct HeldRing {
    places: Vec<Holding>,
    /// The oldest one's place.
    first: usize,
    len: usize,
    capacity: usize,
    notes: bool,
}

impl Model for HeldRing {
    ghost use Rattle.event_ports.specs.HeldRings.{Held, holds};

    ghost Value = { Held };

    ghost use Rattle.event_ports.specs.Ring.{in_ring, IsRing};

    ghost view = { λ a. holds (in_ring a) a.capacity a.notes };

    ghost invariant = { IsRing };
}

impl HeldRing {
    /// A ring that holds nothing, with room for so many; it notes what comes, or nothing.
    pub fn new(alloc: Global, capacity: usize, notes: bool) -> Result<HeldRing, Memory>
        requires { capacity ≤ 64 }
        ensures { IfOk result (λ r. r ≡ holds [] capacity notes) }
    {
        let blank = Holding {
            lane: Lane::Own,
            queue: 0,
            number: 0,
        };
        let places = vec![in alloc; blank; PLACES]?;
        Ok(HeldRing {
            places,
            first: 0,
            len: 0,
            capacity,
            notes,
        })
    }

    /// Whether what comes is noted.
    #[inline(always)]
    pub(crate) fn notes(&self) -> bool
        ensures { result ≡ self.now.notes }
    {
        self.notes
    }

    /// How many are held.
    #[inline(always)]
    pub fn len(&self) -> usize
        ensures len { result ≡ length self.now.items }
        ensures within { (result ≤ self.now.capacity) × (self.now.capacity ≤ 64) }
    {
        self.len
    }

    /// How many may be held.
    #[inline(always)]
    pub fn capacity(&self) -> usize
        ensures capacity { result ≡ self.now.capacity }
        ensures within { (length self.now.items ≤ result) × (result ≤ 64) }
    {
        self.capacity
    }

    /// The oldest one, which stays.
    #[inline(always)]
    pub fn front(&self) -> Option<&Holding>
        ensures { option_copied result ≡ slice_get self.now.items 0 }
    {
        if self.len == 0 {
            return None;
        }
        Some(&self.places[self.first])
    }

    /// Notes the deliveries from this position on, which came from the lane, as held; or nothing.
    #[inline(always)]
    pub(crate) fn note(&mut self, lane: Lane, from: usize, deliveries: &Deliveries)
        requires within { from ≤ length deliveries.now.items }
        requires room { self.old.notes ≡ true → length self.old.items + length (drop from deliveries.now.items) ≤ self.old.capacity }
        ensures noted { self.old.notes ≡ true → self.new.items ≡ self.old.items ++ map (holding_of lane) (drop from deliveries.now.items) }
        ensures room { self.new.capacity ≡ self.old.capacity }
        ensures notes { self.new.notes ≡ self.old.notes }
    {
        if !self.notes {
            return;
        }
        let came = &deliveries.as_slice()[from..];
        if came.len() == 1 {
            self.note_one(lane, &came[0]);
            return;
        }
        self.len = write(&mut self.places, self.first, self.len, lane, came);
    }

    // The same of one delivery, without the loop.
    #[inline(always)]
    fn note_one(&mut self, lane: Lane, delivery: &Delivery)
        requires { length self.old.items + 1 ≤ self.old.capacity }
        ensures noted { self.new.items ≡ self.old.items ++ holding_of lane delivery.now ∷ [] }
        ensures room { self.new.capacity ≡ self.old.capacity }
        ensures notes { self.new.notes ≡ self.old.notes }
    {
        self.push(Holding {
            lane,
            queue: delivery.queue(),
            number: delivery.number(),
        });
    }

    // Puts one behind the others.
    #[inline(always)]
    fn push(&mut self, holding: Holding)
        requires { length self.old.items + 1 ≤ self.old.capacity }
        ensures noted { self.new.items ≡ self.old.items ++ holding ∷ [] }
        ensures room { self.new.capacity ≡ self.old.capacity }
        ensures notes { self.new.notes ≡ self.old.notes }
    {
        self.places[(self.first + self.len) % PLACES] = holding;
        self.len += 1;
    }

    /// Notes what the end of the own lane has to answer, where nothing was noted as it came.
    pub(crate) fn note_held(&mut self, own: &Far)
        requires { self.old.notes ≡ false → (far_id own.now).depth ≤ self.old.capacity }
        ensures { self.new.items ≡ held_in own.now self.old }
    {
        if self.notes {
            return;
        }
        self.len = 0;
        for position in 0..own.held() {
            let Some((queue, number)) = own.held_at(position) else {
                unreachable!()
            };
            self.push(Holding {
                lane: Lane::Own,
                queue,
                number,
            });
        }
    }

    /// Takes the oldest one out.
    #[inline(always)]
    pub fn pop_front(&mut self) -> Option<Holding>
        ensures value { result ≡ slice_get self.old.items 0 }
        ensures items { self.new ≡ holds (drop 1 self.old.items) self.old.capacity self.old.notes }
    {
        if self.len == 0 {
            return None;
        }
        let oldest = self.places[self.first];
        self.first = (self.first + 1) % PLACES;
        self.len -= 1;
        Some(oldest)
    }

    /// Drops so many of the oldest, where they were noted.
    #[inline(always)]
    pub(crate) fn drop_row(&mut self, count: usize)
        requires { self.old.notes ≡ true → count ≤ length self.old.items }
        ensures dropped { self.old.notes ≡ true → self.new.items ≡ drop count self.old.items }
        ensures room { self.new.capacity ≡ self.old.capacity }
        ensures notes { self.new.notes ≡ self.old.notes }
    {
        if !self.notes {
            return;
        }
        self.first = (self.first + count) % PLACES;
        self.len -= count;
    }
}

// Writes the deliveries, which came from the lane, behind the `len` places that are taken from `first` on, and gives how many are taken
// then. Of the ring it has the places alone: the ring's own fields would be read and written at each delivery.
#[inline(always)]
fn write(
    places: &mut [Holding],
    first: usize,
    mut len: usize,
    lane: Lane,
    deliveries: &[Delivery],
) -> usize
    requires places { (length places.old ≡ 64) × (first < 64) }
    requires room { len + length deliveries.now ≤ 64 }
    ensures places { length places.new ≡ 64 }
    ensures len { result ≡ len + length deliveries.now }
    ensures written { window first result places.new ≡ window first len places.old ++ map (holding_of lane) deliveries.now }
{
    for delivery in deliveries {
        places[(first + len) % PLACES] = Holding {
            lane,
            queue: delivery.queue(),
            number: delivery.number(),
        };
        len += 1;
    }
    len
}
