//! What the holder's end of a lane has to answer, in a ring with a place at least for each delivery that may be held.

ghost use Rattle.std.specs.Prelude.{◌≡◌, ◌+◌, ◌%◌, ◌^◌, ◌<◌, ◌≤◌, [], ◌∷◌, ◌++◌, length, map, drop, slice_get, IfOk};
ghost use Rattle.std.specs.Int.{IsPowerOfTwo};
ghost use Rattle.evt_types.specs.Event.{pair_of};
ghost use Rattle.lane_rings.specs.HeldPairs.{holds};
ghost use Rattle.lists.specs.Windows.{window};

use evt_types::{Delivery, Memory};
use std::alloc::Global;
use std::marker::Model;

/// The queue and the number of each delivery that is held, oldest first, in a ring.
#[derive(Drop)]
pub(crate) struct HeldPairs {
    /// As many places as a power of two, so that a mask finds the place after the last one.
    places: Vec<(usize, u64)>,
    /// The oldest one's place.
    first: usize,
    len: usize,
}

impl Model for HeldPairs {
    ghost use Rattle.std.specs.Prelude.{length};
    ghost use Rattle.lane_rings.specs.HeldPairs.{Held, holds};

    ghost Value = { Held };

    ghost use Rattle.lane_rings.specs.HeldRing.{in_ring, IsRing};

    ghost view = { λ a. holds (in_ring a) (length a.places.items) };

    ghost invariant = { IsRing };
}

/// The place that lies so many behind another, around the end.
#[inline(always)]
fn place_behind(first: usize, count: usize, places: usize) -> usize
    requires within { (first < places) × (count ≤ places) × (places < 2 ^ 63) }
    requires power { IsPowerOfTwo places }
    ensures { result ≡ (first + count) % places }
{
    (first + count) & (places - 1)
}

impl HeldPairs {
    /// Nothing is held yet; there is room for so many at least.
    pub(crate) fn new(alloc: Global, depth: usize) -> Result<HeldPairs, Memory>
        ensures { IfOk result (λ h. (h.items ≡ []) × (depth ≤ h.room)) }
    {
        // More places than can be counted are asked for as the most that can be, which no memory has.
        let count = depth.checked_next_power_of_two().unwrap_or(usize::MAX);
        let places = vec![in alloc; (0, 0); count]?;
        Ok(HeldPairs {
            places,
            first: 0,
            len: 0,
        })
    }

    /// How many are held.
    #[inline(always)]
    pub(crate) fn len(&self) -> usize
        ensures { result ≡ length self.now.items }
    {
        self.len
    }

    /// The one behind so many others, which stays.
    #[inline(always)]
    pub(crate) fn get(&self, position: usize) -> Option<(usize, u64)>
        ensures { result ≡ slice_get self.now.items position }
    {
        if position >= self.len {
            return None;
        }
        Some(self.places[place_behind(self.first, position, self.places.len())])
    }

    /// Notes a delivery as held.
    #[inline(always)]
    pub(crate) fn note_one(&mut self, delivery: &Delivery)
        requires { length self.old.items < self.old.room }
        ensures { self.new ≡ holds (self.old.items ++ pair_of delivery.now ∷ []) self.old.room }
    {
        let last = place_behind(self.first, self.len, self.places.len());
        self.places[last] = (delivery.queue(), delivery.number());
        self.len += 1;
    }

    /// Notes deliveries as held, in their order.
    #[inline(always)]
    pub(crate) fn note(&mut self, deliveries: &[Delivery])
        requires { length self.old.items + length deliveries.now ≤ self.old.room }
        ensures noted { self.new.items ≡ self.old.items ++ map pair_of deliveries.now }
        ensures room { self.new.room ≡ self.old.room }
    {
        self.len = write(&mut self.places, self.first, self.len, deliveries);
    }

    /// So many leave, from the oldest on.
    #[inline(always)]
    pub(crate) fn skip(&mut self, count: usize)
        requires { count ≤ length self.old.items }
        ensures { self.new ≡ holds (drop count self.old.items) self.old.room }
    {
        self.first = place_behind(self.first, count, self.places.len());
        self.len -= count;
    }

    /// All leave.
    #[inline(always)]
    pub(crate) fn clear(&mut self)
        ensures { self.new ≡ holds [] self.old.room }
    {
        self.len = 0;
    }
}

// Writes the deliveries behind the `count` places that are taken from `first` on, and gives how many are taken then. Of the ring it has
// the places alone: the ring's own fields would be read and written at each delivery.
#[inline(always)]
fn write(
    places: &mut [(usize, u64)],
    first: usize,
    mut count: usize,
    deliveries: &[Delivery],
) -> usize
    requires first { first < length places.old }
    requires power { IsPowerOfTwo (length places.old) }
    requires room { count + length deliveries.now ≤ length places.old }
    ensures places { length places.new ≡ length places.old }
    ensures count { result ≡ count + length deliveries.now }
    ensures written { window first result places.new ≡ window first count places.old ++ map pair_of deliveries.now }
{
    for delivery in deliveries {
        let last = place_behind(first, count, places.len());
        places[last] = (delivery.queue(), delivery.number());
        count += 1;
    }
    count
}
