//! A row of deliveries.

ghost use Rattle.std.specs.Prelude.{◌≡◌, ◌+◌, ◌<◌, ◌≤◌, [], ◌∷◌, ◌++◌, drop, length, take};
ghost use mathlib.Core.List.{IsPrefix};
ghost use Rattle.rtrb.specs.Ring.{SameConsumer, known_items};
ghost use Rattle.lane_rings.specs.Intakes.{handed, inside};

use crate::intake::Intake;
use evt_types::Delivery;
use std::marker::Model;

/// How many deliveries there is room for.
const MOST: usize = 64;

/// Deliveries, oldest first, with room for 64. Those that come out of a ring are copied once, to where they stay: to empty the row
/// writes nothing but its length.
#[derive(Drop)]
pub struct Deliveries {
    places: [Delivery; MOST],
    len: usize,
}

impl Model for Deliveries {
    ghost use Rattle.std.specs.Prelude.{◌≡◌, ◌≤◌, length, take};
    ghost use Rattle.lane_rings.specs.Deliveries.{Row};

    ghost Value = { Row };

    ghost view = { λ a. record { items = take a.len a.places } };

    ghost invariant = { λ a. (a.len ≤ 64) × (length a.places ≡ 64) };
}

/// Takes at most `most` out of the ring of the intake, past its batch, in which nothing is, to the places behind so many: how many.
#[inline(always)]
fn pop_behind(
    places: &mut [Delivery],
    there: usize,
    from: &mut Intake<Delivery>,
    most: usize,
) -> usize
    requires none { inside from.old ≡ [] }
    requires within { there ≤ length places.old }
    ensures ring { SameConsumer from.old.ring from.new.ring }
    ensures none { inside from.new ≡ [] }
    ensures front { take there places.new ≡ take there places.old }
    ensures handed { handed from.new ≡ handed from.old ++ take result (drop there places.new) }
    ensures few { (result ≤ most) × (there + result ≤ length places.old) }
    ensures known { IsPrefix (known_items from.old.ring) (take result (drop there places.new) ++ known_items from.new.ring) }
    ensures short { result < most → there + most ≤ length places.old → known_items from.new.ring ≡ [] }
    ensures places { length places.new ≡ length places.old }
{
    let (_, free) = places.split_at_mut(there);
    from.pass_row(free, most)
}

impl Deliveries {
    /// None.
    pub fn new() -> Deliveries
        ensures { result.items ≡ [] }
    {
        Deliveries {
            places: [Delivery::default(); MOST],
            len: 0,
        }
    }

    /// How many there are.
    #[inline(always)]
    pub fn len(&self) -> usize
        ensures len { result ≡ length self.now.items }
        ensures within { result ≤ 64 }
    {
        self.len
    }

    /// All of them.
    #[inline(always)]
    pub fn as_slice(&self) -> &[Delivery]
        ensures { result.now ≡ self.now.items }
    {
        &self.places[..self.len]
    }

    /// All leave.
    #[inline(always)]
    pub fn clear(&mut self)
        ensures { self.new.items ≡ [] }
    {
        self.len = 0;
    }

    /// One more.
    #[inline(always)]
    pub(crate) fn push(&mut self, delivery: Delivery)
        requires { length self.old.items < 64 }
        ensures { self.new.items ≡ self.old.items ++ delivery ∷ [] }
    {
        self.places[self.len] = delivery;
        self.len += 1;
    }

    /// Takes at most `most` out of the ring of the intake, past its batch, in which nothing is.
    #[inline(always)]
    pub(crate) fn take_row(&mut self, from: &mut Intake<Delivery>, most: usize)
        requires none { inside from.old ≡ [] }
        requires room { length self.old.items + most ≤ 64 }
        ensures ring { SameConsumer from.old.ring from.new.ring }
        ensures none { inside from.new ≡ [] }
        ensures kept { self.new.items ≡ self.old.items ++ drop (length self.old.items) self.new.items }
        ensures handed { handed from.new ≡ handed from.old ++ drop (length self.old.items) self.new.items }
        ensures few { length self.new.items ≤ length self.old.items + most }
        ensures known { IsPrefix (known_items from.old.ring) (drop (length self.old.items) self.new.items ++ known_items from.new.ring) }
        ensures short { length self.new.items < length self.old.items + most → known_items from.new.ring ≡ [] }
    {
        self.len += pop_behind(&mut self.places, self.len, from, most);
    }
}
