//! The writing side of a ring.

ghost use Rattle.std.specs.Prelude.{◌≡◌, ◌+◌, ◌≤◌, ◌++◌, length};
ghost use Rattle.rtrb.specs.Ring.{sent, known_free, SameProducer};

use rtrb::Producer;

/// A ring's producer, and how many of its slots are free at least.
#[derive(Drop)]
pub(crate) struct Outlet<T> {
    pub(crate) ring: Producer<T>,
    /// So many slots at least are free. The ring works this out of two places at each question.
    pub(crate) free: usize,
    pub(crate) ghost known: { free ≤ known_free ring },
}

impl<T: Copy> Outlet<T> {
    ghost use Rattle.std.specs.Prelude.{◌≡◌, ◌+◌, ◌<◌, ◌≤◌, [], ◌∷◌, ◌++◌, length, IsTrue, IsFalse};
    ghost use Rattle.rtrb.specs.Ring.{sent, producer_capacity, SameProducer};
    ghost use Rattle.lane_rings.specs.Outlets.{put_in, room_of};

    /// Nothing went into a new ring.
    pub(crate) fn new(ring: Producer<T>) -> Outlet<T>
        requires { sent ring ≡ [] }
        ensures ring { result.ring ≡ ring }
        ensures lists { put_in result ≡ [] }
    {
        Outlet { ring, free: 0 }
    }

    /// Puts one item into the ring, for which there is room: it is copied there, and nowhere before.
    #[inline(always)]
    pub(crate) fn put_one(&mut self, item: T)
        requires room { 0 < room_of self.old }
        ensures ring { SameProducer self.old.ring self.new.ring }
        ensures put { put_in self.new ≡ put_in self.old ++ item ∷ [] }
        ensures room { room_of self.new + 1 ≡ room_of self.old }
    {
        self.ring.push_reserved(item);
        self.free -= 1;
    }

    /// Puts items into the ring, by one store, for which there is room: they are copied there, and nowhere before.
    #[inline(always)]
    pub(crate) fn put_all(&mut self, items: &[T])
        requires room { length items.now ≤ room_of self.old }
        ensures ring { SameProducer self.old.ring self.new.ring }
        ensures put { put_in self.new ≡ put_in self.old ++ items.now }
        ensures room { room_of self.new + length items.now ≡ room_of self.old }
    {
        push_all(&mut self.ring, items);
        self.free -= items.len();
    }

    /// Whether there is a free slot. The other end's progress is looked at only where what was known to be free is used up.
    #[inline(always)]
    pub(crate) fn has_room(&mut self) -> bool
        ensures ring { SameProducer self.old.ring self.new.ring }
        ensures put { put_in self.new ≡ put_in self.old }
        ensures room { IsTrue result → 0 < room_of self.new }
        ensures full { IsFalse result → producer_capacity self.old.ring ≤ length (put_in self.old) }
    {
        self.free > 0 || self.look() > 0
    }

    /// How many slots are free at least, as a look at the ring shows.
    #[cold]
    pub(crate) fn look(&mut self) -> usize
        ensures ring { SameProducer self.old.ring self.new.ring }
        ensures put { put_in self.new ≡ put_in self.old }
        ensures room { result ≡ room_of self.new }
        ensures more { room_of self.old ≤ room_of self.new }
        ensures all { producer_capacity self.old.ring ≤ length (put_in self.new) + result }
    {
        self.free = self.ring.slots();
        self.free
    }
}

/// Puts the items into the ring, which has free slots for them, by one store. A single item goes without the loops over a row.
#[inline(always)]
#[tactic(auto, using(crate::proofs::Singles::of_singles))]
fn push_all<T: Copy>(ring: &mut Producer<T>, items: &[T])
    requires { length items.now ≤ known_free ring.old }
    ensures ring { SameProducer ring.old ring.new }
    ensures sent { sent ring.new ≡ sent ring.old ++ items.now }
    ensures free { known_free ring.old ≤ known_free ring.new + length items.now }
{
    if items.len() == 1 {
        ring.push_reserved(items[0]);
        return;
    }
    let Ok(()) = ring.push_entire_slice(items) else {
        unreachable!()
    };
}
