//! What is gathered for a ring, to go into it at once.

ghost use Rattle.std.specs.Prelude.{◌≤◌, length, vec_capacity};
ghost use Rattle.rtrb.specs.Ring.{producer_capacity};

use crate::outlet::Outlet;
use rtrb::Producer;
use std::alloc::{AllocError, Global};

/// An outlet, and what was gathered for it: no more than its ring has free slots.
#[derive(Drop)]
pub(crate) struct Gathering<T> {
    pub(crate) outlet: Outlet<T>,
    pub(crate) batch: Vec<T>,
    pub(crate) ghost fits: { length batch.items ≤ outlet.free },
    ghost room: { producer_capacity outlet.ring ≤ vec_capacity batch },
}

impl<T: Copy> Gathering<T> {
    ghost use Rattle.std.specs.Prelude.{◌≡◌, ◌+◌, ◌<◌, ◌≤◌, [], ◌∷◌, ◌++◌, length, IfOk, IsTrue, IsFalse};
    ghost use Rattle.rtrb.specs.Ring.{sent, producer_capacity, SameProducer};
    ghost use Rattle.lane_rings.specs.Outlets.{all_put, kept_back, room_beside};

    /// Nothing went into a new ring, and nothing is gathered.
    pub(crate) fn new(alloc: Global, ring: Producer<T>) -> Result<Gathering<T>, AllocError>
        requires { sent ring ≡ [] }
        ensures ring { IfOk result (λ o. o.outlet.ring ≡ ring) }
        ensures lists { IfOk result (λ o. (all_put o ≡ []) × (kept_back o ≡ [])) }
    {
        let batch = Vec::with_capacity(alloc, ring.capacity())?;
        let outlet = Outlet::new(ring);
        Ok(Gathering { outlet, batch })
    }

    /// Gathers an item, which is copied once; false where the ring has no free slot for it.
    pub(crate) fn put(&mut self, item: &T) -> bool
        ensures ring { SameProducer self.old.outlet.ring self.new.outlet.ring }
        ensures ok { IsTrue result → all_put self.new ≡ all_put self.old ++ item.now ∷ [] }
        ensures refused { IsFalse result → all_put self.new ≡ all_put self.old }
        ensures full { IsFalse result → producer_capacity self.old.outlet.ring ≤ length (all_put self.old) }
    {
        if self.room() == 0 {
            return false;
        }
        self.gather(*item);
        true
    }

    /// Gathers an item, for which there is room.
    #[inline(always)]
    pub(crate) fn gather(&mut self, item: T)
        requires { 0 < room_beside self.old }
        ensures ring { SameProducer self.old.outlet.ring self.new.outlet.ring }
        ensures put { all_put self.new ≡ all_put self.old ++ item ∷ [] }
        ensures room { room_beside self.new + 1 ≡ room_beside self.old }
    {
        self.batch.push_reserved(item);
    }

    /// How many items more there is a free slot for, as far as that is known; it is looked at anew where no free slot is known.
    #[inline(always)]
    pub(crate) fn room(&mut self) -> usize
        ensures ring { SameProducer self.old.outlet.ring self.new.outlet.ring }
        ensures put { (all_put self.new ≡ all_put self.old) × (kept_back self.new ≡ kept_back self.old) }
        ensures room { result ≡ room_beside self.new }
        ensures full { result ≡ 0 → producer_capacity self.old.outlet.ring ≤ length (all_put self.old) }
    {
        self.room_for(1)
    }

    /// The same, where it is looked at anew where fewer than so many are known.
    #[inline(always)]
    pub(crate) fn room_for(&mut self, count: usize) -> usize
        ensures ring { SameProducer self.old.outlet.ring self.new.outlet.ring }
        ensures put { (all_put self.new ≡ all_put self.old) × (kept_back self.new ≡ kept_back self.old) }
        ensures room { result ≡ room_beside self.new }
        ensures full { 0 < count → result ≡ 0 → producer_capacity self.old.outlet.ring ≤ length (all_put self.old) }
    {
        if self.outlet.free - self.batch.len() < count {
            self.outlet.look();
        }
        self.outlet.free - self.batch.len()
    }

    /// Puts items into the ring, by one store, where nothing is gathered: they are copied there, and nowhere before.
    #[inline(always)]
    pub(crate) fn put_all(&mut self, items: &[T])
        requires room { length items.now ≤ room_beside self.old }
        requires none { kept_back self.old ≡ [] }
        ensures ring { SameProducer self.old.outlet.ring self.new.outlet.ring }
        ensures put { all_put self.new ≡ all_put self.old ++ items.now }
        ensures all { kept_back self.new ≡ [] }
    {
        self.outlet.put_all(items);
    }

    /// Puts what was gathered into the ring, by one store.
    pub(crate) fn flush(&mut self)
        ensures ring { SameProducer self.old.outlet.ring self.new.outlet.ring }
        ensures put { all_put self.new ≡ all_put self.old }
        ensures all { kept_back self.new ≡ [] }
    {
        if self.batch.is_empty() {
            return;
        }
        self.outlet.put_all(&self.batch);
        self.batch.clear();
    }
}
