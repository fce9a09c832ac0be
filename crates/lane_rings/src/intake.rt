//! The reading side of a ring: one look takes out what is there, and what was taken out is handed out one by one or as a row.

ghost use Rattle.std.specs.Prelude.{◌≡◌, ◌<◌, ◌≤◌, ◌-◌, [], ◌++◌, length, take, max, IsTrue};
ghost use mathlib.Core.List.{IsPrefix};
ghost use Rattle.rtrb.specs.Ring.{received, known_items, consumer_capacity, SameConsumer};
ghost use Rattle.lane_rings.specs.Batches.{between};

use rtrb::Consumer;
use std::alloc::{AllocError, Global};

/// A ring's consumer, and what it has popped and not handed out: what lies before `at` has left, and from `end` on there are fillers.
#[derive(Drop)]
pub(crate) struct Intake<T> {
    pub(crate) ring: Consumer<T>,
    places: Vec<T>,
    at: usize,
    end: usize,
    ghost within: { (at ≤ end) × (end ≤ length places.items) },
    ghost room: { length places.items ≡ max 1 (consumer_capacity ring) },
    ghost last: { received ring ≡ take (length (received ring) - length (between at end places.items)) (received ring) ++ between at end places.items },
}

impl<T: Copy> Intake<T> {
    ghost use Rattle.std.specs.Prelude.{◌≡◌, ◌≢◌, ◌<◌, ◌≤◌, true, [], ◌∷◌, ◌++◌, length, drop, take, IsFalse, IsTrue, IfNone, IfOk, IfSome, MatchOption};
    ghost use mathlib.Core.List.{IsPrefix};
    ghost use Rattle.rtrb.specs.Ring.{received, known_items, consumer_capacity, SameConsumer};
    ghost use Rattle.lane_rings.specs.Intakes.{inside, handed, ahead};

    /// Nothing is handed out of a new ring.
    pub(crate) fn new(alloc: Global, ring: Consumer<T>, filler: T) -> Result<Intake<T>, AllocError>
        requires { received ring ≡ [] }
        ensures ring { IfOk result (λ i. i.ring ≡ ring) }
        ensures lists { IfOk result (λ i. (handed i ≡ []) × (ahead i ≡ known_items ring)) }
    {
        // One place at least, so that an empty batch tells that nothing was there.
        let places = vec![in alloc; filler; ring.capacity().max(1)]?;
        Ok(Intake {
            ring,
            places,
            at: 0,
            end: 0,
        })
    }

    /// Where nothing is in the batch, takes at most `most` items out of the ring, by one store; where something is, it only looks at the
    /// ring. Whether something is in the batch then. A ring that shows nothing costs one load, and a single item goes without the loops over a row.
    #[inline(always)]
    #[tactic(auto, using(crate::proofs::Fetching::of_looks))]
    pub(crate) fn look(&mut self, most: usize) -> bool
        ensures ring { SameConsumer self.old.ring self.new.ring }
        ensures handed { handed self.new ≡ handed self.old }
        ensures ahead { IsPrefix (ahead self.old) (ahead self.new) }
        ensures some { IsTrue result → inside self.new ≢ [] }
        ensures nothing { IsFalse result → inside self.new ≡ [] }
        ensures none { 0 < most → inside self.new ≡ [] → ahead self.new ≡ [] }
        ensures few { inside self.old ≡ [] → length (inside self.new) ≤ most }
        ensures stays { inside self.old ≢ [] → inside self.new ≡ inside self.old }
    {
        if self.at != self.end {
            self.ring.slots();
            return true;
        }
        let there = self.ring.slots();
        if there == 0 || most == 0 {
            return false;
        }
        self.at = 0;
        if there == 1 {
            // Copied from where it lies: what a pop gives would be moved three times.
            self.places[0] = *self.ring.peek_known();
            let _ = self.ring.pop_known();
            self.end = 1;
            return true;
        }
        self.end = pop_row(&mut self.ring, &mut self.places, most.min(there));
        self.end != 0
    }

    /// Looks at the ring: how many items it shows.
    #[inline(always)]
    pub(crate) fn there(&mut self) -> usize
        ensures ring { SameConsumer self.old.ring self.new.ring }
        ensures handed { (handed self.new ≡ handed self.old) × (inside self.new ≡ inside self.old) }
        ensures ahead { IsPrefix (ahead self.old) (ahead self.new) }
        ensures value { result ≡ length (known_items self.new.ring) }
    {
        self.ring.slots()
    }

    /// The first item that the ring showed, where it lies.
    #[inline(always)]
    pub(crate) fn first_there(&self) -> &T
        requires { 0 < length (known_items self.now.ring) }
        ensures { known_items self.now.ring ≡ result.now ∷ drop 1 (known_items self.now.ring) }
    {
        self.ring.peek_known()
    }

    /// The first item that the ring showed leaves past the batch, in which nothing is.
    #[inline(always)]
    pub(crate) fn pass_there(&mut self)
        requires some { 0 < length (known_items self.old.ring) }
        requires none { inside self.old ≡ [] }
        ensures ring { SameConsumer self.old.ring self.new.ring }
        ensures handed { handed self.new ≡ handed self.old ++ take 1 (known_items self.old.ring) }
        ensures batch { inside self.new ≡ [] }
        ensures known { known_items self.new.ring ≡ drop 1 (known_items self.old.ring) }
    {
        let _ = self.ring.pop_known();
    }

    /// At most `most` items leave past the batch, in which nothing is, to the first of these places, by one store: how many.
    #[inline(always)]
    pub(crate) fn pass_row(&mut self, places: &mut [T], most: usize) -> usize
        requires none { inside self.old ≡ [] }
        ensures ring { SameConsumer self.old.ring self.new.ring }
        ensures handed { handed self.new ≡ handed self.old ++ take result places.new }
        ensures batch { inside self.new ≡ [] }
        ensures known { IsPrefix (known_items self.old.ring) (take result places.new ++ known_items self.new.ring) }
        ensures short { result < most → most ≤ length places.old → known_items self.new.ring ≡ [] }
        ensures few { (result ≤ most) × (result ≤ length places.old) }
        ensures places { length places.new ≡ length places.old }
    {
        let room = most.min(places.len());
        let there = self.there();
        if there == 0 || room == 0 {
            return 0;
        }
        if there == 1 {
            // Without the loops over a row.
            places[0] = *self.first_there();
            self.pass_there();
            return 1;
        }
        pop_row(&mut self.ring, places, room)
    }

    /// Whether something is in the batch or was seen in the ring.
    #[inline(always)]
    pub(crate) fn sees(&self) -> bool
        ensures some { IsTrue result → ahead self.now ≢ [] }
        ensures none { IsFalse result → ahead self.now ≡ [] }
    {
        self.at != self.end || self.ring.cached_slots() != 0
    }

    /// The oldest item of the batch, which leaves.
    #[tactic(auto, using(crate::proofs::Handing::of_rows))]
    pub(crate) fn next(&mut self) -> Option<T>
        ensures ring { SameConsumer self.old.ring self.new.ring × (known_items self.new.ring ≡ known_items self.old.ring) }
        ensures handed { handed self.new ≡ handed self.old ++ take 1 (inside self.old) }
        ensures batch { inside self.new ≡ drop 1 (inside self.old) }
        ensures value { MatchOption result (inside self.old ≡ []) (λ x. inside self.old ≡ x ∷ inside self.new) }
    {
        if self.at == self.end {
            return None;
        }
        let first = self.places[self.at];
        self.at += 1;
        Some(first)
    }

    /// The oldest item of the batch where it lies.
    #[tactic(auto, using(crate::proofs::Handing::of_rows))]
    pub(crate) fn first(&self) -> Option<&T>
        ensures none { IfNone result (inside self.now ≡ []) }
        ensures first { IfSome result (λ x. inside self.now ≡ x.now ∷ drop 1 (inside self.now)) }
    {
        if self.at == self.end {
            return None;
        }
        Some(&self.places[self.at])
    }

    /// All of the batch, oldest first, where it lies.
    #[inline(always)]
    pub(crate) fn batch(&self) -> &[T]
        ensures { result.now ≡ inside self.now }
    {
        &self.places[self.at..self.end]
    }

    /// The first items of the batch leave, so many.
    #[inline(always)]
    pub(crate) fn skip(&mut self, count: usize)
        requires { count ≤ length (inside self.old) }
        ensures ring { SameConsumer self.old.ring self.new.ring × (known_items self.new.ring ≡ known_items self.old.ring) }
        ensures handed { handed self.new ≡ handed self.old ++ take count (inside self.old) }
        ensures batch { inside self.new ≡ drop count (inside self.old) }
    {
        self.at += count;
    }

    /// The oldest item that was seen, which leaves.
    #[tactic(auto, using(crate::proofs::Handing::of_handing))]
    pub(crate) fn next_seen(&mut self) -> Option<T>
        ensures ahead { MatchOption result
            ((ahead self.old ≡ []) × (ahead self.new ≡ []))
            (λ x. ahead self.old ≡ x ∷ ahead self.new) }
    {
        let first = self.next();
        if first.is_some() || self.ring.cached_slots() == 0 {
            return first;
        }
        Some(self.ring.pop_known())
    }
}

/// Takes at most `most` items out of the ring, by one store, to the first of these places; how many.
#[tactic(auto, using(crate::proofs::Handing::of_rows))]
fn pop_row<T: Copy>(ring: &mut Consumer<T>, places: &mut [T], most: usize) -> usize
    ensures ring { SameConsumer ring.old ring.new }
    ensures received { received ring.new ≡ received ring.old ++ take result places.new }
    ensures known { IsPrefix (known_items ring.old) (take result places.new ++ known_items ring.new) }
    ensures none { 0 < length places.old → 0 < most → result ≡ 0 → known_items ring.new ≡ [] }
    ensures short { result < most → most ≤ length places.old → known_items ring.new ≡ [] }
    ensures few { (result ≤ most) × (result ≤ length places.old) }
    ensures places { length places.new ≡ length places.old }
{
    let count = most.min(places.len());
    let (front, _) = places.split_at_mut(count);
    ring.pop_partial_slice(front)
}
