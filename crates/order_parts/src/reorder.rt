//! The reorder buffer of an ordered queue.

ghost use Rattle.std.specs.Prelude.{◌≡◌, ◌≢◌, ◌↔◌, false, ◌+◌, ◌*◌, ◌%◌, ◌^◌, ◌<◌, ◌≤◌, ◌++◌, All, MatchOption, Some, length, nat_lt, option_copied, None, slice_get, slice_index_or, option_map, take, IfNone, IfOk, IfSome, IsTrue};
ghost use Rattle.order_parts.specs.InTurn.{AreInTurn, EndsTurn};
ghost use Rattle.order_parts.specs.Released.{answered_front, kept_in_places, released_all, without_answered};
ghost use Rattle.order_parts.specs.Rows.{kept_by};
ghost use Rattle.order_parts.specs.Unpinned.{IsOfQueue};
ghost use Rattle.order_parts.specs.declared.history.Entry.{Entry as EntryValue};
ghost use Rattle.order_parts.specs.Reorder.{HasFew, after_add, after_hand, after_keep, after_leave, after_resolve, empty, is_done, is_open, kept_of, left, left_plain, next_number, oldest_answered, open_place, place_at, place_or_open, without_first, without_oldest, wrapped};

use crate::history::History;
use arrayvec::ArrayVec;
use circular_buffer::HeapCircularBuffer;
use evt_types::{MAX_EXTRAS, MAX_FORWARDS, Memory, Numbered, PackedEvent};
use std::alloc::Global;
use std::marker::Model;

/// A place: the number of the event that was handed out, how many events the place keeps, and whether its event is answered.
#[derive(Clone, Copy)]
pub(crate) struct Handed {
    number: u64,
    kept: usize,
    pub(crate) answered: bool,
}

/// The reorder buffer of an ordered queue: a ring of places, in the order in which its events were handed out. They are
/// resolved in any order, and leave in that one.
#[derive(Drop)]
pub struct Reorder {
    pub(crate) ring: HeapCircularBuffer<Handed>,
    first: u64,
    /// A row of `MAX_FORWARDS` for the events that each place keeps: those that were added and behind them the forward. The
    /// rows turn with the ring. They stand apart, so that a place whose event is released costs no more than its words.
    rows: Vec<PackedEvent>,
    /// The row of the oldest place.
    first_row: usize,
    /// How many events all places keep.
    kept: usize,
}

impl Model for Reorder {
    ghost use Rattle.order_parts.specs.Reorder.{Reordering, places_by, rows_from};

    ghost Value = { Reordering };

    ghost use Rattle.order_parts.specs.Rows.{HasRows};

    ghost view = { λ a. record { first = a.first; places = places_by (rows_from a.rows.items a.ring.capacity a.first_row) a.ring.items; depth = a.ring.capacity } };

    ghost invariant = { HasRows };
}

/// Where a row that is less than twice around is.
fn around(row: usize, rows: usize) -> usize
    ensures { result ≡ wrapped rows row }
{
    if row < rows { row } else { row - rows }
}

/// How many events the place keeps, where there is one.
#[inline(always)]
fn kept_by(place: Option<Handed>) -> usize
    ensures { result ≡ kept_by place }
{
    match place {
        Some(handed) => handed.kept,
        None => 0,
    }
}

/// The events that leave with a place.
fn passed_on(kept: &[PackedEvent]) -> ArrayVec<PackedEvent, MAX_FORWARDS>
    requires { length kept.now ≤ MAX_FORWARDS }
    ensures { result.items ≡ kept.now }
{
    let mut events = ArrayVec::new();
    let _ = events.try_extend_from_slice(kept);
    events
}

impl Reorder {
    /// A buffer without places, with room for so many.
    pub fn new(alloc: Global, depth: usize) -> Result<Reorder, Memory>
        ensures { IfOk result (λ r. r ≡ empty depth) }
    {
        let ring = HeapCircularBuffer::with_capacity(alloc, depth)?;
        // More events than can be counted are asked for as the most that can be, which no memory has.
        let room = depth.checked_mul(MAX_FORWARDS).unwrap_or(usize::MAX);
        let rows = vec![in alloc; PackedEvent::default(); room]?;
        Ok(Reorder {
            ring,
            first: 0,
            rows,
            first_row: 0,
            kept: 0,
        })
    }

    /// Whether there is room for a place more.
    pub fn room(&self) -> bool
        ensures value { result ≡ nat_lt (length self.now.places) self.now.depth }
        ensures within { (length self.now.places ≤ self.now.depth) × (self.now.depth < 2 ^ 63) }
        ensures few { All HasFew self.now.places }
    {
        self.ring.len() < self.ring.capacity()
    }

    /// How many places more there is room for.
    pub fn free(&self) -> usize
        ensures { result + length self.now.places ≡ self.now.depth }
    {
        self.ring.capacity() - self.ring.len()
    }

    /// How many events the place at this index, counted from the oldest, keeps.
    pub fn kept_count(&self, index: usize) -> usize
        ensures value { result ≡ length (slice_index_or self.now.places index (open_place 0)).forwards }
        ensures within { result ≤ MAX_FORWARDS }
    {
        match self.ring.get(index) {
            Some(handed) => handed.kept,
            None => 0,
        }
    }

    /// The `nth` event that the place at this index, counted from the oldest, keeps, under the number of the place's event:
    /// those that were added come first, in order, and then what that was forwarded as.
    pub fn kept_at(&self, index: usize, nth: usize) -> Option<Numbered>
        ensures { result ≡ slice_get (kept_of (slice_index_or self.now.places index (open_place 0))) nth }
    {
        let handed = self.ring.get(index)?;
        if nth >= handed.kept {
            return None;
        }
        let number = handed.number;
        let row = around(self.first_row + index, self.ring.capacity());
        let event = self.rows[MAX_FORWARDS * row + nth];
        Some(Numbered { number, event })
    }

    /// An event is handed out: it gets the next place, whose number is the answer.
    pub fn hand(&mut self, number: u64) -> u64
        requires { length self.old.places < self.old.depth }
        ensures value { result ≡ next_number self.old }
        ensures handed { self.new ≡ after_hand self.old number }
    {
        let place = self.first.wrapping_add(self.ring.len() as u64);
        self.ring.push_back(Handed {
            number,
            kept: 0,
            answered: false,
        });
        place
    }

    /// An event is added beside that of the place, which stays unanswered: it goes behind those that were added before.
    pub fn add(&mut self, place: u64, event: PackedEvent)
        requires open { IsTrue (is_open (place_at self.old place)) }
        requires room { length (place_or_open self.old place).forwards < MAX_EXTRAS }
        ensures { self.new ≡ after_add self.old place event }
    {
        self.keep(place, &event, false);
    }

    /// The place keeps an event more, behind those that it keeps: the event of the place is answered by it, or it was added.
    #[inline(always)]
    fn keep(&mut self, place: u64, event: &PackedEvent, answered: bool)
        requires open { IsTrue (is_open (place_at self.old place)) }
        requires room { answered ≡ false → length (place_or_open self.old place).forwards < MAX_EXTRAS }
        ensures { self.new ≡ after_keep self.old place event.now answered }
    {
        let index = place.wrapping_sub(self.first) as usize;
        let count = self.ring.capacity();
        if let Some(handed) = self.ring.get_mut(index) {
            let row = around(self.first_row + index, count);
            self.rows[MAX_FORWARDS * row + handed.kept] = *event;
            handed.kept += 1;
            handed.answered = answered;
            self.kept += 1;
        }
    }

    /// The event of the place is answered, by a forward or by its release.
    #[inline(always)]
    pub fn resolve(&mut self, place: u64, forward: Option<&PackedEvent>)
        requires { IsTrue (is_open (place_at self.old place)) }
        ensures { self.new ≡ after_resolve self.old place (option_copied forward.entry) }
    {
        match forward {
            Some(event) => self.keep(place, event, true),
            None => self.release(place),
        }
    }

    /// The event of the place is answered by its release.
    #[inline(always)]
    fn release(&mut self, place: u64)
        ensures { self.new ≡ after_resolve self.old place None }
    {
        let index = place.wrapping_sub(self.first) as usize;
        if let Some(handed) = self.ring.get_mut(index) {
            handed.answered = true;
        }
    }

    /// The oldest place leaves, where it is resolved: its event's number, and what it was passed on as, in order: the events
    /// that were added, and then the forward.
    pub fn leave(&mut self) -> Option<(u64, ArrayVec<PackedEvent, MAX_FORWARDS>)>
        ensures value { option_map left result ≡ oldest_answered self.old.places }
        ensures rest { self.new ≡ after_leave self.old }
    {
        let oldest = self.ring.front().copied()?;
        if !oldest.answered {
            return None;
        }
        let row = MAX_FORWARDS * self.first_row;
        let events = passed_on(&self.rows[row..row + oldest.kept]);
        self.advance();
        Some((oldest.number, events))
    }

    /// The quick way to `leave`, which serves in any case, for a place that keeps one event at most: either it does as that
    /// would, or it gives nothing and changes nothing. So where this gives nothing, the oldest place may still leave. It says
    /// whether an event is kept, and copies that from where it lies to `event`: an answer that holds it would be taken apart
    /// and put together again.
    #[inline(always)]
    pub fn leave_plain(&mut self, event: &mut PackedEvent) -> Option<(u64, bool)>
        ensures left { MatchOption result (self.new ≡ self.old) (λ r. (oldest_answered self.old.places ≡ Some (left_plain r.0 r.1 event.new)) × (self.new ≡ after_leave self.old)) }
        ensures same { IfNone result (event.new ≡ event.old) }
        ensures bare { IfSome result (λ r. r.1 ≡ false → event.new ≡ event.old) }
    {
        let plain = self.ring.front()?;
        if !plain.answered || plain.kept > 1 {
            return None;
        }
        let number = plain.number;
        if plain.kept == 0 {
            self.advance();
            return Some((number, false));
        }
        *event = self.rows[MAX_FORWARDS * self.first_row];
        self.advance();
        Some((number, true))
    }

    /// Of these events, no more than so many, how many have the oldest places in turn, from the oldest on.
    #[inline(always)]
    pub(crate) fn in_turn(&self, queue: usize, history: &History, most: usize) -> usize
        requires { most ≤ length history.now.entries }
        ensures few { result ≤ most }
        ensures turn { AreInTurn queue self.now (take result history.now.entries) }
        ensures all { result < most → EndsTurn queue self.now result history.now.entries }
    {
        for index in 0..most {
            let entry = history.entry(index);
            if entry.queue != queue || entry.place != self.first.wrapping_add(index as u64) {
                return index;
            }
        }
        most
    }

    /// Whether the place at this index, counted from the oldest, is there and answered.
    #[inline(always)]
    pub(crate) fn is_answered(&self, index: usize) -> bool
        ensures { result ≡ is_done (slice_get self.now.places index) }
    {
        match self.ring.get(index) {
            Some(handed) => handed.answered,
            None => false,
        }
    }

    /// Whether no place keeps an event.
    #[inline(always)]
    pub(crate) fn is_bare(&self) -> bool
        ensures { IsTrue result ↔ (kept_in_places self.now.places ≡ 0) }
    {
        self.kept == 0
    }

    /// The oldest entries' events are answered by their releases, as far as these are of the queue and no more than so many: how many.
    #[inline(always)]
    fn release_entries(&mut self, queue: usize, history: &History, most: usize) -> usize
        requires { most ≤ length history.now.entries }
        ensures few { result ≤ most }
        ensures each { All (IsOfQueue queue) (take result history.now.entries) }
        ensures last { result < most → (y : EntryValue) × (slice_get history.now.entries result ≡ Some y) × (y.queue ≢ queue) }
        ensures released { self.new ≡ released_all self.old (take result history.now.entries) }
    {
        for index in 0..most {
            let entry = history.entry(index);
            if entry.queue != queue {
                return index;
            }
            self.release(entry.place);
        }
        most
    }

    /// How many places in a row are answered, from the oldest on.
    #[inline(always)]
    fn answered_count(&self) -> usize
        ensures value { result ≡ length (answered_front self.now.places) }
        ensures within { result ≤ length self.now.places }
    {
        let most = self.ring.len();
        for index in 0..most {
            if !self.is_answered(index) {
                return index;
            }
        }
        most
    }

    /// The oldest entries' events are answered by their releases, as far as these are of the queue and no more than so many: how many.
    /// Then the places leave that are answered, from the oldest on.
    #[inline(always)]
    pub(crate) fn release_oldest(&mut self, queue: usize, history: &History, most: usize) -> usize
        requires { most ≤ length history.now.entries }
        ensures few { result ≤ most }
        ensures each { All (IsOfQueue queue) (take result history.now.entries) }
        ensures last { result < most → (y : EntryValue) × (slice_get history.now.entries result ≡ Some y) × (y.queue ≢ queue) }
        ensures released { self.new ≡ without_answered (released_all self.old (take result history.now.entries)) }
    {
        let count = self.release_entries(queue, history, most);
        let answered = self.answered_count();
        self.drop_oldest(answered);
        count
    }

    /// So many of the oldest places leave.
    #[inline(always)]
    pub(crate) fn drop_oldest(&mut self, count: usize)
        requires { count ≤ length self.old.places }
        ensures { self.new ≡ without_first self.old count }
    {
        if self.is_bare() {
            self.drop_bare(count);
            return;
        }
        for _ in 0..count {
            self.advance();
        }
    }

    /// So many of the oldest places leave, at once, since no place keeps an event.
    #[inline(always)]
    fn drop_bare(&mut self, count: usize)
        requires few { count ≤ length self.old.places }
        requires bare { kept_in_places self.old.places ≡ 0 }
        ensures { self.new ≡ without_first self.old count }
    {
        let rest = self.ring.len() - count;
        self.ring.truncate_front(rest);
        self.first = self.first.wrapping_add(count as u64);
        self.first_row = around(self.first_row + count, self.ring.capacity());
    }

    /// The oldest place leaves.
    #[inline(always)]
    fn advance(&mut self)
        requires { 0 < length self.old.places }
        ensures { self.new ≡ without_oldest self.old }
    {
        let oldest = self.ring.pop_front();
        self.kept -= kept_by(oldest);
        self.first = self.first.wrapping_add(1);
        self.first_row = around(self.first_row + 1, self.ring.capacity());
    }
}
