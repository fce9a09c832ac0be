//! Worked calls. Each container is made again where memory was refused, and serves then as ever.

ghost use Rattle.std.specs.Prelude.{◌≡◌, ◌<◌, ◌≤◌, [], replicate, IfOk};
ghost use Rattle.order_parts.specs.History.{entries_of};
ghost use Rattle.order_parts.specs.Pins.{free};
ghost use Rattle.order_parts.specs.Reorder.{after_leave, empty};

use evt_types::{Event, Numbered, Op, PackedEvent};
use order_parts::{Entry, History, Memory, Pins, Reorder};
use std::alloc::Global;
use std::test::Fail;

fn pins_of(alloc: Global, slots: usize) -> Result<Pins, Memory>
    requires { slots ≤ 64 }
    ensures { IfOk result (λ p. p ≡ replicate slots free) }
{
    match Pins::new(alloc, slots) {
        Ok(pins) => Ok(pins),
        Err(_) => Pins::new(alloc, slots),
    }
}

fn reorder_of(alloc: Global, depth: usize) -> Result<Reorder, Memory>
    ensures { IfOk result (λ r. r ≡ empty depth) }
{
    match Reorder::new(alloc, depth) {
        Ok(reorder) => Ok(reorder),
        Err(_) => Reorder::new(alloc, depth),
    }
}

fn history_of(alloc: Global, capacity: usize) -> Result<History, Memory>
    ensures { IfOk result (λ h. h ≡ entries_of [] capacity) }
{
    match History::new(alloc, capacity) {
        Ok(history) => Ok(history),
        Err(_) => History::new(alloc, capacity),
    }
}

/// An event as a port forwards it, and events that it adds.
const FORWARD: Event = event_of!(Forward, 7, 128, 1);

const FIRST: Event = event_of!(ForwardMore, 7, 128, 10);

const SECOND: Event = event_of!(ForwardMore, 7, 128, 11);

#[test]
fn a_slot_is_free_once_all_are_answered(rt: HostRuntime) -> Result<(), Fail> {
    let mut pins = pins_of(rt.alloc(), 1)?;
    pins.pin(0, 2);
    let held = (pins.may(0, 1), pins.may(0, 2));
    pins.unpin(0);
    assert_eq!(rt;
        (pins.slots(), held, pins.may(0, 1)),
        (1, (false, true), true)
    );
    Ok(())
}

/// Whether these are the events.
fn are_events(events: &[PackedEvent], wanted: &[Event]) -> bool {
    for (event, other) in events.iter().zip(wanted.iter()) {
        if event.unpack() != *other {
            return false;
        }
    }
    events.len() == wanted.len()
}

/// Whether a place leaves that had this number and was passed on as these events, or none leaves.
fn leaves(reorder: &mut Reorder, wanted: Option<(u64, &[Event])>) -> bool
    ensures { reorder.new ≡ after_leave reorder.old }
{
    match (reorder.leave(), wanted) {
        (Some((number, events)), Some((other, all))) => {
            number == other && are_events(events.as_slice(), all)
        }
        (None, None) => true,
        _ => false,
    }
}

#[test]
fn the_oldest_place_leaves_first(rt: HostRuntime) -> Result<(), Fail> {
    let mut reorder = reorder_of(rt.alloc(), 2)?;
    let handed = (reorder.hand(5), reorder.hand(6), reorder.room());
    reorder.resolve(1, None);
    let early = leaves(&mut reorder, None);
    reorder.resolve(0, None);
    let left = [
        early,
        leaves(&mut reorder, Some((5, &[]))),
        leaves(&mut reorder, Some((6, &[]))),
        leaves(&mut reorder, None),
    ];
    assert_eq!(rt; (handed, left), ((0, 1, false), [true; 4]));
    Ok(())
}

#[test]
fn added_events_leave_before_the_forward(rt: HostRuntime) -> Result<(), Fail> {
    let mut reorder = reorder_of(rt.alloc(), 1)?;
    reorder.hand(5);
    reorder.add(0, PackedEvent::of(&FIRST));
    reorder.add(0, PackedEvent::of(&SECOND));
    let early = leaves(&mut reorder, None);
    reorder.resolve(0, Some(&PackedEvent::of(&FORWARD)));
    let kept = (
        reorder.kept_count(0),
        reorder.kept_at(0, 1),
        reorder.kept_at(0, 3),
    );
    let all = leaves(&mut reorder, Some((5, &[FIRST, SECOND, FORWARD])));
    let second = Numbered {
        number: 5,
        event: PackedEvent::of(&SECOND),
    };
    assert_eq!(rt; (kept, [early, all]), ((3, Some(second), None), [true; 2]));
    Ok(())
}

const ENTRY: Entry = Entry {
    queue: 3,
    number: 8,
    slot: 1,
    place: 5,
};

#[test]
fn the_oldest_entry_is_popped(rt: HostRuntime) -> Result<(), Fail> {
    let mut history = history_of(rt.alloc(), 1)?;
    let was_empty = history.is_empty();
    history.push(ENTRY);
    let held = (was_empty, history.is_full(), history.oldest());
    let popped = (history.pop(), history.len(), history.pop());
    assert_eq!(rt; held, (true, true, Some(ENTRY)));
    assert_eq!(rt; popped, (Some(ENTRY), 0, None));
    Ok(())
}

/// Without room nothing can be handed out or pushed, and what reads finds nothing.
#[test]
fn nothing_fits_without_room(rt: HostRuntime) -> Result<(), Fail> {
    let mut reorder = reorder_of(rt.alloc(), 0)?;
    let mut history = history_of(rt.alloc(), 0)?;
    assert_eq!(rt; (reorder.room(), leaves(&mut reorder, None)), (false, true));
    let both = (history.is_full(), history.is_empty());
    assert_eq!(rt; (both, history.pop()), ((true, true), None));
    assert_eq!(rt; pins_of(rt.alloc(), 0)?.slots(), 0);
    Ok(())
}
