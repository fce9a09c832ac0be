//! Worked calls of a queue's four lists. The lists are made again where memory was refused, and serve then as ever.

ghost use Rattle.std.specs.Prelude.{◌≡◌, IfOk};
ghost use Rattle.level_queues.specs.Lists.{no_events};

use evt_types::{Event, Numbered, Op, PackedEvent};
use level_queues::{Levels, Memory};
use std::alloc::Global;
use std::process::Abort;
use std::test::Fail;

fn levels_of(alloc: Global, capacity: usize) -> Result<Levels, Memory>
    ensures { IfOk result (λ l. l ≡ no_events capacity) }
{
    match Levels::new(alloc, capacity) {
        Ok(levels) => Ok(levels),
        Err(_) => Levels::new(alloc, capacity),
    }
}

/// An event that waits under this number.
fn waiting(number: u64, priority: u8) -> Numbered {
    let event = PackedEvent::of(&event_of!(New, 7, priority, number));
    Numbered { number, event }
}

/// What is done with the lists.
#[derive(Clone, Copy, Debug)]
enum Call {
    /// The event of this number and priority is pushed. It comes back where its level is full.
    Push(u64, u8),
    /// The event at this place of a level is read.
    At(usize, usize),
    /// The oldest event of a level leaves.
    Front(usize),
    /// The event at this place of a level leaves.
    Remove(usize, usize),
}

/// A call, the number and the priority of the event that comes of it, and how many events wait then in each level.
type Row = (Call, Option<(u64, u8)>, [usize; 4]);

/// The event that comes of a call.
fn made(levels: &mut Levels, call: Call) -> Option<Numbered> {
    match call {
        Call::Push(number, priority) => levels.push(waiting(number, priority)).err(),
        Call::At(level, place) if level < 4 => levels.at(level, place).copied(),
        Call::Front(level) if level < 4 => levels.remove_front(level),
        Call::Remove(level, place) if level < 4 => levels.remove_at(level, place),
        _ => None,
    }
}

/// How many events wait in each level.
fn lens(levels: &Levels) -> [usize; 4] {
    [levels.len(0), levels.len(1), levels.len(2), levels.len(3)]
}

/// Makes the calls on lists that have room for so many events each.
fn make_all<R: AllocGlobal + Abort>(rt: &R, capacity: usize, rows: &[Row]) -> Result<(), Fail> {
    let mut levels = levels_of(rt.alloc(), capacity)?;
    for (call, wanted, all) in rows {
        let came = made(&mut levels, *call);
        let wanted = wanted.map(|(number, priority)| waiting(number, priority));
        assert_eq!(rt; came, wanted, "{call:?}");
        assert_eq!(rt; lens(&levels), *all, "{call:?}");
    }
    Ok(())
}

/// Each level has its own room.
const OWN_ROOM: &[Row] = &[
    (Call::Push(0, 0), None, [1, 0, 0, 0]),
    (Call::Push(1, 64), None, [1, 1, 0, 0]),
    (Call::Push(2, 63), Some((2, 63)), [1, 1, 0, 0]),
    (Call::At(0, 0), Some((0, 0)), [1, 1, 0, 0]),
    (Call::Remove(1, 0), Some((1, 64)), [1, 0, 0, 0]),
    (Call::Front(0), Some((0, 0)), [0, 0, 0, 0]),
    (Call::Push(2, 63), None, [1, 0, 0, 0]),
    (Call::At(0, 0), Some((2, 63)), [1, 0, 0, 0]),
];

/// Priorities have their levels.
const PRIORITIES: &[Row] = &[
    (Call::Push(0, 0), None, [1, 0, 0, 0]),
    (Call::Push(1, 63), None, [2, 0, 0, 0]),
    (Call::Push(2, 64), None, [2, 1, 0, 0]),
    (Call::Push(3, 128), None, [2, 1, 1, 0]),
    (Call::Push(4, 255), None, [2, 1, 1, 1]),
    (Call::At(0, 0), Some((0, 0)), [2, 1, 1, 1]),
    (Call::At(0, 1), Some((1, 63)), [2, 1, 1, 1]),
    (Call::At(0, 2), None, [2, 1, 1, 1]),
    (Call::At(1, 0), Some((2, 64)), [2, 1, 1, 1]),
    (Call::At(1, 1), None, [2, 1, 1, 1]),
    (Call::At(2, 0), Some((3, 128)), [2, 1, 1, 1]),
    (Call::At(2, 1), None, [2, 1, 1, 1]),
    (Call::At(3, 0), Some((4, 255)), [2, 1, 1, 1]),
    (Call::At(3, 1), None, [2, 1, 1, 1]),
];

/// A list is read and changed as it goes round its ring.
const ROUND: &[Row] = &[
    (Call::Push(0, 128), None, [0, 0, 1, 0]),
    (Call::Push(1, 128), None, [0, 0, 2, 0]),
    (Call::Push(2, 128), None, [0, 0, 3, 0]),
    (Call::Push(3, 128), None, [0, 0, 4, 0]),
    (Call::Front(2), Some((0, 128)), [0, 0, 3, 0]),
    (Call::Remove(2, 1), Some((2, 128)), [0, 0, 2, 0]),
    (Call::Push(4, 128), None, [0, 0, 3, 0]),
    (Call::Push(5, 128), None, [0, 0, 4, 0]),
    (Call::Push(6, 128), Some((6, 128)), [0, 0, 4, 0]),
    (Call::Remove(2, 2), Some((4, 128)), [0, 0, 3, 0]),
    (Call::Remove(2, 3), None, [0, 0, 3, 0]),
    (Call::Front(2), Some((1, 128)), [0, 0, 2, 0]),
    (Call::Front(2), Some((3, 128)), [0, 0, 1, 0]),
    (Call::Front(2), Some((5, 128)), [0, 0, 0, 0]),
    (Call::Front(2), None, [0, 0, 0, 0]),
];

/// Without room every event comes back, and nothing is found.
const NO_ROOM: &[Row] = &[
    (Call::Push(0, 200), Some((0, 200)), [0, 0, 0, 0]),
    (Call::At(3, 0), None, [0, 0, 0, 0]),
    (Call::Front(3), None, [0, 0, 0, 0]),
    (Call::Remove(3, 0), None, [0, 0, 0, 0]),
];

/// How many events each list has room for, and the calls.
static ALL: [(usize, &[Row]); 4] = [(1, OWN_ROOM), (2, PRIORITIES), (4, ROUND), (0, NO_ROOM)];

#[test]
fn list_calls(rt: HostRuntime) -> Result<(), Fail> {
    for (capacity, rows) in &ALL {
        make_all(&rt, *capacity, rows)?;
    }
    Ok(())
}
