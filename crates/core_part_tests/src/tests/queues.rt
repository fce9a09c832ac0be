//! Worked calls of queues' waiting events, and of what holds them. Each is made again where memory was refused, and serves then
//! as ever.

ghost use Rattle.std.specs.Prelude.{◌≡◌, ◌<◌, ◌≤◌, [], ◌∷◌, length, vec_len, vec_capacity, IfOk};
ghost use Rattle.parked_queue.specs.Waits.{all_empty, waits_at};
ghost use Rattle.parked_queue.specs.Lists as lists;

use evt_types::{Event, Numbered, Op, PackedEvent};
use parked_queue::{Level, ParkedQueues, WaitingLists};
use small_set::SmallSet;
use std::alloc::{AllocError, Global};
use std::test::Fail;

/// Flow 1 for the first queue, and flow 6 for the second; of four slots flow 6 has slot 2.
const ONE: Event = event_of!(New, 1, 128, 10);

const SIX: Event = event_of!(New, 6, 128, 11, queue: 1);

/// Two queues of so many slots each.
fn queues_of(alloc: Global, slots: usize, room: usize) -> Result<ParkedQueues, AllocError>
    requires some { 0 < slots }
    requires few { slots ≤ 64 }
    ensures { IfOk result (λ qs. qs ≡ all_empty room (slots ∷ slots ∷ [])) }
{
    match ParkedQueues::new(alloc, &[slots, slots], room) {
        Ok(queues) => Ok(queues),
        Err(_) => ParkedQueues::new(alloc, &[slots, slots], room),
    }
}

fn lists_of(alloc: Global, count: usize, room: usize) -> Result<WaitingLists, AllocError>
    ensures { IfOk result (λ l. l ≡ lists.all_empty count room) }
{
    match WaitingLists::new(alloc, count, room) {
        Ok(lists) => Ok(lists),
        Err(_) => WaitingLists::new(alloc, count, room),
    }
}

/// These slots.
fn set_of(slots: &[usize]) -> SmallSet {
    let mut set = SmallSet::none();
    for slot in slots {
        if *slot < 64 {
            set.add(*slot);
        }
    }
    set
}

/// How many events wait in the queue, the number of the first level of which one may, and whether it is the only one; none where
/// there is no such queue, as below.
fn waiting_in(queues: &ParkedQueues, queue: usize) -> Option<(usize, Option<usize>, bool)> {
    if queue < queues.len() {
        let mut levels = queues.levels(queue);
        let first = match levels.pop() {
            Some(level) => Some(level.number),
            None => None,
        };
        Some((queues.count(queue), first, levels.is_empty()))
    } else {
        None
    }
}

/// The slot of the first event of the level that is in one of these slots.
fn first_of(
    queues: &mut ParkedQueues,
    queue: usize,
    level: Level,
    slots: &[usize],
) -> Option<Option<usize>> {
    if queue < queues.len() {
        match queues.first(queue, level, set_of(slots)) {
            Some(found) => Some(Some(found.slot)),
            None => Some(None),
        }
    } else {
        None
    }
}

/// In each queue an event waits, and there is room for no more.
fn one_in_each(alloc: Global) -> Result<ParkedQueues, AllocError> {
    let mut queues = queues_of(alloc, 4, 2)?;
    queues.accept(&PackedEvent::of(&ONE));
    queues.accept(&PackedEvent::of(&SIX));
    Ok(queues)
}

#[test]
fn queues_share_their_room(rt: HostRuntime) -> Result<(), Fail> {
    let mut queues = one_in_each(rt.alloc())?;
    let waiting = [
        waiting_in(&queues, 0),
        waiting_in(&queues, 1),
        waiting_in(&queues, 2),
    ];
    let level = Level { number: 2 };
    let each = Some((1, Some(level.number), true));
    assert_eq!(rt; waiting, [each, each, None]);
    let firsts = [
        first_of(&mut queues, 0, level, &[2]),
        first_of(&mut queues, 1, level, &[2]),
    ];
    assert_eq!(rt; firsts, [Some(None), Some(Some(2))]);
    Ok(())
}

fn head() -> Numbered {
    Numbered {
        number: 0,
        event: PackedEvent::of(&ONE),
    }
}

fn second() -> Numbered {
    Numbered {
        number: 1,
        event: PackedEvent::of(&SIX),
    }
}

/// Lists in which there is room for two: the first is in list 1, the second in list 0.
fn two_listed(alloc: Global, first: Numbered, second: Numbered) -> Result<WaitingLists, AllocError>
    ensures { IfOk result (λ l. l ≡ record { lists = (second ∷ []) ∷ (first ∷ []) ∷ []; room = 2 }) }
{
    let mut lists = lists_of(alloc, 2, 2)?;
    lists.push(1, first);
    lists.push(0, second);
    Ok(lists)
}

#[test]
fn lists_share_their_room(rt: HostRuntime) -> Result<(), Fail> {
    let mut lists = two_listed(rt.alloc(), head(), second())?;
    assert_eq!(rt;
        (lists.head(0).copied(), lists.head(1).copied()),
        (Some(second()), Some(head()))
    );
    let oldest = lists.pop(1);
    assert_eq!(rt; (oldest, lists.pop(1)), (Some(head()), None));
    Ok(())
}
