//! Finds events of which more were got than sent.

ghost use Rattle.std.specs.Prelude.{◌≡◌, ◌-◌, ◌<◌, ◌^◌, IfNone, IfOk, IfSome, OnOk, true, false, ℕ};
ghost use Rattle.evt_types.specs.declared.event.Event.{Event as EventValue};
ghost use Rattle.history_judge.specs.Left as specs;
ghost use Rattle.history_judge.specs.Left.{AreAllSent, HasLeft, IsLacking, IsOneLess, IsOneMore, left_for};
ghost use Rattle.history_judge.specs.Values.{IsExcess};

use crate::seen::{Deed, Seen};
use evt_types::{Event, Memory, Op};
use std::alloc::Global;
use std::collections::BTreeMap;

/// What a device keeps of an event.
#[derive(Clone, Copy, PartialEq, Eq, PartialOrd, Ord)]
pub(crate) struct Value {
    pub(crate) flow: u32,
    pub(crate) sub_type: u8,
    pub(crate) event_type: u8,
    pub(crate) queue: u8,
    pub(crate) priority: u8,
    pub(crate) payload: u64,
}

/// How many events of each value were sent and not got yet; where there is none, the value may be missing.
pub(crate) type Left = BTreeMap<Value, usize>;

/// Its value.
pub(crate) fn value_of(event: &Event) -> Value
    ensures { result ≡ specs.value_of event.now }
{
    Value {
        flow: event.flow,
        sub_type: event.sub_type,
        event_type: event.event_type,
        queue: event.queue,
        priority: event.priority,
        payload: event.payload,
    }
}

/// How many of the event's value are left.
pub(crate) fn count_left(left: &Left, event: &Event) -> usize
    ensures { result ≡ left_for left.now event.now }
{
    match left.get(&value_of(event)) {
        Some(count) => *count,
        None => 0,
    }
}

/// So many of the event's value are left.
pub(crate) fn set_left(left: &mut Left, event: &Event, count: usize) -> Result<(), Memory>
    ensures { OnOk result (HasLeft left.old left.new event.now count) }
{
    left.insert(value_of(event), count)?;
    Ok(())
}

/// One more is left of what the entry sent.
pub(crate) fn note_sent(left: &mut Left, seen: &Seen) -> Result<(), Memory>
    requires { (e : EventValue) → left_for left.old e < 2 ^ 64 - 1 }
    ensures { OnOk result (IsOneMore left.old left.new seen.now) }
{
    let Deed::Sent(reply) = &seen.deed else {
        return Ok(());
    };
    if reply.event.op() == Op::Release {
        return Ok(());
    }
    let event = reply.event.unpack();
    let count = count_left(left, &event);
    set_left(left, &event, count + 1)
}

/// How many events of each value were sent.
pub(crate) fn all_sent(alloc: Global, history: &[Seen]) -> Result<Left, Memory>
    ensures { IfOk result (λ left. AreAllSent history.now left) }
{
    let mut left = BTreeMap::new(alloc);
    for seen in history {
        note_sent(&mut left, seen)?;
    }
    Ok(left)
}

/// One less is left of what the entry got; `false` where none was left.
fn note_got(left: &mut Left, seen: &Seen) -> Result<bool, Memory>
    ensures there { IfOk result (λ there. there ≡ true → IsOneLess left.old left.new seen.now) }
    ensures lacking { IfOk result (λ there. there ≡ false → IsLacking left.old seen.now) }
{
    let Deed::Got(event) = &seen.deed else {
        return Ok(true);
    };
    let count = count_left(left, event);
    if count == 0 {
        return Ok(false);
    }
    set_left(left, event, count - 1)?;
    Ok(true)
}

/// The first entry that got an event of a value of which fewer were sent.
pub(crate) fn first_excess(alloc: Global, history: &[Seen]) -> Result<Option<usize>, Memory>
    ensures some { IfOk result (λ found. IfSome found (λ i. IsExcess history.now i)) }
    ensures none { IfOk result (λ found. IfNone found ((i : ℕ) → ¬ IsExcess history.now i)) }
{
    let mut left = all_sent(alloc, history)?;
    for (at, seen) in history.iter().enumerate() {
        if !note_got(&mut left, seen)? {
            return Ok(Some(at));
        }
    }
    Ok(None)
}
