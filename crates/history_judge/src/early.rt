//! Finds events that were got before any of their value was sent.

ghost use Rattle.std.specs.Prelude.{◌≡◌, IfNone, IfOk, IfSome, OnOk, ℕ};
ghost use Rattle.history_judge.specs.Begins as specs;
ghost use Rattle.history_judge.specs.Begins.{AreBegun, BeginsAt, BeginsMore, has_begun};
ghost use Rattle.history_judge.specs.Values.{IsPremature};

use crate::seen::{Deed, Seen};
use crate::values::{Value, value_of};
use evt_types::{Event, Memory, Op};
use std::alloc::Global;
use std::collections::BTreeMap;

/// For each value when the first call began that enqueued one of it.
type Begins = BTreeMap<Value, u64>;

/// Whether an event of this one's value was enqueued by a call that began by then.
fn has_begun(begins: &Begins, event: &Event, time: u64) -> bool
    ensures { result ≡ specs.has_begun begins.now event.now time }
{
    match begins.get(&value_of(event)) {
        Some(began) => *began <= time,
        None => false,
    }
}

/// The first call for the event's value began then.
fn set_begin(begins: &mut Begins, event: &Event, began: u64) -> Result<(), Memory>
    ensures { OnOk result (BeginsAt begins.old begins.new event.now began) }
{
    begins.insert(value_of(event), began)?;
    Ok(())
}

/// Notes when the entry's call began, if it is the first for what it sent.
fn note_begin(begins: &mut Begins, seen: &Seen) -> Result<(), Memory>
    ensures { OnOk result (BeginsMore begins.old begins.new seen.now) }
{
    let Deed::Sent(reply) = &seen.deed else {
        return Ok(());
    };
    if reply.event.op() == Op::Release {
        return Ok(());
    }
    let event = reply.event.unpack();
    if has_begun(begins, &event, seen.began) {
        return Ok(());
    }
    set_begin(begins, &event, seen.began)
}

/// For each value when the first call for it began.
fn all_begins(alloc: Global, history: &[Seen]) -> Result<Begins, Memory>
    ensures { IfOk result (λ begins. AreBegun history.now begins) }
{
    let mut begins = BTreeMap::new(alloc);
    for seen in history {
        note_begin(&mut begins, seen)?;
    }
    Ok(begins)
}

/// Whether the entry got an event of whose value none had begun to be sent when it ended.
fn is_premature(begins: &Begins, seen: &Seen) -> bool
    ensures { result ≡ specs.got_early begins.now seen.now }
{
    match &seen.deed {
        Deed::Got(event) => !has_begun(begins, event, seen.ended),
        Deed::Sent(_) => false,
    }
}

/// The first entry that got an event before any of its value was sent.
pub(crate) fn first_premature(alloc: Global, history: &[Seen]) -> Result<Option<usize>, Memory>
    ensures some { IfOk result (λ found. IfSome found (λ i. IsPremature history.now i)) }
    ensures none { IfOk result (λ found. IfNone found ((i : ℕ) → ¬ IsPremature history.now i)) }
{
    let begins = all_begins(alloc, history)?;
    for (at, seen) in history.iter().enumerate() {
        if is_premature(&begins, seen) {
            return Ok(Some(at));
        }
    }
    Ok(None)
}
