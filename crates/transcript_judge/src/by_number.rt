//! Events that wait, by number.

ghost use Rattle.std.specs.Prelude.{◌≡◌, ◌<◌, ◌++◌, ◌∷◌, [], ◌==◌, not, All, OnErr, OnOk, filter};
ghost use Rattle.evt_types.specs.declared.event.Numbered.{Numbered as NumberedValue};
ghost use Rattle.transcripts.specs.Standing.{event_in, kept_under};
ghost use Rattle.transcript_judge.specs.Waiting.{Rise, listed};

use evt_types::{Event, Memory, PackedEvent};
use std::collections::BTreeMap;

/// The event waits behind the others.
pub(crate) fn put_last(
    events: &mut BTreeMap<u64, PackedEvent>,
    number: u64,
    event: &Event,
) -> Result<(), Memory>
    requires { All (λ w. w.number < number) (listed events.old) }
    ensures ok { OnOk result (listed events.new ≡ listed events.old ++ kept_under (number, event.now) ∷ []) }
    ensures err { OnErr result (listed events.new ≡ listed events.old) }
{
    events.insert(number, PackedEvent::of(event))?;
    Ok(())
}

/// The event of the number, where it waits.
pub(crate) fn event_at(events: &BTreeMap<u64, PackedEvent>, number: u64) -> Option<Event>
    ensures { result ≡ event_in (listed events.now) number }
{
    match events.get(&number) {
        Some(event) => Some(event.unpack()),
        None => None,
    }
}

/// The event of the number leaves, where it waits.
pub(crate) fn take_at(events: &mut BTreeMap<u64, PackedEvent>, number: u64) -> Option<Event>
    requires { Rise (listed events.old) }
    ensures event { result ≡ event_in (listed events.old) number }
    ensures rest { listed events.new ≡ filter (λ (w : NumberedValue). not (w.number == number)) (listed events.old) }
{
    match events.remove(&number) {
        Some(event) => Some(event.unpack()),
        None => None,
    }
}
