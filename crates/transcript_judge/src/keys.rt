//! Keys of events that wait, by which an earlier one of a class is found.

ghost use Rattle.std.specs.Prelude.{◌≡◌, ◌<◌, ℕ, ◌&&◌, ◌||◌, not, false, true, OnErr, OnOk};
ghost use Rattle.std.specs.BTreeSet.{contains};
ghost use Rattle.std.specs.Ordering.{nat_cmp};
ghost use Rattle.transcript_judge.specs.Waiting as waiting;
ghost use Rattle.transcript_judge.specs.Waiting.{is_key, keyed};

use evt_types::{Event, Kind, MAX_FLOWS, Memory, PackedEvent};
use std::collections::BTreeSet;

/// What the events share that keep their order with this one.
pub(crate) fn class_of(kind: Kind, event: &Event) -> Option<u32>
    ensures { result ≡ waiting.class_of kind event.now }
{
    // A packed event's level is known to be low.
    let level = PackedEvent::of(event).level() as u32;
    match kind {
        Kind::Ordered => Some(level),
        Kind::Atomic => Some(level * MAX_FLOWS + event.flow),
        Kind::Parallel => None,
    }
}

/// The key of the number in the class.
fn key_in(class: u32, number: u64) -> u128
    ensures { result ≡ waiting.key_in class number }
{
    u128::from(class) * (1 << 64) + u128::from(number)
}

/// The key of the number in its class, where it has one.
pub(crate) fn key_of(class: Option<u32>, number: u64) -> Option<u128>
    ensures { result ≡ keyed number class }
{
    match class {
        Some(class) => Some(key_in(class, number)),
        None => None,
    }
}

/// A key more, where there is one.
pub(crate) fn add_key(keys: &mut BTreeSet<u128>, key: Option<u128>) -> Result<(), Memory>
    ensures ok { OnOk result ((k : ℕ) → contains nat_cmp keys.new k ≡ (is_key key k || contains nat_cmp keys.old k)) }
    ensures err { OnErr result ((k : ℕ) → contains nat_cmp keys.new k ≡ contains nat_cmp keys.old k) }
{
    if let Some(key) = key {
        keys.insert(key)?;
    }
    Ok(())
}

/// The key leaves, where there is one.
pub(crate) fn drop_key(keys: &mut BTreeSet<u128>, key: Option<u128>)
    ensures { (k : ℕ) → contains nat_cmp keys.new k ≡ (not (is_key key k) && contains nat_cmp keys.old k) }
{
    if let Some(key) = key {
        keys.remove(&key);
    }
}

/// Whether a lower number of the class has a key.
pub(crate) fn has_lower(keys: &BTreeSet<u128>, class: u32, number: u64) -> bool
    ensures none { result ≡ false → (m : ℕ) → m < number → contains nat_cmp keys.now (waiting.key_in class m) ≡ false }
    ensures some { result ≡ true → (m : ℕ) × (m < number) × (contains nat_cmp keys.now (waiting.key_in class m) ≡ true) }
{
    let (first, end) = (key_in(class, 0), key_in(class, number));
    match keys.range(first..end).next() {
        Some(_) => true,
        None => false,
    }
}
