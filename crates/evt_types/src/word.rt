//! Reading events back from their words.

ghost use Rattle.std.specs.Prelude.{◌≡◌, ◌<◌, ◌≤◌, ◌/◌, ◌%◌, ◌^◌, ◌↔◌, IfSome, IsNone};
ghost use Rattle.evt_types.specs.Word as words;

use crate::event::{Event, Kind, Op};
use thiserror::Error;

/// Why a word is no event's.
#[derive(Clone, Copy, Debug, PartialEq, Eq, Error)]
pub enum WordFault {
    /// A reserved bit is set.
    #[error("a reserved bit of the event word is set")]
    ReservedBits,
    /// No scheduling type has the code.
    #[error("the event word's scheduling type is unknown")]
    UnknownKind,
}

/// The number in `width` bits of a word, the lowest of which is bit `from`.
#[inline(always)]
pub(crate) fn bits(word: u64, from: u32, width: u32) -> u64
    requires from { from < 64 }
    requires width { width < 64 }
    ensures { result ≡ word / 2 ^ from % 2 ^ width }
{
    (word >> from) % (1 << width)
}

/// The operation of a code.
#[inline(always)]
pub(crate) fn op_of(code: u8) -> Op
    requires { code < 4 }
    ensures { code ≡ words.op_code result }
{
    match code {
        0 => Op::New,
        1 => Op::Forward,
        2 => Op::Release,
        _ => Op::ForwardMore,
    }
}

/// The scheduling type of a code.
fn kind_of(code: u64) -> Option<Kind>
    ensures found { IfSome result (λ kind. code ≡ words.kind_code kind) }
    ensures unknown { IsNone result ↔ (3 ≤ code) }
{
    match code {
        0 => Some(Kind::Ordered),
        1 => Some(Kind::Atomic),
        2 => Some(Kind::Parallel),
        _ => None,
    }
}

impl Event {
    ghost use Rattle.std.specs.Prelude.{◌≡◌, ◌≢◌, ◌/◌, ◌%◌, ◌^◌, ◌↔◌, IfOk};
    ghost use Rattle.evt_types.specs.Word.{Fits, word_of};
    ghost use Rattle.evt_types.specs.declared.event.Event.{Event};
    ghost use Rattle.evt_types.specs.declared.event.Kind.{Kind};

    /// The event of a word and a payload, and the scheduling type that the word has beside it.
    pub fn from_word(word: u64, payload: u64) -> Result<(Event, Kind), WordFault>
        ensures found { IfOk result (λ r. (word ≡ word_of r.0 r.1) × (r.0.payload ≡ payload)) }
        ensures only { (e : Event) (k : Kind) → Fits e → word ≡ word_of e k → payload ≡ e.payload → result ≡ Ok (e, k) }
        ensures reserved { (result ≡ Err WordFault.ReservedBits) ↔ (word / 2 ^ 34 % 16 ≢ 0) }
        ensures kind { (result ≡ Err WordFault.UnknownKind) ↔ ((word / 2 ^ 34 % 16 ≡ 0) × (word / 2 ^ 38 % 4 ≡ 3)) }
    {
        if bits(word, 34, 4) != 0 {
            return Err(WordFault::ReservedBits);
        }
        let op = op_of(bits(word, 32, 2) as u8);
        let kind = kind_of(bits(word, 38, 2)).ok_or(WordFault::UnknownKind)?;
        let event = Event {
            flow: bits(word, 0, 20) as u32,
            sub_type: bits(word, 20, 8) as u8,
            event_type: bits(word, 28, 4) as u8,
            op,
            queue: bits(word, 40, 8) as u8,
            priority: bits(word, 48, 8) as u8,
            impl_opaque: bits(word, 56, 8) as u8,
            payload,
        };
        Ok((event, kind))
    }
}
