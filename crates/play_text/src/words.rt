//! An event as text.

ghost use Rattle.std.specs.Prelude.{◌≡◌, ◌++◌, OnOk, string_bytes, length, codes};
ghost use Rattle.evt_types.specs.Plan.{queue_in};
ghost use Rattle.play_text.specs.Text as texts;

use evt_types::{Event, Kind, QueueDraft};
use std::alloc::AllocError;

/// The scheduling type of the queue; of one that isn't there, `Parallel`.
fn kind_of(queues: &[QueueDraft], queue: u8) -> Kind
    ensures { result ≡ (queue_in queues.now queue).kind }
{
    match queues.get(usize::from(queue)) {
        Some(draft) => draft.kind,
        None => Kind::Parallel,
    }
}

/// A word, in 16 digits.
#[tactic(auto, unfolding(crate::specs::Text::hex_word))]
fn write_word(word: u64, out: &mut String) -> Result<(), AllocError>
    ensures text { OnOk result (string_bytes out.new ≡ string_bytes out.old ++ texts.hex_word word) }
    ensures sixteen { length (texts.hex_word word) ≡ 16 }
{
    write!(out, "{word:016x}")
}

/// An event's word and payload, with which a line ends.
pub fn write_event(queues: &[QueueDraft], event: &Event, out: &mut String) -> Result<(), AllocError>
    ensures { OnOk result (string_bytes out.new ≡ string_bytes out.old ++ texts.event_text queues.now event.now ++ codes "\n") }
{
    let payload = event.payload;
    write_word(event.word(kind_of(queues, event.queue)), out)?;
    writeln!(out, " {payload}")
}
