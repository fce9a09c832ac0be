//! An entry's line.

ghost use Rattle.std.specs.Prelude.{◌≡◌, ◌<◌, ◌^◌, ℕ, List, ◌++◌, IfOk};
ghost use Rattle.history_judge.specs.declared.seen.Deed.{Deed as DeedValue};
ghost use Rattle.history_judge.specs.declared.seen.Seen.{Seen as SeenValue};
ghost use Rattle.history_reading.specs.Causes.{Reads};
ghost use Rattle.history_reading.specs.Texts.{IsDeed, IsEntry, deed_text, line_text};

use crate::event::{event_at, op_at};
use crate::fault::{Cause, Key};
use crate::field::{behind, field};
use evt_types::{PackedEvent, Reply};
use history_judge::{Deed, Seen};

/// What the call did with an event, as the text begins with it, and what stands behind it.
fn deed_at(text: &[u8]) -> Result<(Deed, &[u8]), Cause>
    ensures ok { IfOk result (λ r. text.now ≡ deed_text r.0 r.1.now) }
    ensures there { IfOk result (λ r. IsDeed r.0) }
    ensures only { (d : DeedValue) (more : List ℕ) → IsDeed d → text.now ≡ deed_text d more → Reads result d more }
{
    if let Some(rest) = behind(text, b",\"sent\":\"") {
        let (op, rest) = op_at(rest)?;
        let (event, rest) = event_at(rest, op)?;
        let event = PackedEvent::of(&event);
        return Ok((Deed::Sent(Reply { event }), rest));
    }
    let Some(rest) = behind(text, b",\"got\":\"") else {
        return Err(Cause::Missing { key: Key::Deed });
    };
    let (op, rest) = op_at(rest)?;
    let (event, rest) = event_at(rest, op)?;
    Ok((Deed::Got(event), rest))
}

/// The entry with whose line the text begins, and what stands behind that.
pub(crate) fn entry_at(text: &[u8]) -> Result<(Seen, &[u8]), Cause>
    ensures ok { IfOk result (λ r. text.now ≡ line_text r.0 r.1.now) }
    ensures there { IfOk result (λ r. IsEntry r.0) }
    ensures only { (s : SeenValue) (more : List ℕ) → IsEntry s → text.now ≡ line_text s more → Reads result s more }
{
    let (port, rest) = field(text, b"{\"port\":", Key::Port, u64::MAX)?;
    let (began, rest) = field(rest, b",\"began\":", Key::Began, u64::MAX)?;
    let (ended, rest) = field(rest, b",\"ended\":", Key::Ended, u64::MAX)?;
    let port = port as usize;
    match deed_at(rest) {
        Ok((deed, rest)) => {
            let seen = Seen {
                port,
                began,
                ended,
                deed,
            };
            Ok((seen, rest))
        }
        Err(cause) => Err(cause),
    }
}
