//! The reading of a history.

ghost use Rattle.std.specs.Prelude.{◌≡◌, List, IfOk, IfErr, All};
ghost use Rattle.history_judge.specs.declared.seen.Seen.{Seen as SeenValue};
ghost use Rattle.history_reading.specs.Causes.{IsCause, ReadsAll};
ghost use Rattle.history_reading.specs.Texts.{IsEntry, history_text};

use crate::entry::entry_at;
use crate::fault::ReadFault;
use history_judge::Seen;
use std::alloc::Global;

/// Reads the history whose text this is. It has these entries, and no others; and the text of a history is read, unless memory runs out.
pub fn read_history(alloc: Global, text: &[u8]) -> Result<Vec<Seen>, ReadFault>
    ensures ok { IfOk result (λ hs. text.now ≡ history_text hs.items) }
    ensures there { IfOk result (λ hs. All IsEntry hs.items) }
    ensures err { IfErr result (IsCause text.now) }
    ensures only { (H : List SeenValue) → All IsEntry H → text.now ≡ history_text H → ReadsAll result (λ hs. hs.items ≡ H) }
{
    let mut history = Vec::new(alloc);
    let mut rest = text;
    let mut line = 0;
    while !rest.is_empty() {
        line += 1;
        let (seen, behind) = match entry_at(rest) {
            Ok(found) => found,
            Err(cause) => return Err(ReadFault::Line { line, cause }),
        };
        history.push(seen)?;
        rest = behind;
    }
    Ok(history)
}
