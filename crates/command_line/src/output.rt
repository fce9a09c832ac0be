//! The writing of a text.

ghost use Rattle.std.specs.Prelude.{◌≡◌, IfErr, OnOk};
ghost use Rattle.std.specs.Io.KnownBytes.{Appends};
ghost use Rattle.command_line.specs.Output.{AppendsPrefix};

use crate::fault::AppFault;
use std::io::Write;

/// Writes a text whole. A write that fails, or takes no byte, ends it.
pub fn write_text<W: Write>(writer: &mut W, text: &[u8]) -> Result<(), AppFault>
    ensures ok { OnOk result (Appends (W.contents writer.old) (W.contents writer.new) text.now) }
    ensures err { IfErr result (λ e. (e ≡ AppFault.Write) × AppendsPrefix (W.contents writer.old) (W.contents writer.new) text.now) }
{
    let mut rest = text;
    while !rest.is_empty() {
        match writer.write(rest) {
            Ok(0) | Err(_) => return Err(AppFault::Write),
            Ok(count) => rest = rest.split_at(count).1,
        }
    }
    Ok(())
}
