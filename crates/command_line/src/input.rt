//! The reading of a document.

ghost use Rattle.std.specs.Prelude.{◌≡◌, ◌≤◌, IfOk, IfErr, IfSome, vec_len};
ghost use Rattle.play_documents.specs.Numbers.{most_input};
ghost use Rattle.command_line.specs.Input.{IsInputFault, HasRead};

use crate::fault::AppFault;
use play_documents::{DocFault, MAX_INPUT};
use std::alloc::Global;
use std::io::Read;

/// Reads to the end, but no further than one byte past the most that a document may have.
pub fn read_all<R: Read>(alloc: Global, reader: &mut R) -> Result<Vec<u8>, AppFault>
    ensures fits { IfOk result (λ v. vec_len v ≤ most_input) }
    ensures all { IfOk result (λ v. IfSome (R.remaining reader.old) (λ input. v.items ≡ input)) }
    ensures err { IfErr result (IsInputFault (R.remaining reader.old)) }
    ensures reads { HasRead (R.remaining reader.old) (R.remaining reader.new) result }
{
    let mut bytes = Vec::new(alloc);
    let mut buffer = [0u8; 4096];
    loop {
        let room = (MAX_INPUT + 1 - bytes.len()).min(4096);
        let Ok(count) = reader.read(&mut buffer[..room]) else {
            return Err(AppFault::Read);
        };
        if count == 0 {
            return Ok(bytes);
        }
        bytes.extend_from_slice(&buffer[..count])?;
        if bytes.len() > MAX_INPUT {
            return Err(AppFault::Document(DocFault::TooLong));
        }
    }
}
