//! The parts of a line that stand at the head of a text.

ghost use Rattle.std.specs.Prelude.{◌≡◌, ◌≢◌, ◌≤◌, ◌<◌, ◌^◌, ℕ, List, ◌++◌, IfOk, IfErr, IfSome, None, length, decimal};
ghost use Rattle.history_reading.specs.Causes.{Reads};
ghost use Rattle.history_reading.specs.Texts.{IsBehind};

use crate::fault::{Cause, Key};
use crate::number::number_at;

/// What stands behind the sign with which the text begins.
pub(crate) fn behind<'a>(text: &'a [u8], sign: &[u8]) -> Option<&'a [u8]>
    ensures some { IfSome result (λ rest. text.now ≡ sign.now ++ rest.now) }
    ensures none { result ≡ None → (more : List ℕ) → text.now ≢ sign.now ++ more }
{
    text.strip_prefix(sign)
}

/// The number, at most this, that stands behind the key's sign at the head of the text, and what stands behind it.
pub(crate) fn field<'a>(
    text: &'a [u8],
    sign: &[u8],
    key: Key,
    most: u64,
) -> Result<(u64, &'a [u8]), Cause>
    ensures ok { IfOk result (λ r. text.now ≡ sign.now ++ (decimal r.0 ++ r.1.now)) }
    ensures small { IfOk result (λ r. r.0 ≤ most) }
    ensures only { (n : ℕ) (more : List ℕ) → n ≤ most → IsBehind more → text.now ≡ sign.now ++ (decimal n ++ more) → Reads result n more }
{
    let Some(rest) = behind(text, sign) else {
        return Err(Cause::Missing { key });
    };
    match number_at(rest, most) {
        Some(found) => Ok(found),
        None => Err(Cause::Number { key }),
    }
}
