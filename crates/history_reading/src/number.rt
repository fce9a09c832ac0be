//! Numbers at the head of a text.

ghost use Rattle.std.specs.Prelude.{◌≡◌, ◌≤◌, ◌<◌, ◌^◌, ℕ, List, ◌++◌, IfSome, true, false, length, decimal, take, drop};
ghost use Rattle.std.specs.Str.{all_ascii_digits};
ghost use Rattle.history_reading.specs.Causes.{Gives};
ghost use Rattle.history_reading.specs.Texts.{IsBehind};

use play_documents::words::number;
use std::str;

/// How many digits the text begins with.
fn digit_count(text: &[u8]) -> usize
    ensures within { result ≤ length text.now }
    ensures digits { all_ascii_digits (take result text.now) ≡ true }
    ensures end { IsBehind (drop result text.now) }
{
    for at in 0..text.len() {
        if !text[at].is_ascii_digit() {
            return at;
        }
    }
    text.len()
}

/// The number that the text begins with, if it is at most this, and what stands behind it.
pub(crate) fn number_at(text: &[u8], most: u64) -> Option<(u64, &[u8])>
    ensures some { IfSome result (λ r. text.now ≡ decimal r.0 ++ r.1.now) }
    ensures small { IfSome result (λ r. r.0 ≤ most) }
    ensures only { (n : ℕ) (more : List ℕ) → n ≤ most → IsBehind more → text.now ≡ decimal n ++ more → Gives result n more }
{
    let (digits, behind) = text.split_at(digit_count(text));
    let Ok(word) = str::from_utf8(digits) else {
        return None;
    };
    let value = number(word, most)?;
    Some((value, behind))
}
