//! The lines of a script, their words, and the numbers in them.

ghost use Rattle.std.specs.Prelude.{◌≡◌, ◌==◌, ◌≤◌, ◌<◌, ◌+◌, ◌^◌, map, IfOk, OnErr, IfSome};
ghost use Rattle.std.specs.Char.{is_ascii_digit};
ghost use Rattle.std.specs.List.{list_all, slice_split};
ghost use Rattle.std.specs.Str.Lines.{strip_carriage_return};
ghost use Rattle.play_documents.specs.Words.{is_numeral, number, port_number};

use std::alloc::{AllocError, Global};

/// The lines of a text: what stands between its line feeds.
pub fn lines(alloc: Global, text: &str) -> Result<Vec<&str>, AllocError>
    ensures { IfOk result (λ v. map (λ s. s.now) v.items ≡ slice_split (λ b. b == 10) text.now) }
{
    text.split('\n').collect(alloc)
}

/// The number of the line after this one. Want of memory is answered only where no `u32` is higher; no document is so long.
pub fn next_line(line: u32) -> Result<u32, AllocError>
    ensures next { IfOk result (λ n. n ≡ line + 1) }
    ensures last { OnErr result (line + 1 ≡ 2 ^ 32) }
{
    line.checked_add(1).ok_or(AllocError)
}

/// The words of a line: what stands between its spaces.
pub fn words(alloc: Global, line: &str) -> Result<Vec<&str>, AllocError>
    ensures { IfOk result (λ v. map (λ s. s.now) v.items ≡ slice_split (λ b. b == 32) line.now) }
{
    line.split(' ').collect(alloc)
}

/// The line without the one carriage return at its end, where it has one.
pub fn without_carriage_return(line: &str) -> &str
    ensures { result.now ≡ strip_carriage_return line.now }
{
    match line.strip_suffix('\r') {
        Some(line) => line,
        None => line,
    }
}

fn all_digits(bytes: &[u8]) -> bool
    ensures { result ≡ list_all is_ascii_digit bytes.now }
{
    bytes.iter().all(|byte| byte.is_ascii_digit())
}

/// Whether the word is decimal digits without a leading zero, save `0` itself.
fn is_numeral(word: &str) -> bool
    ensures { result ≡ is_numeral word.now }
{
    match word.as_bytes() {
        [] => false,
        [digit] => digit.is_ascii_digit(),
        digits => digits[0] != b'0' && all_digits(digits),
    }
}

/// The number that a word writes, where it is at most this.
#[tactic(auto, unfolding(crate::specs::Words::number))]
pub fn number(word: &str, most: u64) -> Option<u64>
    ensures value { result ≡ number most word.now }
    ensures small { IfSome result (λ n. n ≤ most) }
{
    if !is_numeral(word) {
        return None;
    }
    match word.parse::<u64>() {
        Ok(value) if value <= most => Some(value),
        _ => None,
    }
}

/// The number of a port, of which there are so many.
pub fn port_number(word: &str, ports: usize) -> Option<usize>
    ensures value { result ≡ port_number ports word.now }
    ensures there { IfSome result (λ n. n < ports) }
{
    let port = number(word, u64::MAX)? as usize;
    if port < ports { Some(port) } else { None }
}
