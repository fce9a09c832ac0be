//! Where a log begins.

ghost use Rattle.std.specs.Prelude.{◌≡◌, ◌≢◌, ◌≤◌, ◌<◌, ◌+◌, ℕ, ◌++◌, None, IfSome, length, codes, slice_index};
ghost use Rattle.log_reading.specs.Logs.{IsLine, BeginsLog, HasLog};

/// How long the text's first line is, without its end.
fn line_len(text: &[u8]) -> usize
    ensures within { result ≤ length text.now }
    ensures line { (i : ℕ) → i < result → slice_index text.now i ≢ 10 }
    ensures end { result < length text.now → slice_index text.now result ≡ 10 }
{
    for at in 0..text.len() {
        if text[at] == b'\n' {
            return at;
        }
    }
    text.len()
}

/// The text's first line, without its end, and what stands behind it; none where no line ends.
pub(crate) fn first_line(text: &[u8]) -> Option<(&[u8], &[u8])>
    ensures line { IfSome result (λ parts. IsLine parts.0.now) }
    ensures whole { IfSome result (λ parts. text.now ≡ parts.0.now ++ (codes "\n" ++ parts.1.now)) }
    ensures none { result ≡ None → IsLine text.now }
{
    let (line, rest) = text.split_at(line_len(text));
    let (_, behind) = rest.split_first()?;
    Some((line, behind))
}

/// The number of the first line that says `log`, counted from 1, and what stands behind it.
pub(crate) fn log_begin(text: &[u8]) -> Option<(usize, &[u8])>
    ensures begin { IfSome result (λ found. BeginsLog text.now found.0 found.1.now) }
    ensures fits { IfSome result (λ found. found.0 + length found.1.now ≤ length text.now) }
    ensures none { result ≡ None → ¬ HasLog text.now }
{
    let mut rest = text;
    let mut line = 1;
    while let Some((said, behind)) = first_line(rest) {
        if said == b"log".as_slice() {
            return Some((line, behind));
        }
        rest = behind;
        line += 1;
    }
    None
}
