//! Lines, words and numbers of a text.

ghost use Rattle.std.specs.Prelude.{◌≡◌, ◌<◌, ◌≤◌, ◌==◌, [], ◌∷◌, length, MatchOption, IfSome};
ghost use Rattle.std.specs.List.{position_or_len, slice_split};
ghost use Rattle.std.specs.Str.Lines.{lines, strip_carriage_return};
ghost use Rattle.mote_text.specs.Lines.{numeral, next_line, words};

use std::str;

// The number below 2 ^ 32 that some digits of a base spell.
fn any_numeral(digits: &[u8], base: u32) -> Option<u32>
    requires low { 2 ≤ base }
    requires high { base ≤ 16 }
    ensures { result ≡ numeral base 0xFFFFFFFF digits.now }
{
    if digits.is_empty() || digits[0] == b'+' {
        return None;
    }
    match str::from_utf8(digits) {
        Ok(text) => u32::from_str_radix(text, base).ok(),
        Err(_) => None,
    }
}

/// The number that some digits of a base spell, where they spell one up to `most`.
pub(crate) fn numeral(digits: &[u8], base: u32, most: u32) -> Option<u32>
    requires low { 2 ≤ base }
    requires high { base ≤ 16 }
    ensures { result ≡ numeral base most digits.now }
{
    let value = any_numeral(digits, base)?;
    if value <= most { Some(value) } else { None }
}

// How many bytes stand before the first `byte`, or in all.
fn len_before(text: &[u8], byte: u8) -> usize
    ensures { result ≡ position_or_len (λ b. b == byte) text.now }
{
    text.iter().position(|b| *b == byte).unwrap_or(text.len())
}

/// What stands before the first `byte`, and what stands behind it.
pub(crate) fn cut(text: &[u8], byte: u8) -> Option<(&[u8], &[u8])>
    ensures parts { MatchOption result (slice_split (λ b. b == byte) text.now ≡ text.now ∷ [])
        (λ x. slice_split (λ b. b == byte) text.now ≡ x.0.now ∷ slice_split (λ b. b == byte) x.1.now) }
    ensures shorter { IfSome result (λ x. length x.1.now < length text.now) }
{
    let end = len_before(text, byte);
    if end < text.len() {
        Some((&text[..end], &text[end + 1..]))
    } else {
        None
    }
}

fn without_return(line: &[u8]) -> &[u8]
    ensures { result.now ≡ strip_carriage_return line.now }
{
    let len = line.len();
    if len > 0 && line[len - 1] == b'\r' {
        return &line[..len - 1];
    }
    line
}

/// The first line, without its end, and the text behind it. A line ends with LF or CR LF, and the last may have no end.
pub(crate) fn cut_line(text: &[u8]) -> Option<(&[u8], &[u8])>
    ensures parts { MatchOption result (lines text.now ≡ []) (λ x. lines text.now ≡ x.0.now ∷ lines x.1.now) }
    ensures shorter { IfSome result (λ x. length x.1.now < length text.now) }
{
    if text.is_empty() {
        return None;
    }
    match cut(text, b'\n') {
        Some((line, rest)) => Some((without_return(line), rest)),
        None => Some((text, &text[text.len()..])),
    }
}

/// The number of the next line; the last number of 32 bits stays.
pub(crate) fn next_line(line: u32) -> u32
    ensures { result ≡ next_line line }
{
    line.saturating_add(1)
}
