//! Character and text literals.

ghost use Rattle.std.specs.Prelude.{◌≡◌, ◌<◌, ◌&&◌, ◌==◌, nat_le, nat_lt, length, slice_index, take};
ghost use Rattle.nesc_tokens.specs.CodePoints.{apostrophe, quotation_mark};
ghost use Rattle.nesc_tokens.specs.Spelling.{is_char_body, is_escape, is_one_of, is_quoted, simple_escapes};
ghost use Rattle.nesc_tokens.specs.Longest.{IsTextRun, LongestOf, TextItem, kind_at};

use crate::classes::{is_octal_digit, is_plain};
use crate::signs::is_one_of;
use nm_base::Kind;

const SIMPLE_ESCAPES: [&[u8]; 6] = [b"n", b"t", b"r", b"\\", b"'", b"\""];

fn is_simple_escape(bytes: &[u8]) -> bool
    ensures { result ≡ is_one_of simple_escapes bytes.now }
{
    is_one_of(&SIMPLE_ESCAPES, bytes)
}

// Whether the bytes are an escape without its backslash.
fn is_escape(bytes: &[u8]) -> bool
    ensures { result ≡ is_escape bytes.now }
{
    match bytes {
        [a] => is_simple_escape(bytes) || is_octal_digit(*a),
        [a, b] => {
            (is_octal_digit(*a) && is_octal_digit(*b)) || (*a == b'x' && b.is_ascii_hexdigit())
        }
        [a, b, c] => {
            (is_octal_digit(*a) && is_octal_digit(*b) && is_octal_digit(*c))
                || (*a == b'x' && b.is_ascii_hexdigit() && c.is_ascii_hexdigit())
        }
        _ => false,
    }
}

// Whether the bytes may stand between the quotes of a character literal.
fn is_char_body(bytes: &[u8]) -> bool
    ensures { result ≡ is_char_body bytes.now }
{
    match bytes {
        [] => false,
        [a] => is_plain(b'\'', *a) && *a < 128,
        [a, escape @ ..] => *a == b'\\' && is_escape(escape),
    }
}

fn is_character(bytes: &[u8]) -> bool
    ensures { result ≡ is_quoted apostrophe is_char_body bytes.now }
{
    let len = bytes.len();
    len >= 2 && bytes[0] == b'\'' && bytes[len - 1] == b'\'' && is_char_body(&bytes[1..len - 1])
}

/// How many bytes the character literal at the front has: no literal has more than 6.
pub fn character(bytes: &[u8]) -> Option<usize>
    ensures { LongestOf Kind.Char result bytes.now }
{
    let mut n = bytes.len().min(6);
    while n > 0 {
        if is_character(&bytes[..n]) {
            return Some(n);
        }
        n -= 1;
    }
    None
}

// Whether the first n bytes are an escape without its backslash.
fn is_escape_of(bytes: &[u8], n: usize) -> bool
    ensures { result ≡ (nat_le n (length bytes.now) && is_escape (take n bytes.now)) }
{
    bytes.len() >= n && is_escape(&bytes[..n])
}

// How many bytes the byte or the escape of a text literal at the front has, and 0 where there is none. A second or third
// octal digit and a second hexadecimal digit of an escape count as bytes of their own.
fn text_item(bytes: &[u8]) -> usize
    ensures { TextItem result bytes.now }
{
    if bytes.is_empty() {
        return 0;
    }
    if is_plain(b'"', bytes[0]) {
        return 1;
    }
    if bytes[0] != b'\\' {
        return 0;
    }
    let escape = &bytes[1..];
    if is_escape_of(escape, 1) {
        return 2;
    }
    if is_escape_of(escape, 2) {
        return 3;
    }
    0
}

// How many bytes of the text literal's body stand at the front.
fn text_body(bytes: &[u8]) -> usize
    ensures { IsTextRun result bytes.now }
{
    let mut at = 0;
    while at < bytes.len() {
        let n = text_item(&bytes[at..]);
        if n == 0 {
            return at;
        }
        at += n;
    }
    at
}

// Whether a quotation mark stands at a place.
fn is_closed_at(bytes: &[u8], at: usize) -> bool
    ensures { result ≡ (nat_lt at (length bytes.now) && slice_index bytes.now at == quotation_mark) }
{
    at < bytes.len() && bytes[at] == b'"'
}

/// How many bytes the text literal at the front has.
pub fn text(bytes: &[u8]) -> Option<usize>
    requires some { 0 < length bytes.now }
    requires at { kind_at (slice_index bytes.now 0) ≡ Kind.Text }
    ensures { LongestOf Kind.Text result bytes.now }
{
    let body = text_body(&bytes[1..]);
    if is_closed_at(bytes, body + 1) {
        return Some(body + 2);
    }
    None
}
