//! Numbers: digits and a suffix.

ghost use Rattle.std.specs.Prelude.{◌≡◌, ◌<◌, ◌≤◌, ◌&&◌, length, take, drop, nat_le, slice_index, true, false, ◌==◌};
ghost use Rattle.std.specs.List.{list_any};
ghost use Rattle.std.specs.Char.{is_ascii_digit, is_ascii_hexdigit};
ghost use Rattle.nesc_tokens.specs.CodePoints.{is_octal_digit};
ghost use Rattle.nesc_tokens.specs.Spelling.{is_one_of, suffixes};
ghost use Rattle.nesc_tokens.specs.Longest.{IsDigits, IsLongestOf, IsSuffix, begins_hexadecimal, kind_at};

use crate::classes::{decimal_run, hexadecimal_run, octal_run};
use crate::signs::is_one_of;
use nm_base::Kind;

const SUFFIXES: [&[u8]; 13] = [
    b"", b"u", b"U", b"l", b"L", b"ul", b"uL", b"Ul", b"UL", b"lu", b"lU", b"Lu", b"LU",
];

fn is_suffix(bytes: &[u8]) -> bool
    ensures { result ≡ is_one_of suffixes bytes.now }
{
    is_one_of(&SUFFIXES, bytes)
}

// Whether the first n bytes are a suffix.
fn is_suffix_of(bytes: &[u8], n: usize) -> bool
    ensures { result ≡ (nat_le n (length bytes.now) && is_one_of suffixes (take n bytes.now)) }
{
    bytes.len() >= n && is_suffix(&bytes[..n])
}

// How many bytes the longest suffix has.
fn suffix(bytes: &[u8]) -> usize
    ensures { IsSuffix result bytes.now }
{
    if is_suffix_of(bytes, 2) {
        return 2;
    }
    if is_suffix_of(bytes, 1) {
        return 1;
    }
    0
}

fn decimal_digits(bytes: &[u8]) -> usize
    ensures { IsDigits is_ascii_digit result bytes.now }
{
    let run = decimal_run(bytes);
    run + suffix(&bytes[run..])
}

fn octal_digits(bytes: &[u8]) -> usize
    ensures { IsDigits is_octal_digit result bytes.now }
{
    let run = octal_run(bytes);
    run + suffix(&bytes[run..])
}

fn hexadecimal_digits(bytes: &[u8]) -> usize
    ensures { IsDigits is_ascii_hexdigit result bytes.now }
{
    let run = hexadecimal_run(bytes);
    run + suffix(&bytes[run..])
}

// Whether `0x` and a hexadecimal digit stand at the front.
fn begins_hexadecimal(bytes: &[u8]) -> bool
    ensures { result ≡ begins_hexadecimal bytes.now }
{
    bytes.len() >= 3 && bytes[0] == b'0' && bytes[1] == b'x' && bytes[2].is_ascii_hexdigit()
}

/// How many bytes the number at the front has.
pub fn number(bytes: &[u8]) -> usize
    requires some { 0 < length bytes.now }
    requires at { kind_at (slice_index bytes.now 0) ≡ Kind.Number }
    ensures { IsLongestOf Kind.Number result bytes.now }
{
    if begins_hexadecimal(bytes) {
        return 3 + hexadecimal_digits(&bytes[3..]);
    }
    if bytes[0] == b'0' {
        return 1 + octal_digits(&bytes[1..]);
    }
    1 + decimal_digits(&bytes[1..])
}
