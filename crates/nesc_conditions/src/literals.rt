//! The digits and values of integer and character literals.

ghost use Rattle.std.specs.Prelude.{◌≡◌, ◌≤◌, ◌+◌, ◌*◌, pos};
ghost use Rattle.std.specs.Int.{int_wrap, w8, w64};
ghost use Rattle.std.specs.List.{list_all};
ghost use Rattle.std.specs.Char.{is_digit};
ghost use Rattle.nesc_conditions.specs.Literals.{all_digits, are_digits, bounded, character_value, digits_of, escape_value, integer_value, numeric_escape, quoted_value, radix_of, simple_escapes};
ghost use Rattle.nesc_conditions.specs.Signs.{lookup};

use crate::spelled::look_up;

const SIMPLE_ESCAPES: [(&[u8], u128); 6] = [
    (b"n", 10),
    (b"t", 9),
    (b"r", 13),
    (b"\\", 92),
    (b"'", 39),
    (b"\"", 34),
];

// The number with one more digit; None from 2^128 on.
fn appended(value: u128, radix: u32, digit: u32) -> Option<u128>
    ensures { result ≡ bounded (value * radix + digit) }
{
    value
        .checked_mul(u128::from(radix))?
        .checked_add(u128::from(digit))
}

/// The number that the digits at the front of `bytes` write in this radix; None from 2^128 on.
pub fn digits(radix: u32, bytes: &[u8]) -> Option<u128>
    requires least { 2 ≤ radix }
    requires most { radix ≤ 36 }
    ensures { result ≡ digits_of radix bytes.now }
{
    let mut value: u128 = 0;
    for byte in bytes {
        let Some(digit) = char::from(*byte).to_digit(radix) else {
            return Some(value);
        };
        value = appended(value, radix, digit)?;
    }
    Some(value)
}

/// The radix of an integer literal, which `0x` or `0` shows, and what stands behind these letters (C99, 6.4.4.1).
pub fn radix(text: &[u8]) -> (u32, &[u8])
    ensures least { 2 ≤ result.0 }
    ensures most { result.0 ≤ 36 }
    ensures radix { result.0 ≡ (radix_of text.now).0 }
    ensures digits { result.1.now ≡ (radix_of text.now).1 }
{
    match text {
        [b'0', b'x', digits @ ..] => (16, digits),
        [b'0', digits @ ..] => (8, digits),
        _ => (10, text),
    }
}

fn wrapped(value: u128) -> i64
    ensures { result ≡ int_wrap w64 (pos value) }
{
    ((value % (1 << 64)) as u64).cast_signed()
}

// A signed number of 8 bits.
fn wrapped_byte(value: u128) -> i64
    ensures { result ≡ int_wrap w8 (pos value) }
{
    i64::from(((value % 256) as u8).cast_signed())
}

/// The value of an integer literal, of which 64 bits are kept; None from 2^128 on.
pub fn integer(text: &[u8]) -> Option<i64>
    ensures { result ≡ integer_value text.now }
{
    let (radix, bytes) = radix(text);
    Some(wrapped(digits(radix, bytes)?))
}

fn only_digits(radix: u32, bytes: &[u8]) -> bool
    requires least { 2 ≤ radix }
    requires most { radix ≤ 36 }
    ensures { result ≡ list_all (λ b. is_digit b radix) bytes.now }
{
    bytes.iter().all(|byte| char::from(*byte).is_digit(radix))
}

// Whether the bytes are one digit or more, and nothing else.
fn are_digits(radix: u32, bytes: &[u8]) -> bool
    requires least { 2 ≤ radix }
    requires most { radix ≤ 36 }
    ensures { result ≡ are_digits radix bytes.now }
{
    !bytes.is_empty() && only_digits(radix, bytes)
}

fn all_digits(radix: u32, bytes: &[u8]) -> Option<u128>
    requires least { 2 ≤ radix }
    requires most { radix ≤ 36 }
    ensures { result ≡ all_digits radix bytes.now }
{
    if are_digits(radix, bytes) {
        digits(radix, bytes)
    } else {
        None
    }
}

fn numeric_escape(bytes: &[u8]) -> Option<u128>
    ensures { result ≡ numeric_escape bytes.now }
{
    match bytes {
        [] => None,
        [b'x', digits @ ..] => all_digits(16, digits),
        _ => all_digits(8, bytes),
    }
}

fn simple_escape(bytes: &[u8]) -> Option<u128>
    ensures { result ≡ lookup bytes.now simple_escapes }
{
    look_up(&SIMPLE_ESCAPES, bytes)
}

// What the bytes behind a backslash stand for.
fn escape(bytes: &[u8]) -> Option<u128>
    ensures { result ≡ escape_value bytes.now }
{
    if let Some(value) = simple_escape(bytes) {
        return Some(value);
    }
    if bytes.len() <= 3 {
        return numeric_escape(bytes);
    }
    None
}

// What the bytes between apostrophes stand for.
fn quoted(bytes: &[u8]) -> Option<u128>
    ensures { result ≡ quoted_value bytes.now }
{
    match bytes {
        [] => None,
        [byte] => Some(u128::from(*byte)),
        [b'\\', rest @ ..] => escape(rest),
        _ => None,
    }
}

/// The value of a character literal between its quotes, a signed number of 8 bits; None where the text is no such literal (C99, 6.4.4.4).
pub fn character(text: &[u8]) -> Option<i64>
    ensures { result ≡ character_value text.now }
{
    let [_, bytes @ .., _] = text else {
        return None;
    };
    Some(wrapped_byte(quoted(bytes)?))
}
