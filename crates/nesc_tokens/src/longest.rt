//! The longest lexeme at a place.

ghost use Rattle.std.specs.Prelude.{◌≡◌, ◌<◌, ◌≤◌, length, IfSome, IfNone, take, true, false, ℕ, slice_index};
ghost use Rattle.nm_base.specs.declared.token.Kind.{Kind as KindOf};
ghost use Rattle.nesc_tokens.specs.Spelling.{spells};
ghost use Rattle.nesc_tokens.specs.Longest.{IsLongestOf, LongestOf, kind_at};
ghost use Rattle.nesc_tokens.specs.Lexes.{IsLongest};

use crate::classes::{is_letter, word_run};
use crate::literals::{character, text};
use crate::numbers::number;
use crate::signs::sign;
use nm_base::Kind;

// How many bytes the word at the front has.
fn word(bytes: &[u8]) -> usize
    requires some { 0 < length bytes.now }
    requires at { kind_at (slice_index bytes.now 0) ≡ Kind.Word }
    ensures { IsLongestOf Kind.Word result bytes.now }
{
    word_run(bytes)
}

// The only kind of which a lexeme can begin with the byte.
fn kind_at(byte: u8) -> Kind
    ensures { result ≡ kind_at byte }
{
    if is_letter(byte) {
        Kind::Word
    } else if byte.is_ascii_digit() {
        Kind::Number
    } else if byte == b'\'' {
        Kind::Char
    } else if byte == b'"' {
        Kind::Text
    } else {
        Kind::Sign
    }
}

// How many bytes the longest lexeme of this kind at the front has.
fn longest_of(kind: Kind, bytes: &[u8]) -> Option<usize>
    requires some { 0 < length bytes.now }
    requires at { kind_at (slice_index bytes.now 0) ≡ kind }
    ensures { LongestOf kind result bytes.now }
{
    match kind {
        Kind::Word => Some(word(bytes)),
        Kind::Number => Some(number(bytes)),
        Kind::Char => character(bytes),
        Kind::Text => text(bytes),
        Kind::Sign => sign(bytes),
    }
}

/// The kind and the length of the longest lexeme at the front.
pub fn longest(bytes: &[u8]) -> Option<(Kind, usize)>
    requires { 0 < length bytes.now }
    ensures found { IfSome result (λ f. (0 < f.1) × IsLongest f.0 f.1 bytes.now) }
    ensures none { IfNone result ((kind : KindOf) (n : ℕ) → n ≤ length bytes.now
        → spells kind (take n bytes.now) ≡ false) }
{
    let kind = kind_at(bytes[0]);
    match longest_of(kind, bytes) {
        Some(n) => Some((kind, n)),
        None => None,
    }
}
