//! Bytes that line splices join to words.

ghost use Rattle.std.specs.Prelude.{◌≡◌, ◌<◌, ◌+◌, ◌^◌, ◌++◌, drop, false, length, IfOk};
ghost use Rattle.nesc_tokens.specs.Joined.{joined_bytes, joined_of, joins, stands_at};

use crate::classes::is_word_byte;
use crate::splice::{SourceByte, has_splice, source_bytes};
use nm_base::{NoMemory, Pos};
use std::alloc::Global;

// Whether the second is behind a byte of a word that begins on an earlier line: `split` says that of the first.
fn joins(split: bool, a: &SourceByte, b: &SourceByte) -> bool
    ensures { result ≡ joins split a.now b.now }
{
    is_word_byte(a.byte) && (split || a.line != b.line)
}

// Appends the second byte, where it is joined to the first, and answers whether it is.
fn push_joined(
    joined: &mut Vec<SourceByte>,
    split: bool,
    source: &[SourceByte],
) -> Result<bool, NoMemory>
    ensures { IfOk result (λ is. joined.new.items ++ joined_of is (drop 1 source.now) ≡ joined.old.items ++ joined_of split source.now) }
{
    if let [a, b, ..] = source {
        if joins(split, a, b) {
            joined.push(*b)?;
            return Ok(true);
        }
    }
    Ok(false)
}

fn joined_of(alloc: Global, source: &[SourceByte]) -> Result<Vec<SourceByte>, NoMemory>
    ensures { IfOk result (λ v. v.items ≡ joined_of false source.now) }
{
    let mut joined = Vec::new(alloc);
    let mut split = false;
    let mut rest = source;
    while let [_, behind @ ..] = rest {
        split = push_joined(&mut joined, split, rest)?;
        rest = behind;
    }
    Ok(joined)
}

/// The bytes of a text that stand directly behind a byte of a word that begins on an earlier line.
pub fn joined_bytes(alloc: Global, text: &[u8]) -> Result<Vec<SourceByte>, NoMemory>
    requires { length text.now + 1 < 2 ^ 32 }
    ensures { IfOk result (λ v. v.items ≡ joined_bytes text.now) }
{
    if !has_splice(text) {
        return Ok(Vec::new(alloc));
    }
    let source = source_bytes(alloc, text)?;
    joined_of(alloc, source.as_slice())
}

/// Whether the byte stands at this place.
pub fn stands_at(byte: &SourceByte, pos: Pos) -> bool
    ensures { result ≡ stands_at pos byte.now }
{
    byte.line == pos.line && byte.col == pos.col
}
