//! Texts of words.

ghost use Rattle.std.specs.Prelude.{◌≡◌, true, ◌++◌, ◌∷◌, [], OnOk, IfOk, ℕ, List as ListOf};
ghost use Rattle.printed_words.specs.LaidOut.{Laid, Lexeme, is_layout, may_stand_behind};

use crate::apart::may_stand_behind;
use crate::word::{Gap, Word};
use nm_base::NoMemory;
use std::alloc::Global;

fn push_white(text: &mut Vec<u8>, byte: u8) -> Result<(), NoMemory>
    requires { is_layout byte ≡ true }
    ensures keeps { OnOk result ((words : ListOf Lexeme) → Laid text.old.items words → Laid text.new.items words) }
    ensures pushed { OnOk result (text.new.items ≡ text.old.items ++ byte ∷ []) }
{
    text.push(byte)?;
    Ok(())
}

fn push_blank(text: &mut Vec<u8>) -> Result<(), NoMemory>
    ensures keeps { OnOk result ((words : ListOf Lexeme) → Laid text.old.items words → Laid text.new.items words) }
    ensures parts { OnOk result ((word : ListOf ℕ) → may_stand_behind text.new.items word ≡ true) }
{
    push_white(text, b' ')?;
    Ok(())
}

// The end of a line, and two spaces for each open brace.
fn push_line(text: &mut Vec<u8>, depth: usize) -> Result<(), NoMemory>
    ensures { OnOk result ((words : ListOf Lexeme) → Laid text.old.items words → Laid text.new.items words) }
{
    push_white(text, b'\n')?;
    for _ in 0..depth {
        push_white(text, b' ')?;
        push_white(text, b' ')?;
    }
    Ok(())
}

// The first word stands at the beginning.
fn push_gap(text: &mut Vec<u8>, gap: Gap, depth: usize) -> Result<(), NoMemory>
    ensures { OnOk result ((words : ListOf Lexeme) → Laid text.old.items words → Laid text.new.items words) }
{
    if text.as_slice().is_empty() {
        return Ok(());
    }
    match gap {
        Gap::Joined => Ok(()),
        Gap::Spaced => push_white(text, b' '),
        Gap::Line => push_line(text, depth),
    }
}

fn push_apart(text: &mut Vec<u8>, word: &Word) -> Result<(), NoMemory>
    requires { may_stand_behind text.old.items word.now.text ≡ true }
    ensures { OnOk result ((words : ListOf Lexeme) → Laid text.old.items words → Laid text.new.items (words ++ word.now ∷ [])) }
{
    text.extend_from_slice(word.text())?;
    Ok(())
}

// A space where the word is not apart from what stands before it.
fn push_word(text: &mut Vec<u8>, word: &Word) -> Result<(), NoMemory>
    ensures { OnOk result ((words : ListOf Lexeme) → Laid text.old.items words → Laid text.new.items (words ++ word.now ∷ [])) }
{
    if may_stand_behind(text.as_slice(), word.text()) {
        return push_apart(text, word);
    }
    push_blank(text)?;
    push_apart(text, word)
}

// How many braces are open where the word stands, and behind it.
fn depth_at(word: &Word, depth: usize) -> usize {
    if word.text() == b"}".as_slice() {
        depth.saturating_sub(1)
    } else {
        depth
    }
}

fn depth_behind(word: &Word, depth: usize) -> usize {
    if word.text() == b"{".as_slice() {
        depth.saturating_add(1)
    } else {
        depth
    }
}

/// A text of the words, each behind its gap.
#[tactic(auto, using(crate::proofs::Ends::laid_words))]
pub fn lay_out(alloc: Global, words: &[Word]) -> Result<Vec<u8>, NoMemory>
    ensures { IfOk result (λ text. Laid text.items words.now) }
{
    let mut text = Vec::new(alloc);
    let mut depth: usize = 0;
    for word in words {
        depth = depth_at(word, depth);
        push_gap(&mut text, word.gap(), depth)?;
        push_word(&mut text, word)?;
        depth = depth_behind(word, depth);
    }
    Ok(text)
}
