//! The number of modules of an application that is made.

ghost use Rattle.std.specs.Prelude.{◌≡◌, ◌≤◌, MatchOption, decimal, slice_index};
ghost use Rattle.nm_words.specs.Modes.{IsSubject};
ghost use Rattle.nm_words.specs.declared.mode.Mode.TheVariants.{Gen};

use generated_files::MAX_MODULES;

// The first byte of a text; 0 where it is empty.
fn first_byte(text: &str) -> u8
    ensures { result ≡ slice_index text.now 0 }
{
    text.as_bytes().first().copied().unwrap_or(0)
}

/// The number of modules that a word spells, in decimal digits without a leading 0.
pub(crate) fn modules_in(word: &str) -> Option<u32>
    ensures { MatchOption result (IsSubject Gen word.now → ⊥) (λ n. (1 ≤ n) × (n ≤ MAX_MODULES) × (word.now ≡ decimal n)) }
{
    // `parse` takes a `+` and zeros in front; both are smaller than the other digits
    if first_byte(word) <= b'0' {
        return None;
    }
    let n = word.parse::<u32>().ok()?;
    if n > MAX_MODULES {
        return None;
    }
    Some(n)
}

/// The number of modules that the subject of `Mode::Gen` spells.
pub fn modules_of(subject: &str) -> u32
    requires { IsSubject Gen subject.now }
    ensures spelled { decimal result ≡ subject.now }
    ensures some { 1 ≤ result }
    ensures at_most { result ≤ MAX_MODULES }
{
    modules_in(subject).unwrap()
}
