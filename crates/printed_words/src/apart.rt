//! Where white space may be left out.

ghost use Rattle.std.specs.Prelude.{◌≡◌, true, length, ◌<◌, slice_index};
ghost use Rattle.nesc_tokens.specs.CodePoints as codes;
ghost use Rattle.printed_words.specs.LaidOut as spec;

// The bytes that stand in a sign behind its first, and those that make a comment of a slash.
const GOING_ON: &[u8] = b"-+<>=&|./*";

// The signs of one byte with which no other sign begins.
const CLOSED: &[u8] = b"(){}[];,~?:@";

fn is_word_byte(b: u8) -> bool
    ensures { result ≡ codes.is_word_byte b }
{
    b.is_ascii_alphabetic() || b == b'_' || b.is_ascii_digit()
}

fn goes_on(b: u8) -> bool
    ensures { result ≡ spec.goes_on b }
{
    GOING_ON.contains(&b)
}

fn is_closed(b: u8) -> bool
    ensures { result ≡ spec.is_closed b }
{
    CLOSED.contains(&b)
}

fn ends_itself(a: u8) -> bool
    ensures { result ≡ spec.ends_itself a }
{
    a == b' ' || a == b'\n' || a == b'\'' || a == b'"' || is_closed(a)
}

fn is_apart(a: u8, b: u8) -> bool
    ensures { result ≡ spec.is_apart a b }
{
    if is_word_byte(a) {
        !is_word_byte(b)
    } else {
        ends_itself(a) || !goes_on(b)
    }
}

#[tactic(auto, using(crate::proofs::Ends::follows_end))]
fn may_follow(text: &[u8], b: u8) -> bool
    ensures { result ≡ spec.may_follow text.now b }
{
    if text.is_empty() {
        return true;
    }
    is_apart(text[text.len() - 1], b)
}

/// Whether the word may stand directly behind the text.
pub fn may_stand_behind(text: &[u8], word: &[u8]) -> bool
    ensures { result ≡ spec.may_stand_behind text.now word.now }
{
    match word {
        [] => true,
        [b, ..] => may_follow(text, *b),
    }
}
