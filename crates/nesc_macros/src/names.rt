//! Names, words and signs.

ghost use Rattle.std.specs.Prelude.{◌≡◌};
ghost use Rattle.nesc_macros.specs.Invocation.{is_among, is_word, is_sign};

use nm_base::{Kind, Name, Token};

/// Whether the name is one of the names.
pub fn is_among(names: &[Name], name: &Name) -> bool
    ensures { result ≡ is_among names.now name.now }
{
    names.iter().any(|other| name == other)
}

/// Whether the token is a word.
pub fn is_word(token: &Token) -> bool
    ensures { result ≡ is_word token.now }
{
    matches!(token.kind, Kind::Word)
}

/// Whether the token is the sign of this spelling.
pub fn is_sign(text: &[u8], token: &Token) -> bool
    ensures { result ≡ is_sign text.now token.now }
{
    matches!(token.kind, Kind::Sign) && token.text.as_bytes() == text
}
