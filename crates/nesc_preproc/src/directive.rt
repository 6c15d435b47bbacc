//! The names of directives.

ghost use Rattle.std.specs.Prelude.{◌≡◌};
ghost use Rattle.nesc_preproc.specs.Obeyed.{directive_of, is_called, is_conditional};

use nesc_macros::is_word;
use nm_base::Token;

/// A directive by its name.
#[derive(Clone, Copy, Debug)]
pub(crate) enum Directive {
    Define,
    Undef,
    Include,
    If,
    Ifdef,
    Ifndef,
    Elif,
    Else,
    Endif,
    Error,
    Warning,
    Unknown,
}

fn is_called(token: &Token, text: &[u8]) -> bool
    ensures { result ≡ is_called token.now text.now }
{
    is_word(token) && token.text.as_bytes() == text
}

impl Directive {
    /// The directive of this name.
    #[tactic(auto, unfolding(crate::specs::Obeyed::directive_of))]
    pub fn named(token: &Token) -> Directive
        ensures { result ≡ directive_of token.now }
    {
        if is_called(token, b"define") {
            Directive::Define
        } else if is_called(token, b"undef") {
            Directive::Undef
        } else if is_called(token, b"include") {
            Directive::Include
        } else if is_called(token, b"if") {
            Directive::If
        } else if is_called(token, b"ifdef") {
            Directive::Ifdef
        } else if is_called(token, b"ifndef") {
            Directive::Ifndef
        } else if is_called(token, b"elif") {
            Directive::Elif
        } else if is_called(token, b"else") {
            Directive::Else
        } else if is_called(token, b"endif") {
            Directive::Endif
        } else if is_called(token, b"error") {
            Directive::Error
        } else if is_called(token, b"warning") {
            Directive::Warning
        } else {
            Directive::Unknown
        }
    }

    /// Whether it belongs to a conditional.
    pub fn is_conditional(self) -> bool
        ensures { result ≡ is_conditional self }
    {
        matches!(
            self,
            Directive::If
                | Directive::Ifdef
                | Directive::Ifndef
                | Directive::Elif
                | Directive::Else
                | Directive::Endif
        )
    }
}
