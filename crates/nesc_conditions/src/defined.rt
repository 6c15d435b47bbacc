//! `defined` in the expression of a conditional line.

ghost use Rattle.std.specs.Prelude.{◌≡◌, IfOk};
ghost use Rattle.nesc_conditions.specs.Resolved.{IsResolved, is_defined, names_macro, next, plain, silent, told};

use nesc_macros::{Macros, is_sign, is_word};
use nm_base::{Kind, Name, NoMemory, Pos, Token};
use std::alloc::Global;

/// What stands before the next token of a line: of a `defined`, its place and what has come of it.
#[derive(Clone, Copy, Debug)]
pub(crate) enum Seen {
    Plain,
    Defined(Pos),
    Opened(Pos),
    Named(Pos, bool),
}

/// What is seen behind a token, and the token to put out there.
#[derive(Debug, Drop)]
pub(crate) struct Step {
    seen: Seen,
    out: Option<Token>,
}

/// Puts 1 or 0 in the place of each `defined X` and `defined ( X )`; None where no word follows.
pub fn resolve_defined(
    alloc: Global,
    macros: &Macros,
    tokens: &[Token],
) -> Result<Option<Vec<Token>>, NoMemory>
    ensures { IfOk result (λ r. IsResolved macros.now tokens.now r) }
{
    let mut resolved = Vec::new(alloc);
    let mut seen = Seen::Plain;
    for token in tokens {
        let Some(next) = next(alloc, macros, seen, token)? else {
            return Ok(None);
        };
        seen = next.seen;
        if let Some(out) = next.out {
            resolved.push(out)?;
        }
    }
    match seen {
        Seen::Plain => Ok(Some(resolved)),
        _ => Ok(None),
    }
}

fn next(alloc: Global, macros: &Macros, seen: Seen, token: &Token) -> Result<Option<Step>, NoMemory>
    ensures { IfOk result (λ n. n ≡ next macros.now seen token.now) }
{
    match seen {
        Seen::Plain => {
            if is_defined(token) {
                return Ok(silent(Seen::Defined(token.pos)));
            }
            Ok(plain(token.clone()?))
        }
        Seen::Defined(pos) => {
            if is_word(token) {
                return Ok(plain(told(alloc, pos, names_macro(macros, token))?));
            }
            if is_sign(b"(", token) {
                return Ok(silent(Seen::Opened(pos)));
            }
            Ok(None)
        }
        Seen::Opened(pos) => {
            if is_word(token) {
                return Ok(silent(Seen::Named(pos, names_macro(macros, token))));
            }
            Ok(None)
        }
        Seen::Named(pos, names_macro) => {
            if is_sign(b")", token) {
                return Ok(plain(told(alloc, pos, names_macro)?));
            }
            Ok(None)
        }
    }
}

fn silent(seen: Seen) -> Option<Step>
    ensures { result ≡ silent seen }
{
    Some(Step { seen, out: None })
}

fn plain(token: Token) -> Option<Step>
    ensures { result ≡ plain token }
{
    Some(Step {
        seen: Seen::Plain,
        out: Some(token),
    })
}

fn is_defined(token: &Token) -> bool
    ensures { result ≡ is_defined token.now }
{
    is_word(token) && token.text.as_bytes() == b"defined".as_slice()
}

fn names_macro(macros: &Macros, token: &Token) -> bool
    ensures { result ≡ names_macro macros.now token.now }
{
    macros.get(&token.text).is_some()
}

// The number in the place of a `defined`.
fn told(alloc: Global, pos: Pos, is_defined: bool) -> Result<Token, NoMemory>
    ensures { IfOk result (λ t. t ≡ told pos is_defined) }
{
    let digit: &[u8] = if is_defined { b"1" } else { b"0" };
    Ok(Token {
        kind: Kind::Number,
        text: Name::new(alloc, digit)?,
        pos,
        first: false,
    })
}
