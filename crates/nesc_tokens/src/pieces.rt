//! What a text consists of: separators and lexemes.

ghost use Rattle.std.specs.Prelude.{◌≡◌, ◌<◌, ◌+◌, ◌&&◌, ◌==◌, length, codes, slice_index, true};
ghost use Rattle.nesc_tokens.specs.CodePoints.{asterisk, slash};
ghost use Rattle.nesc_tokens.specs.Lexes.{begins};
ghost use Rattle.nesc_tokens.specs.Begins.{Begins, CommentAt};

use crate::classes::{is_white_space, line_run};
use crate::longest::longest;
use nm_base::Kind;

/// What a piece of a text is.
#[derive(Clone, Copy, PartialEq, Eq, Debug)]
pub enum Sort {
    WhiteSpace,
    LineComment,
    BlockComment,
    Lexeme(Kind),
}

/// What stands at the front of a text: a piece and its length, a comment without an end, or neither.
#[derive(Clone, Copy, PartialEq, Eq, Debug)]
pub enum Front {
    Piece(Sort, usize),
    OpenComment,
    BadByte,
}

fn begins_line_comment(bytes: &[u8]) -> bool
    ensures { result ≡ begins (codes "//") bytes.now }
{
    matches!(bytes, [b'/', b'/', ..])
}

fn begins_block_comment(bytes: &[u8]) -> bool
    ensures { result ≡ begins (codes "/*") bytes.now }
{
    matches!(bytes, [b'/', b'*', ..])
}

// Whether `*/` stands at a place.
fn ends_comment(bytes: &[u8], at: usize) -> bool
    requires { at + 1 < length bytes.now }
    ensures { result ≡ (slice_index bytes.now at == asterisk && slice_index bytes.now (at + 1) == slash) }
{
    bytes[at] == b'*' && bytes[at + 1] == b'/'
}

// How many bytes the block comment at the front has.
fn block_comment(bytes: &[u8]) -> Option<usize>
    requires { begins (codes "/*") bytes.now ≡ true }
    ensures { CommentAt result bytes.now }
{
    let mut at = 2;
    while at + 1 < bytes.len() {
        if ends_comment(bytes, at) {
            return Some(at + 2);
        }
        at += 1;
    }
    None
}

/// What stands at the front.
pub fn front_of(bytes: &[u8]) -> Front
    requires { 0 < length bytes.now }
    ensures { Begins result bytes.now }
{
    if is_white_space(bytes[0]) {
        return Front::Piece(Sort::WhiteSpace, 1);
    }
    if begins_line_comment(bytes) {
        return Front::Piece(Sort::LineComment, line_run(bytes));
    }
    if begins_block_comment(bytes) {
        return match block_comment(bytes) {
            Some(n) => Front::Piece(Sort::BlockComment, n),
            None => Front::OpenComment,
        };
    }
    match longest(bytes) {
        Some((kind, n)) => Front::Piece(Sort::Lexeme(kind), n),
        None => Front::BadByte,
    }
}
