//! Lexing: the tokens of a text, or the first place at which it is refused.

ghost use Rattle.std.specs.Prelude.{◌≡◌, ◌⊎◌, ◌<◌, ◌≤◌, ◌+◌, ◌^◌, ◌++◌, drop, length, IfOk, IfErr, OnOk, map, ◌==◌};
ghost use Rattle.std.specs.List.{list_any};
ghost use Rattle.std.specs.Prelude.{ℕ, List as ListOf};
ghost use Rattle.nm_base.specs.declared.token.Token.{Token as TokenOf};
ghost use Rattle.nm_base.specs.declared.refusal.Refusal.{Refusal as RefusalOf};
ghost use Rattle.nesc_tokens.specs.Lexes.{Fails, IsRefused, Lexes, bytes_of, first_behind, tokens_of_piece};
ghost use Rattle.nesc_tokens.specs.Begins.{Begins};
ghost use Rattle.nesc_tokens.specs.Splices.{placed, source_of};
ghost use Rattle.nesc_tokens.specs.CodePoints.{ends_line};

use crate::pieces::{Front, Sort, front_of};
use crate::splice::{SourceByte, col_behind, has_splice, line_behind, source_bytes};
use nm_base::{Fault, Name, NoMemory, Pos, Refusal, Token};
use std::alloc::Global;

fn bytes_of(alloc: Global, source: &[SourceByte]) -> Result<Vec<u8>, NoMemory>
    ensures { IfOk result (λ v. v.items ≡ bytes_of source.now) }
{
    Ok(source.iter().map(|s| s.byte).collect(alloc)?)
}

fn place(file: u32, here: &SourceByte) -> Pos
    ensures { result ≡ record { file = file; line = here.now.line; col = here.now.col } }
{
    Pos {
        file,
        line: here.line,
        col: here.col,
    }
}

// What stands at a place.
fn front_at(bytes: &[u8], at: usize) -> Front
    requires { at < length bytes.now }
    ensures { Begins result (drop at bytes.now) }
{
    front_of(&bytes[at..])
}

// Whether an end of line is among the bytes.
fn has_line_end(text: &[u8]) -> bool
    ensures { result ≡ list_any ends_line text.now }
{
    text.iter().any(|b| *b == b'\n')
}

// Whether a token behind this piece is the first of its line.
fn first_behind(sort: Sort, text: &[u8], first: bool) -> bool
    ensures { result ≡ first_behind sort text.now first }
{
    match sort {
        Sort::WhiteSpace => first || has_line_end(text),
        Sort::LineComment | Sort::BlockComment => first,
        Sort::Lexeme(_) => false,
    }
}

// Appends the token of a piece, where it has one.
fn push_token(
    alloc: Global,
    tokens: &mut Vec<Token>,
    sort: Sort,
    text: &[u8],
    pos: Pos,
    first: bool,
) -> Result<(), NoMemory>
    ensures { OnOk result (tokens.new.items ≡ tokens.old.items ++ tokens_of_piece sort text.now pos first) }
{
    if let Sort::Lexeme(kind) = sort {
        let text = Name::new(alloc, text)?;
        tokens.push(Token {
            kind,
            text,
            pos,
            first,
        })?;
    }
    Ok(())
}

// The place behind some bytes.
fn behind(here: Pos, piece: &[u8]) -> Pos
    requires line { here.line + length piece.now < 2 ^ 32 }
    requires col { here.col + length piece.now < 2 ^ 32 }
    ensures file { result.file ≡ here.file }
    ensures line { result.line ≤ here.line + length piece.now }
    ensures col { result.col ≤ here.col + length piece.now }
    ensures rest { (rest : ListOf ℕ) → drop (length piece.now) (placed here.line here.col (piece.now ++ rest)) ≡ placed result.line result.col rest }
{
    let mut line = here.line;
    let mut col = here.col;
    for byte in piece {
        line = line_behind(*byte, line);
        col = col_behind(*byte, col);
    }
    Pos {
        file: here.file,
        line,
        col,
    }
}

// The tokens of a text without line splices.
fn lex_whole(alloc: Global, file: u32, text: &[u8]) -> Result<Vec<Token>, Fault>
    requires size { length text.now + 1 < 2 ^ 32 }
    requires whole { source_of text.now ≡ placed 1 1 text.now }
    ensures tokens { IfOk result (λ v. Lexes file text.now v.items) }
    ensures refused { IfErr result (λ e. Fails file text.now e) }
{
    let mut tokens = Vec::new(alloc);
    let mut first = true;
    let mut at = 0;
    let mut here = Pos {
        file,
        line: 1,
        col: 1,
    };
    while at < text.len() {
        match front_at(text, at) {
            Front::Piece(sort, n) => {
                let piece = &text[at..at + n];
                push_token(alloc, &mut tokens, sort, piece, here, first)?;
                first = first_behind(sort, piece, first);
                here = behind(here, piece);
                at += n;
            }
            Front::OpenComment => return Err(Fault::Refused(Refusal::OpenComment(here))),
            Front::BadByte => return Err(Fault::Refused(Refusal::BadChar(here))),
        }
    }
    Ok(tokens)
}

// The tokens of a text with line splices.
fn lex_spliced(alloc: Global, file: u32, text: &[u8]) -> Result<Vec<Token>, Fault>
    requires { length text.now + 1 < 2 ^ 32 }
    ensures tokens { IfOk result (λ v. Lexes file text.now v.items) }
    ensures refused { IfErr result (λ e. Fails file text.now e) }
{
    let source = source_bytes(alloc, text)?;
    let bytes = bytes_of(alloc, &source)?;
    let mut tokens = Vec::new(alloc);
    let mut first = true;
    let mut at = 0;
    while at < source.len() {
        let pos = place(file, &source[at]);
        match front_at(&bytes, at) {
            Front::Piece(sort, n) => {
                let text = &bytes[at..at + n];
                push_token(alloc, &mut tokens, sort, text, pos, first)?;
                first = first_behind(sort, text, first);
                at += n;
            }
            Front::OpenComment => return Err(Fault::Refused(Refusal::OpenComment(pos))),
            Front::BadByte => return Err(Fault::Refused(Refusal::BadChar(pos))),
        }
    }
    Ok(tokens)
}

/// The tokens of a text, each the longest lexeme at its place, with places in the file of this number.
/// Refuses with `OpenComment` the `/*` of a comment without an end, and with `BadChar` the first place where no separator
/// and no token begins, as the first byte of a literal without an end.
pub fn lex(alloc: Global, file: u32, text: &[u8]) -> Result<Vec<Token>, Fault>
    requires { length text.now + 1 < 2 ^ 32 }
    ensures tokens { IfOk result (λ v. Lexes file text.now v.items) }
    ensures refused { IfErr result (λ e. Fails file text.now e) }
{
    if has_splice(text) {
        lex_spliced(alloc, file, text)
    } else {
        lex_whole(alloc, file, text)
    }
}

/// A text has tokens or is refused. It has one list of tokens at most, and is not refused where it has one; and it is
/// refused in one way at most.
pub fn one_lexing()
    ensures some { (file : ℕ) (text : ListOf ℕ) → ((tokens : ListOf TokenOf) × Lexes file text tokens)
        ⊎ ((r : RefusalOf) × IsRefused file text r) }
    ensures one { (file : ℕ) (text : ListOf ℕ) (a b : ListOf TokenOf) → Lexes file text a → Lexes file text b → a ≡ b }
    ensures not_refused { (file : ℕ) (text : ListOf ℕ) (a : ListOf TokenOf) (r : RefusalOf) → Lexes file text a
        → IsRefused file text r → ⊥ }
    ensures one_refusal { (file : ℕ) (text : ListOf ℕ) (r s : RefusalOf) → IsRefused file text r → IsRefused file text s
        → r ≡ s }
{}
