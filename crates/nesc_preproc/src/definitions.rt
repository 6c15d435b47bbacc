//! `#define` lines, and the files that `#include` lines name.

ghost use Rattle.std.specs.Prelude.{◌≡◌, ◌-◌, ◌&&◌, not, [], length, take, drop, IfOk, option_copied};
ghost use Rattle.nesc_macros.specs.Invocation.{is_among, is_word, is_sign};
ghost use Rattle.nesc_preproc.specs.Definitions.{touches, is_spliced, may_touch, is_hash, has_hash, has_paste, with_replacement, object_like, function_like, next_parameter, parameters_of, with_parameters, joined_in, opens_parameters, defined_behind, defined_by, only_word, angled, quoted, included_by};

use crate::file_table::FileTable;
use nesc_macros::{Macro, is_among, is_sign, is_word};
use nm_base::{Kind, List, Name, NoMemory, Token};
use std::alloc::Global;

fn touches(a: &Token, b: &Token) -> bool
    ensures { result ≡ touches a.now b.now }
{
    a.pos.line == b.pos.line
        && u64::from(a.pos.col) + a.text.as_bytes().len() as u64 == u64::from(b.pos.col)
}

// Whether the second may touch the first across a line splice: it begins a later line.
fn is_spliced(a: &Token, b: &Token) -> bool
    ensures { result ≡ is_spliced a.now b.now }
{
    a.pos.line != b.pos.line && b.pos.col == 1
}

fn may_touch(a: &Token, b: &Token) -> bool
    ensures { result ≡ may_touch a.now b.now }
{
    touches(a, b) || is_spliced(a, b)
}

fn is_hash(token: &Token) -> bool
    ensures { result ≡ is_hash token.now }
{
    is_sign(b"#", token)
}

fn has_hash(tokens: &[Token]) -> bool
    ensures { result ≡ has_hash tokens.now }
{
    tokens.iter().any(|token| is_hash(token))
}

// Whether the two tokens are `##`, or may be.
fn is_paste(a: &Token, b: &Token) -> bool
    ensures { result ≡ (is_hash a.now && (is_hash b.now && may_touch a.now b.now)) }
{
    is_hash(a) && is_hash(b) && may_touch(a, b)
}

fn has_paste(tokens: &[Token]) -> bool
    ensures { result ≡ has_paste tokens.now }
{
    let mut rest = tokens;
    while let [a, after @ ..] = rest {
        if let [b, ..] = after {
            if is_paste(a, b) {
                return true;
            }
        }
        rest = after;
    }
    false
}

fn copied(alloc: Global, tokens: &[Token]) -> Result<List<Token>, NoMemory>
    ensures { IfOk result (λ list. list ≡ tokens.now) }
{
    Ok(List::new(tokens.to_vec(alloc)?))
}

fn object_like(alloc: Global, name: &Name, tokens: &[Token]) -> Result<Option<Macro>, NoMemory>
    ensures { IfOk result (λ m. m ≡ object_like name.now tokens.now) }
{
    if has_paste(tokens) {
        return Ok(None);
    }
    Ok(Some(Macro {
        name: name.clone()?,
        parameters: None,
        replacement: copied(alloc, tokens)?,
    }))
}

fn function_like(
    alloc: Global,
    name: &Name,
    parameters: Vec<Name>,
    tokens: &[Token],
) -> Result<Option<Macro>, NoMemory>
    ensures { IfOk result (λ m. m ≡ function_like name.now parameters.items tokens.now) }
{
    if has_hash(tokens) {
        return Ok(None);
    }
    Ok(Some(Macro {
        name: name.clone()?,
        parameters: Some(List::new(parameters)),
        replacement: copied(alloc, tokens)?,
    }))
}

/// What a token is in a parameter list, by the sign that follows it.
#[derive(Clone, Copy, Debug)]
pub(crate) enum NextParameter {
    Malformed,
    Last,
    More,
}

fn next_parameter(before: &[Name], token: &Token, separator: &Token) -> NextParameter
    ensures { result ≡ next_parameter before.now token.now separator.now }
{
    if !is_word(token) || is_among(before, &token.text) {
        NextParameter::Malformed
    } else if is_sign(b")", separator) {
        NextParameter::Last
    } else if is_sign(b",", separator) {
        NextParameter::More
    } else {
        NextParameter::Malformed
    }
}

// The macro with the parameter list behind the opening parenthesis.
fn parameters_of(alloc: Global, name: &Name, tokens: &[Token]) -> Result<Option<Macro>, NoMemory>
    ensures { IfOk result (λ m. m ≡ parameters_of name.now [] tokens.now) }
{
    let mut parameters = Vec::new(alloc);
    let mut rest = tokens;
    while let Some((parameter, behind)) = rest.split_first() {
        let Some((separator, after)) = behind.split_first() else {
            return Ok(None);
        };
        match next_parameter(parameters.as_slice(), parameter, separator) {
            NextParameter::Malformed => return Ok(None),
            NextParameter::Last => {
                parameters.push(parameter.text.clone()?)?;
                return function_like(alloc, name, parameters, after);
            }
            NextParameter::More => {
                parameters.push(parameter.text.clone()?)?;
                rest = after;
            }
        }
    }
    Ok(None)
}

fn with_parameters(alloc: Global, name: &Name, tokens: &[Token]) -> Result<Option<Macro>, NoMemory>
    ensures { IfOk result (λ m. m ≡ with_parameters name.now tokens.now) }
{
    match tokens {
        [] => Ok(None),
        [first, after @ ..] => {
            if is_sign(b")", first) {
                function_like(alloc, name, Vec::new(alloc), after)
            } else {
                parameters_of(alloc, name, tokens)
            }
        }
    }
}

// Whether the token opens the parameter list of a macro of this name.
fn opens_parameters(files: &FileTable, name: &Token, token: &Token) -> bool
    ensures { result ≡ opens_parameters (joined_in files.now.texts) name.now token.now }
{
    is_sign(b"(", token) && (touches(name, token) || files.is_joined(token.pos))
}

fn defined_behind(
    alloc: Global,
    files: &FileTable,
    name: &Token,
    tokens: &[Token],
) -> Result<Option<Macro>, NoMemory>
    ensures { IfOk result (λ m. m ≡ defined_behind (joined_in files.now.texts) name.now tokens.now) }
{
    match tokens {
        [] => object_like(alloc, &name.text, tokens),
        [first, after @ ..] => {
            if opens_parameters(files, name, first) {
                with_parameters(alloc, &name.text, after)
            } else {
                object_like(alloc, &name.text, tokens)
            }
        }
    }
}

/// The macro of the line behind `#define`, in one of these files; None where it is malformed.
pub(crate) fn defined_by(
    alloc: Global,
    files: &FileTable,
    line: &[Token],
) -> Result<Option<Macro>, NoMemory>
    ensures { IfOk result (λ m. m ≡ defined_by (joined_in files.now.texts) line.now) }
{
    match line {
        [] => Ok(None),
        [name, after @ ..] => {
            if is_word(name) {
                defined_behind(alloc, files, name, after)
            } else {
                Ok(None)
            }
        }
    }
}

/// The one word of a line.
pub(crate) fn only_word(line: &[Token]) -> Option<&Name>
    ensures { option_copied result ≡ only_word line.now }
{
    match line {
        [token] => {
            if is_word(token) {
                Some(&token.text)
            } else {
                None
            }
        }
        _ => None,
    }
}

// The spellings up to `>`, which has to be the last token. Each touches the one before it.
fn angled(alloc: Global, bracket: &Token, tokens: &[Token]) -> Result<Option<Name>, NoMemory>
    ensures { IfOk result (λ name. name ≡ angled bracket.now [] tokens.now) }
{
    let mut spelling = Vec::new(alloc);
    let mut last = bracket;
    let mut rest = tokens;
    while let [token, after @ ..] = rest {
        if !touches(last, token) {
            return Ok(None);
        }
        if is_sign(b">", token) {
            if after.is_empty() {
                return Ok(Some(Name::new(alloc, spelling.as_slice())?));
            }
            return Ok(None);
        }
        spelling.extend_from_slice(token.text.as_bytes())?;
        last = token;
        rest = after;
    }
    Ok(None)
}

// What stands in a text literal.
fn unquoted(text: &[u8]) -> &[u8]
    ensures { result.now ≡ take (length text.now - 2) (drop 1 text.now) }
{
    if text.len() < 2 {
        return &[];
    }
    &text[1..text.len() - 1]
}

fn quoted(alloc: Global, token: &Token, after: &[Token]) -> Result<Option<Name>, NoMemory>
    ensures { IfOk result (λ name. name ≡ quoted token.now after.now) }
{
    if after.is_empty() {
        Ok(Some(Name::new(alloc, unquoted(token.text.as_bytes()))?))
    } else {
        Ok(None)
    }
}

/// The file of the line behind `#include`; None where it is malformed.
pub(crate) fn included_by(alloc: Global, line: &[Token]) -> Result<Option<Name>, NoMemory>
    ensures { IfOk result (λ name. name ≡ included_by line.now) }
{
    let [first, after @ ..] = line else {
        return Ok(None);
    };
    if first.kind == Kind::Text {
        return quoted(alloc, first, after);
    }
    if is_sign(b"<", first) {
        return angled(alloc, first, after);
    }
    Ok(None)
}
