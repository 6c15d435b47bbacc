//! Lines of configurations made of their parts.

ghost use Rattle.std.specs.Prelude.{◌≡◌, IfOk, [], ◌∷◌};
ghost use Rattle.nesc_grammar.specs.Grammar as grammar;
ghost use Rattle.nesc_grammar.specs.Components as spec;
ghost use Rattle.nesc_grammar.specs.Declarations as inner;
ghost use Rattle.nesc_heads.specs.Gives.{token_in};
ghost use Rattle.nesc_tree.specs.declared.components.ConfLine.TheVariants as variants;
ghost use Rattle.nesc_configurations.specs.Parts as parts;

use nesc_parse_decls::single;
use nesc_tree::{CastType, ConfLine, Decl, Expr, GenericArg, Operand, Sort, WireEnd};
use nm_base::{List, Name, NoMemory, Pos, Token, beside};
use std::alloc::Global;

// The texts of two tokens.
fn two_texts(alloc: Global, first: &Token, second: &Token) -> Result<(Name, Name), NoMemory>
    ensures { IfOk result (λ x. (x.0 ≡ first.now.text) × (x.1 ≡ second.now.text)) }
{
    let first = Name::new(alloc, first.text.as_bytes())?;
    beside(first, Name::new(alloc, second.text.as_bytes()))
}

/// A component, with its arguments where it is a new one.
pub fn component_of(
    alloc: Global,
    name: &Token,
    args: Option<List<GenericArg>>,
    alias: &Token,
) -> Result<ConfLine, NoMemory>
    ensures { IfOk result (λ l. l ≡ parts.component_of name.now args alias.now) }
{
    let (args, texts) = beside(args, two_texts(alloc, name, alias))?;
    Ok(ConfLine::Component {
        name: texts.0,
        new_args: args,
        alias: texts.1,
        pos: name.pos,
    })
}

// The text of a token, where there is one.
fn text_in(alloc: Global, token: Option<&Token>) -> Result<Option<Name>, NoMemory>
    ensures { IfOk result (λ x. x ≡ inner.text_of (token_in token.entry)) }
{
    match token {
        None => Ok(None),
        Some(token) => Ok(Some(Name::new(alloc, token.text.as_bytes())?)),
    }
}

// The value in a bracket, where there is one.
fn value_in(found: Option<Operand>) -> Option<Expr>
    ensures { result ≡ grammar.value_of found }
{
    match found {
        None => None,
        Some(operand) => Some(operand.expr),
    }
}

// The texts of the names of an end.
fn end_texts(
    alloc: Global,
    first: &Token,
    second: Option<&Token>,
) -> Result<(Name, Option<Name>), NoMemory>
    ensures { IfOk result (λ x. (x.0 ≡ first.now.text) × (x.1 ≡ inner.text_of (token_in second.entry))) }
{
    let first = Name::new(alloc, first.text.as_bytes())?;
    beside(first, text_in(alloc, second))
}

/// An end of a wire.
pub fn end_of(
    alloc: Global,
    first: &Token,
    second: Option<&Token>,
    param: Option<Operand>,
) -> Result<WireEnd, NoMemory>
    ensures { IfOk result (λ e. e ≡ spec.end_of (token_in second.entry) param first.now) }
{
    let (param, texts) = beside(param, end_texts(alloc, first, second))?;
    Ok(WireEnd {
        first: texts.0,
        second: texts.1,
        param: value_in(param),
    })
}

// What the joint makes of the ends before and behind it.
fn joined(joint: Sort, before: WireEnd, behind: WireEnd, at: Pos) -> ConfLine
    ensures { result ≡ spec.joined joint before behind at }
{
    match joint {
        Sort::Arrow => ConfLine::Link {
            from: before,
            to: behind,
            pos: at,
        },
        Sort::BackArrow => ConfLine::Link {
            from: behind,
            to: before,
            pos: at,
        },
        _ => ConfLine::Equate {
            a: before,
            b: behind,
            pos: at,
        },
    }
}

/// A line that is a wire.
pub fn wire_of(
    alloc: Global,
    joint: Sort,
    before: WireEnd,
    behind: WireEnd,
    at: Pos,
) -> Result<List<ConfLine>, NoMemory>
    ensures { IfOk result (λ l. l ≡ spec.joined joint before behind at ∷ []) }
{
    single(alloc, joined(joint, before, behind, at))
}

/// A line that is a declaration.
pub fn declaration_of(alloc: Global, decl: Decl) -> Result<List<ConfLine>, NoMemory>
    ensures { IfOk result (λ l. l ≡ variants.Decl decl ∷ []) }
{
    single(alloc, ConfLine::Decl(decl))
}

/// A line that is a type alone.
pub fn type_of(alloc: Global, found: CastType) -> Result<List<ConfLine>, NoMemory>
    ensures { IfOk result (λ l. l ≡ spec.type_line found) }
{
    declaration_of(alloc, Decl::TypeOnly(found.ty, found.from))
}
