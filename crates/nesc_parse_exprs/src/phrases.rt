//! The phrases that nest in one another, each with at most so many levels.

ghost use Rattle.std.specs.Prelude.{◌≡◌, ◌<◌, ◌^◌};
ghost use Rattle.nesc_parse_exprs.specs.Stops.{StopsAt};
ghost use Rattle.nesc_grammar.specs.Grammar as grammar;
ghost use Rattle.nesc_parse_types.specs.Gives.{Gives, expr_in, fields_in, form_in, opened_in};

use crate::expr_reader::ExprReader;
use nesc_operands::precedence::{begins_expr, begins_fields};
use nesc_parse_types::{Found, Reader, Stop};
use nesc_tree::{CastType, Fields, Operand, TypeNames, ahead};
use nm_base::Token;
use std::alloc::Global;

/// Where no level is left, what would begin here is too deep.
pub fn refused(begins: bool, ts: &[Token]) -> Stop<'_>
    ensures { StopsAt result begins ts.now }
{
    if begins {
        Stop::Deep(ts)
    } else {
        Stop::Syntax(ts)
    }
}

/// An expression of at least the level of precedence `least`.
#[cycle(phrases)]
pub fn expr<'a>(
    alloc: Global,
    names: &TypeNames,
    levels: usize,
    least: u8,
    ts: &'a [Token],
) -> Found<'a, Operand>
    requires { levels < 2 ^ 8 }
    ensures { Gives names.now result (expr_in levels least names.now ts.now) }
{
    if levels == 0 {
        return Err(refused(begins_expr(ahead(names, ts)), ts));
    }
    let reader = Reader {
        alloc,
        names,
        spare: levels - 1,
        expr,
        opened,
        fields,
    };
    ExprReader { reader }.expr_of(least, ts)
}

/// A postfix expression that begins with the parenthesis `opening`, from behind it.
#[cycle(phrases)]
pub fn opened<'a>(
    alloc: Global,
    names: &TypeNames,
    levels: usize,
    opening: &Token,
    ts: &'a [Token],
) -> Found<'a, Operand>
    requires { levels < 2 ^ 8 }
    ensures { Gives names.now result (opened_in levels opening.now names.now ts.now) }
{
    if levels == 0 {
        return Err(refused(begins_expr(ahead(names, ts)), ts));
    }
    let reader = Reader {
        alloc,
        names,
        spare: levels - 1,
        expr,
        opened,
        fields,
    };
    ExprReader { reader }.opened_of(opening, ts)
}

/// The fields of a struct definition, with their braces.
#[cycle(phrases)]
pub fn fields<'a>(
    alloc: Global,
    names: &TypeNames,
    levels: usize,
    ts: &'a [Token],
) -> Found<'a, Fields>
    requires { levels < 2 ^ 8 }
    ensures { Gives names.now result (fields_in levels names.now ts.now) }
{
    if levels == 0 {
        return Err(refused(begins_fields(ahead(names, ts)), ts));
    }
    let reader = Reader {
        alloc,
        names,
        spare: levels - 1,
        expr,
        opened,
        fields,
    };
    reader.struct_fields(ts)
}

/// A type without stars, whose parts have at most `levels` levels.
pub fn type_form<'a>(
    alloc: Global,
    names: &TypeNames,
    levels: usize,
    ts: &'a [Token],
) -> Found<'a, CastType>
    requires { levels < 2 ^ 8 }
    ensures { Gives names.now result (form_in levels grammar.type_form names.now ts.now) }
{
    let reader = Reader {
        alloc,
        names,
        spare: levels,
        expr,
        opened,
        fields,
    };
    reader.type_form(ts)
}
