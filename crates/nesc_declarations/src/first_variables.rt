//! Reading variables outside of blocks from behind the name of the first one on.

ghost use Rattle.std.specs.Prelude.{◌≡◌, ◌<◌, ◌^◌};
ghost use Rattle.nesc_tree.specs.Changes.{all_taken_back};
ghost use Rattle.nesc_grammar.specs.Declarations as spec;
ghost use Rattle.nesc_parse_types.specs.Gives.{Gives, form_in};
ghost use Rattle.nesc_heads.specs.Gives.{GivesAs};
ghost use Rattle.nesc_declarations.specs.Forms as forms;
ghost use Rattle.nesc_declarations.specs.Views.{behind_of, first_of};

use crate::ends::{End, FirstEnd, first_dims};
use crate::functions::bracketed_function;
use nesc_declarators::{dims, more_variables, some_init};
use nesc_operands::precedence::begins_expr;
use nesc_parse_decls::{attributes, no_list};
use nesc_parse_exprs::expr;
use nesc_parse_types::{Found, Stop, begins_type, expect};
use nesc_tree::{Change, Expr, Sort, TypeNames, Variable, ahead, level};
use nm_base::{List, Token, beside};
use std::alloc::Global;

#[tactic(auto, unfolding(nesc_tree::specs::Reading::read))]
fn closed_more<'a>(
    alloc: Global,
    names: &mut TypeNames,
    changes: &mut Vec<Change>,
    spare: usize,
    ts: &'a [Token],
) -> Found<'a, List<Variable>>
    requires { spare < 2 ^ 8 }
    ensures gives { Gives names.new result (form_in spare forms.closed_more names.old ts.now) }
    ensures noted { all_taken_back changes.new.items names.new ≡ all_taken_back changes.old.items names.old }
{
    let (more, rest) = more_variables(alloc, names, changes, spare, ts)?;
    let (more, (_, rest)) = beside(more, expect(names, Sort::Semi, rest))?;
    Ok((more, rest))
}

#[tactic(auto, unfolding(nesc_tree::specs::Reading::read))]
fn first_end<'a>(
    alloc: Global,
    names: &mut TypeNames,
    changes: &mut Vec<Change>,
    spare: usize,
    ts: &'a [Token],
) -> Found<'a, FirstEnd>
    requires { spare < 2 ^ 8 }
    ensures gives { GivesAs first_of names.new result (form_in spare forms.first_end names.old ts.now) }
    ensures noted { all_taken_back changes.new.items names.new ≡ all_taken_back changes.old.items names.old }
{
    let (init, rest) = some_init(alloc, names, spare, ts)?;
    let (init, (more, rest)) = beside(init, closed_more(alloc, names, changes, spare, rest))?;
    Ok((FirstEnd { init, more }, rest))
}

/// What is behind the dimensions of the first variable.
#[tactic(auto, unfolding(nesc_tree::specs::Reading::read))]
fn first_variable<'a>(
    alloc: Global,
    names: &mut TypeNames,
    changes: &mut Vec<Change>,
    spare: usize,
    ts: &'a [Token],
) -> Found<'a, FirstEnd>
    requires { spare < 2 ^ 8 }
    ensures gives { GivesAs first_of names.new result (form_in spare spec.first_variable names.old ts.now) }
    ensures noted { all_taken_back changes.new.items names.new ≡ all_taken_back changes.old.items names.old }
{
    let (_, rest) = attributes(alloc, names, spare, ts)?;
    first_end(alloc, names, changes, spare, rest)
}

/// Variables of which the first one has no dimensions.
#[tactic(auto, unfolding(nesc_tree::specs::Reading::read))]
pub fn plain_variables<'a>(
    alloc: Global,
    names: &mut TypeNames,
    changes: &mut Vec<Change>,
    spare: usize,
    ts: &'a [Token],
) -> Found<'a, End<'a>>
    requires { spare < 2 ^ 8 }
    ensures gives { GivesAs behind_of names.new result (form_in spare forms.plain_variables names.old ts.now) }
    ensures noted { all_taken_back changes.new.items names.new ≡ all_taken_back changes.old.items names.old }
{
    let (end, rest) = first_variable(alloc, names, changes, spare, ts)?;
    Ok((End::Variables(no_list(alloc), end), rest))
}

/// The first dimension, from behind its `[` on.
#[tactic(auto, unfolding(nesc_tree::specs::Reading::read))]
fn dimension<'a>(alloc: Global, names: &TypeNames, spare: usize, ts: &'a [Token]) -> Found<'a, Expr>
    requires { spare < 2 ^ 8 }
    ensures { Gives names.now result (form_in spare forms.dimension names.now ts.now) }
{
    let (size, rest) = expr(alloc, names, spare, level::CONDITIONAL, ts)?;
    let (size, (_, rest)) = beside(size, expect(names, Sort::RBracket, rest))?;
    Ok((size.expr, rest))
}

/// The dimensions from behind the first `[` on.
#[tactic(auto, unfolding(nesc_tree::specs::Reading::read))]
fn first_dimension<'a>(
    alloc: Global,
    names: &TypeNames,
    spare: usize,
    ts: &'a [Token],
) -> Found<'a, List<Expr>>
    requires { spare < 2 ^ 8 }
    ensures { Gives names.now result (form_in spare forms.first_dimension names.now ts.now) }
{
    let (size, rest) = dimension(alloc, names, spare, ts)?;
    let (size, (more, rest)) = beside(size, dims(alloc, names, spare, rest))?;
    Ok((first_dims(size, more.exprs)?, rest))
}

#[tactic(auto, unfolding(nesc_tree::specs::Reading::read))]
fn joined_dimensioned<'a>(
    alloc: Global,
    names: &mut TypeNames,
    changes: &mut Vec<Change>,
    spare: usize,
    ts: &'a [Token],
) -> Found<'a, End<'a>>
    requires { spare < 2 ^ 8 }
    ensures gives { GivesAs behind_of names.new result (form_in spare forms.joined_dimensioned names.old ts.now) }
    ensures noted { all_taken_back changes.new.items names.new ≡ all_taken_back changes.old.items names.old }
{
    let (dims, rest) = first_dimension(alloc, names, spare, ts)?;
    let (dims, (end, rest)) = beside(dims, first_variable(alloc, names, changes, spare, rest))?;
    Ok((End::Variables(dims, end), rest))
}

/// Variables of which the first one has dimensions, from behind its `[` on.
fn dimensioned<'a>(
    alloc: Global,
    names: &mut TypeNames,
    changes: &mut Vec<Change>,
    spare: usize,
    ts: &'a [Token],
) -> Found<'a, End<'a>>
    requires { spare < 2 ^ 8 }
    ensures gives { GivesAs behind_of names.new result (form_in spare spec.dimensioned names.old ts.now) }
    ensures noted { all_taken_back changes.new.items names.new ≡ all_taken_back changes.old.items names.old }
{
    joined_dimensioned(alloc, names, changes, spare, ts)
}

/// What is behind `[`: a type begins the parameter of a function's bracket, all else a dimension.
fn behind_bracket<'a>(
    alloc: Global,
    names: &mut TypeNames,
    changes: &mut Vec<Change>,
    spare: usize,
    ts: &'a [Token],
) -> Found<'a, End<'a>>
    requires few { spare < 2 ^ 8 }
    requires room { 0 < spare }
    ensures gives { GivesAs behind_of names.new result (form_in spare forms.behind_bracket names.old ts.now) }
    ensures noted { all_taken_back changes.new.items names.new ≡ all_taken_back changes.old.items names.old }
{
    let first = ahead(names, ts);
    if begins_type(first) {
        return bracketed_function(alloc, names, spare, ts);
    }
    if begins_expr(first) {
        return dimensioned(alloc, names, changes, spare, ts);
    }
    Err(Stop::Syntax(ts))
}

#[tactic(auto, unfolding(nesc_tree::specs::Reading::read))]
pub fn bracketed<'a>(
    alloc: Global,
    names: &mut TypeNames,
    changes: &mut Vec<Change>,
    spare: usize,
    ts: &'a [Token],
) -> Found<'a, End<'a>>
    requires few { spare < 2 ^ 8 }
    requires room { 0 < spare }
    ensures gives { GivesAs behind_of names.new result (form_in spare forms.bracketed names.old ts.now) }
    ensures noted { all_taken_back changes.new.items names.new ≡ all_taken_back changes.old.items names.old }
{
    let (_, rest) = expect(names, Sort::LBracket, ts)?;
    behind_bracket(alloc, names, changes, spare, rest)
}
