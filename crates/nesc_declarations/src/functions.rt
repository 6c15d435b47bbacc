//! Reading a function from behind its name on: a bracket, parameters, attributes, a body (nesC 1.3 Reference).

ghost use Rattle.std.specs.Prelude.{◌≡◌, ◌<◌, ◌^◌, None};
ghost use Rattle.nesc_tree.specs.Changes.{all_taken_back};
ghost use Rattle.nesc_grammar.specs.Grammar as grammar;
ghost use Rattle.nesc_grammar.specs.Declarations as spec;
ghost use Rattle.nesc_parse_types.specs.Gives.{Gives, form_in};
ghost use Rattle.nesc_heads.specs.Gives.{GivesAs};
ghost use Rattle.nesc_declarations.specs.Forms as forms;
ghost use Rattle.nesc_declarations.specs.Views.{behind_of, called_of, function_of};

use crate::ends::{CallEnd, End, FunctionRest};
use nesc_heads::{bracket, bracket_rest, parameters, some_item_name};
use nesc_parse_decls::attributes;
use nesc_parse_stmts::stmt;
use nesc_parse_types::{Found, Stop, expect};
use nesc_scopes::give_back;
use nesc_tree::{Change, Jumps, Param, Sort, Stmt, TypeNames, ahead};
use nm_base::{List, Token, beside};
use std::alloc::Global;

/// The semicolon of a prototype.
#[tactic(auto, unfolding(nesc_tree::specs::Reading::read))]
fn no_body<'a>(names: &TypeNames, spare: usize, ts: &'a [Token]) -> Found<'a, Option<Stmt>>
    ensures { Gives names.now result (form_in spare forms.no_body names.now ts.now) }
{
    let (_, rest) = expect(names, Sort::Semi, ts)?;
    Ok((None, rest))
}

#[tactic(auto, unfolding(nesc_tree::specs::Reading::read))]
fn body<'a>(
    alloc: Global,
    names: &mut TypeNames,
    spare: usize,
    ts: &'a [Token],
) -> Found<'a, Option<Stmt>>
    requires { spare < 2 ^ 8 }
    ensures gives { Gives names.old result (form_in spare forms.body names.old ts.now) }
    ensures back { names.new ≡ names.old }
{
    let (found, rest) = stmt(alloc, names, spare, Jumps::Neither, ts)?;
    Ok((Some(found), rest))
}

/// The body of a function, or the semicolon of a prototype.
fn some_body<'a>(
    alloc: Global,
    names: &mut TypeNames,
    spare: usize,
    ts: &'a [Token],
) -> Found<'a, Option<Stmt>>
    requires few { spare < 2 ^ 8 }
    requires room { 0 < spare }
    ensures gives { Gives names.old result (form_in spare forms.some_body names.old ts.now) }
    ensures back { names.new ≡ names.old }
{
    match ahead(names, ts) {
        Sort::LBrace => body(alloc, names, spare, ts),
        Sort::Semi => no_body(names, spare, ts),
        _ => Err(Stop::Syntax(ts)),
    }
}

/// What is behind the parameters.
#[tactic(auto, unfolding(nesc_tree::specs::Reading::read))]
fn call_end<'a>(
    alloc: Global,
    names: &mut TypeNames,
    spare: usize,
    params: List<Param>,
    ts: &'a [Token],
) -> Found<'a, CallEnd>
    requires few { spare < 2 ^ 8 }
    requires room { 0 < spare }
    ensures gives { GivesAs called_of names.old result (form_in spare (grammar.applied params forms.call_end) names.old ts.now) }
    ensures back { names.new ≡ names.old }
{
    let (params, (attrs, rest)) = beside(params, attributes(alloc, names, spare, ts))?;
    let ((params, attrs), (body, rest)) = beside(
        (params, attrs),
        some_body(alloc, names, spare, rest),
    )?;
    Ok((
        CallEnd {
            params,
            attrs,
            body,
        },
        rest,
    ))
}

/// A function from its parameters on.
#[tactic(auto, unfolding(nesc_tree::specs::Reading::read))]
fn call_form<'a>(
    alloc: Global,
    names: &mut TypeNames,
    changes: &mut Vec<Change>,
    spare: usize,
    ts: &'a [Token],
) -> Found<'a, CallEnd>
    requires few { spare < 2 ^ 8 }
    requires room { 0 < spare }
    ensures gives { GivesAs called_of names.new result (form_in spare spec.call_form names.old ts.now) }
    ensures noted { all_taken_back changes.new.items names.new ≡ all_taken_back changes.old.items names.old }
{
    let (params, rest) = parameters(alloc, names, changes, spare, ts)?;
    call_end(alloc, names, spare, params, rest)
}

#[tactic(auto, unfolding(nesc_tree::specs::Reading::read))]
fn open_function<'a>(
    alloc: Global,
    names: &mut TypeNames,
    changes: &mut Vec<Change>,
    spare: usize,
    ts: &'a [Token],
) -> Found<'a, FunctionRest>
    requires few { spare < 2 ^ 8 }
    requires room { 0 < spare }
    ensures gives { GivesAs function_of names.new result (form_in spare forms.open_function names.old ts.now) }
    ensures noted { all_taken_back changes.new.items names.new ≡ all_taken_back changes.old.items names.old }
{
    let (bracket, rest) = bracket(alloc, names, changes, spare, ts)?;
    let (call, rest) = call_form(alloc, names, changes, spare, rest)?;
    Ok((FunctionRest { bracket, call }, rest))
}

/// A function from its bracket or its parameters on; their names end with it.
fn function_rest<'a>(
    alloc: Global,
    names: &mut TypeNames,
    spare: usize,
    ts: &'a [Token],
) -> Found<'a, FunctionRest>
    requires few { spare < 2 ^ 8 }
    requires room { 0 < spare }
    ensures gives { GivesAs function_of names.old result (form_in spare spec.function_rest names.old ts.now) }
    ensures back { names.new ≡ names.old }
{
    let mut changes = Vec::new(alloc);
    let found = open_function(alloc, names, &mut changes, spare, ts);
    give_back(names, changes);
    found
}

#[tactic(auto, unfolding(nesc_tree::specs::Reading::read))]
fn open_bracketed<'a>(
    alloc: Global,
    names: &mut TypeNames,
    changes: &mut Vec<Change>,
    spare: usize,
    ts: &'a [Token],
) -> Found<'a, End<'a>>
    requires few { spare < 2 ^ 8 }
    requires room { 0 < spare }
    ensures gives { GivesAs behind_of names.new result (form_in spare forms.open_bracketed names.old ts.now) }
    ensures noted { all_taken_back changes.new.items names.new ≡ all_taken_back changes.old.items names.old }
{
    let (param, rest) = bracket_rest(alloc, names, changes, spare, ts)?;
    let (param, (call, rest)) = beside(param, call_form(alloc, names, changes, spare, rest))?;
    let found = FunctionRest {
        bracket: Some(param),
        call,
    };
    Ok((End::Function(None, found), rest))
}

/// A function from behind the `[` of its bracket on; the names end with it.
pub fn bracketed_function<'a>(
    alloc: Global,
    names: &mut TypeNames,
    spare: usize,
    ts: &'a [Token],
) -> Found<'a, End<'a>>
    requires few { spare < 2 ^ 8 }
    requires room { 0 < spare }
    ensures gives { GivesAs behind_of names.old result (form_in spare spec.bracketed_function names.old ts.now) }
    ensures back { names.new ≡ names.old }
{
    let mut changes = Vec::new(alloc);
    let found = open_bracketed(alloc, names, &mut changes, spare, ts);
    give_back(names, changes);
    found
}

/// A function from behind its name on, where no item of an interface is named.
#[tactic(auto, unfolding(nesc_tree::specs::Reading::read))]
pub fn own_function<'a>(
    alloc: Global,
    names: &mut TypeNames,
    spare: usize,
    ts: &'a [Token],
) -> Found<'a, End<'a>>
    requires few { spare < 2 ^ 8 }
    requires room { 0 < spare }
    ensures gives { GivesAs behind_of names.old result (form_in spare forms.own_function names.old ts.now) }
    ensures back { names.new ≡ names.old }
{
    let (found, rest) = function_rest(alloc, names, spare, ts)?;
    Ok((End::Function(None, found), rest))
}

/// A function from behind its name on, where the item of an interface may be named.
#[tactic(auto, unfolding(nesc_tree::specs::Reading::read))]
pub fn function_end<'a>(
    alloc: Global,
    names: &mut TypeNames,
    spare: usize,
    ts: &'a [Token],
) -> Found<'a, End<'a>>
    requires few { spare < 2 ^ 8 }
    requires room { 0 < spare }
    ensures gives { GivesAs behind_of names.old result (form_in spare spec.function_end names.old ts.now) }
    ensures back { names.new ≡ names.old }
{
    let (item, rest) = some_item_name(names, ts)?;
    let (found, rest) = function_rest(alloc, names, spare, rest)?;
    Ok((End::Function(item, found), rest))
}
