//! Expressions: a walk over their trees.

ghost use Rattle.std.specs.Prelude.{map};
ghost use Rattle.nesc_core.specs.View.{type_of as core_type_of, exprs_of as core_exprs_of};
ghost use Rattle.nesc_tree.specs.View.{expr_of, exprs_of, spec_of};
ghost use Rattle.nesc_tree.specs.Plain as s;
ghost use Rattle.elab_meaning.specs.View.{item_of as item_of_rust, typed_of};
ghost use Rattle.elab_forms.specs.Trees.{maybe_of, nowhere};
ghost use Rattle.elab_exprs.specs.Walk.{AreExprs, IsConstant, IsExpr, IsFound, IsValue, argument_at, arguments_at, chosen_at, found_at, item_call_at, item_call_with_at, measured_at, parameter_at, size_at, value_at};

use crate::constants::constant_in;
use crate::types::type_of;
use elab_copies::stored;
use elab_forms::{Told, called_item, no_parameter, null, sized_found, unique_found, uniques_found};
use elab_meaning::{Found, Item, Typed, Work};
use elab_names::{
    body_reached, called, callee, const_of, item_named, literal, look_up, named, port, posted,
    read_from, same_count, written,
};
use elab_operators::{as_value, binary, chosen, element, prefixed};
use elab_places::{cast_to, indexed, member, member_behind, stepped};
use elab_values::{assignable, bad_type, comma, converted, sized};
use nesc_core::{CoreExpr, CoreType};
use nesc_tree::{Expr, InOp, PostOp, PreOp, TypeSpec};
use nesc_types::{Constant, character, number, pos_of};
use nm_base::{Boxed, Fault, IntType, List, Name, Pos, beside};
use std::alloc::Global;

// What an expression is.
#[cycle(walk)]
#[tactic(auto, unfolding(crate::specs::Walk::IsFound, crate::specs::Walk::found_at, crate::specs::Walk::item_call_at))]
pub(crate) fn found(alloc: Global, told: &Told, work: &mut Work, e: &Expr) -> Result<Found, Fault>
    ensures { IsFound result work.new (found_at told.now (expr_of e.now) work.old) }
{
    match e {
        Expr::Name(name, at) => named(alloc, *at, look_up(work.names.as_slice(), name)),
        Expr::Number(text, at) => literal(*at, number(text.as_bytes())),
        Expr::Char(text, at) => literal(*at, character(text.as_bytes())),
        Expr::Null(_) => null(alloc),
        Expr::Unique(_, at) => unique_found(told, work, *at),
        Expr::UniqueCount(text, at) => uniques_found(told, work, *at, text),
        Expr::Unary(o, a, at) => unary(alloc, told, work, a.get(), *o, *at),
        Expr::Postfix(o, a, at) => postfix(alloc, told, work, a.get(), *o, *at),
        Expr::Binary(o, a, b, at) => between(alloc, told, work, a.get(), b.get(), *o, *at),
        Expr::Assign(o, a, b, at) => assign(alloc, told, work, a.get(), b.get(), *o, *at),
        Expr::Cond(a, b, c, at) => choice(alloc, told, work, a.get(), b.get(), c.get(), *at),
        Expr::Comma(a, b, _) => both(alloc, told, work, a.get(), b.get()),
        Expr::Cast(t, a, at) => cast(alloc, told, work, t, a.get(), *at),
        Expr::SizeOfExpr(a, at) => size_found(alloc, told, work, a.get(), *at),
        Expr::SizeOfType(t, at) => type_size_found(alloc, told, work, t, *at),
        Expr::Index(a, i, at) => index(alloc, told, work, a.get(), i.get(), *at),
        Expr::Member(a, name, at) => field(alloc, told, work, a.get(), name, *at),
        Expr::Arrow(a, name, at) => field_behind(alloc, told, work, a.get(), name, *at),
        Expr::CallFn(f, args, at) => call(alloc, told, work, f.get(), args, *at),
        Expr::CallItem {
            signal,
            element,
            item,
            param,
            args,
            pos,
        } => {
            let found = item_named(*pos, *signal, told.env.items.as_slice(), element, item)?;
            call_item(alloc, told, work, args, param, *pos, found.0, found.1)
        }
        Expr::PortRead(p, _) => port_read(alloc, told, work, p.get()),
        Expr::PortWrite(p, a, _) => port_write(alloc, told, work, p.get(), a.get()),
        Expr::Post(name, at) => posted(*at, look_up(work.names.as_slice(), name)),
    }
}

// An expression as a value.
#[cycle(walk)]
#[tactic(auto, unfolding(crate::specs::Walk::IsFound, crate::specs::Walk::IsValue, crate::specs::Walk::found_at, crate::specs::Walk::value_at, elab_meaning::specs::Wired::valued))]
pub(crate) fn value(alloc: Global, told: &Told, work: &mut Work, e: &Expr) -> Result<Typed, Fault>
    ensures { IsValue result work.new (value_at told.now (expr_of e.now) work.old) }
{
    let f = found(alloc, told, work, e)?;
    as_value(alloc, work, pos_of(e), f)
}

// An operator before an expression.
#[cycle(walk)]
#[tactic(auto, unfolding(crate::specs::Walk::IsFound, crate::specs::Walk::found_at))]
fn unary(
    alloc: Global,
    told: &Told,
    work: &mut Work,
    a: &Expr,
    o: PreOp,
    at: Pos,
) -> Result<Found, Fault>
    ensures { IsFound result work.new (found_at told.now (s.unary o (expr_of a.now) at) work.old) }
{
    let f = found(alloc, told, work, a)?;
    prefixed(alloc, work, o, at, pos_of(a), f)
}

// An operator behind an expression.
#[cycle(walk)]
#[tactic(auto, unfolding(crate::specs::Walk::IsFound, crate::specs::Walk::found_at))]
fn postfix(
    alloc: Global,
    told: &Told,
    work: &mut Work,
    a: &Expr,
    o: PostOp,
    at: Pos,
) -> Result<Found, Fault>
    ensures { IsFound result work.new (found_at told.now (s.postfix o (expr_of a.now) at) work.old) }
{
    let f = found(alloc, told, work, a)?;
    let p = assignable(at, f)?;
    stepped(alloc, work.structs.as_slice(), at, o, p)
}

// An operator between two expressions.
#[cycle(walk)]
#[tactic(auto, unfolding(crate::specs::Walk::IsFound, crate::specs::Walk::IsValue, crate::specs::Walk::found_at, crate::specs::Walk::value_at))]
fn between(
    alloc: Global,
    told: &Told,
    work: &mut Work,
    a: &Expr,
    b: &Expr,
    o: InOp,
    at: Pos,
) -> Result<Found, Fault>
    ensures { IsFound result work.new (found_at told.now (s.binary o (expr_of a.now) (expr_of b.now) at) work.old) }
{
    let x = value(alloc, told, work, a)?;
    let (x, y) = beside(x, value(alloc, told, work, b))?;
    binary(alloc, work, o, at, x, y)
}

// `=`, or an operator before it.
#[cycle(walk)]
#[tactic(auto, unfolding(crate::specs::Walk::IsFound, crate::specs::Walk::found_at))]
fn assign(
    alloc: Global,
    told: &Told,
    work: &mut Work,
    a: &Expr,
    b: &Expr,
    o: Option<InOp>,
    at: Pos,
) -> Result<Found, Fault>
    ensures { IsFound result work.new (found_at told.now (s.assign o (expr_of a.now) (expr_of b.now) at) work.old) }
{
    let f = found(alloc, told, work, a)?;
    let p = assignable(at, f)?;
    let (p, g) = beside(p, found(alloc, told, work, b))?;
    stored(alloc, work, o, at, pos_of(b), p, g)
}

// `?:`.
#[cycle(walk)]
#[tactic(auto, unfolding(crate::specs::Walk::IsFound, crate::specs::Walk::IsValue, crate::specs::Walk::chosen_at, crate::specs::Walk::found_at, crate::specs::Walk::value_at))]
fn choice(
    alloc: Global,
    told: &Told,
    work: &mut Work,
    a: &Expr,
    b: &Expr,
    c: &Expr,
    at: Pos,
) -> Result<Found, Fault>
    ensures { IsFound result work.new (found_at told.now (s.choice (expr_of a.now) (expr_of b.now) (expr_of c.now) at) work.old) }
{
    let x = value(alloc, told, work, a)?;
    let (x, y) = beside(x, value(alloc, told, work, b))?;
    choice_with(alloc, told, work, c, at, x, y)
}

// The third part of `?:`, behind the others.
#[cycle(walk)]
#[tactic(auto, unfolding(crate::specs::Walk::IsFound, crate::specs::Walk::IsValue, crate::specs::Walk::chosen_at, crate::specs::Walk::value_at))]
fn choice_with(
    alloc: Global,
    told: &Told,
    work: &mut Work,
    c: &Expr,
    at: Pos,
    x: Typed,
    y: Typed,
) -> Result<Found, Fault>
    ensures { IsFound result work.new (chosen_at told.now (expr_of c.now) at (typed_of x) (typed_of y) work.old) }
{
    let ((x, y), z) = beside((x, y), value(alloc, told, work, c))?;
    chosen(alloc, at, x, y, z)
}

// `,`.
#[cycle(walk)]
#[tactic(auto, unfolding(crate::specs::Walk::IsFound, crate::specs::Walk::IsValue, crate::specs::Walk::found_at, crate::specs::Walk::value_at))]
fn both(alloc: Global, told: &Told, work: &mut Work, a: &Expr, b: &Expr) -> Result<Found, Fault>
    ensures { IsFound result work.new (found_at told.now (s.comma (expr_of a.now) (expr_of b.now) nowhere) work.old) }
{
    let x = value(alloc, told, work, a)?;
    let (x, y) = beside(x, value(alloc, told, work, b))?;
    Ok(comma(alloc, x, y)?)
}

// A cast.
#[cycle(walk)]
#[tactic(auto, unfolding(crate::specs::Walk::IsFound, crate::specs::Walk::IsType, crate::specs::Walk::IsValue, crate::specs::Walk::found_at, crate::specs::Walk::type_at, crate::specs::Walk::value_at))]
fn cast(
    alloc: Global,
    told: &Told,
    work: &mut Work,
    t: &TypeSpec,
    a: &Expr,
    at: Pos,
) -> Result<Found, Fault>
    ensures { IsFound result work.new (found_at told.now (s.cast (spec_of t.now) (expr_of a.now) at) work.old) }
{
    let to = type_of(alloc, told, work, t, at)?;
    let v = value(alloc, told, work, a)?;
    cast_to(alloc, pos_of(a), to, v)
}

// `sizeof` of an expression, which is not evaluated.
#[cycle(walk)]
#[tactic(auto, unfolding(crate::specs::Walk::IsConstant, crate::specs::Walk::IsFound, crate::specs::Walk::found_at, crate::specs::Walk::measured_at, elab_meaning::specs::Wired::measured))]
pub(crate) fn measured(
    alloc: Global,
    told: &Told,
    work: &mut Work,
    a: &Expr,
    at: Pos,
) -> Result<Constant, Fault>
    ensures { IsConstant result work.new (measured_at told.now (expr_of a.now) at work.old) }
{
    let kept = work.set_aside(alloc);
    let f = found(alloc, told, work, a)?;
    work.restore(kept);
    sized_found(work.structs.as_slice(), at, f)
}

// `sizeof` of a type.
#[cycle(walk)]
#[tactic(auto, unfolding(crate::specs::Walk::IsConstant, crate::specs::Walk::IsType, crate::specs::Walk::size_at, crate::specs::Walk::type_at, elab_meaning::specs::Wired::size_of))]
pub(crate) fn type_size(
    alloc: Global,
    told: &Told,
    work: &mut Work,
    t: &TypeSpec,
    at: Pos,
) -> Result<Constant, Fault>
    ensures { IsConstant result work.new (size_at told.now (spec_of t.now) at work.old) }
{
    let t = type_of(alloc, told, work, t, at)?;
    sized(work.structs.as_slice(), at, &t)
}

// `sizeof` of an expression, as a value.
#[cycle(walk)]
#[tactic(auto, unfolding(crate::specs::Walk::IsConstant, crate::specs::Walk::IsFound, crate::specs::Walk::found_at, crate::specs::Walk::measured_at))]
fn size_found(
    alloc: Global,
    told: &Told,
    work: &mut Work,
    a: &Expr,
    at: Pos,
) -> Result<Found, Fault>
    ensures { IsFound result work.new (found_at told.now (s.size_of_expr (expr_of a.now) at) work.old) }
{
    let x = measured(alloc, told, work, a, at)?;
    Ok(const_of(x))
}

// `sizeof` of a type, as a value.
#[cycle(walk)]
#[tactic(auto, unfolding(crate::specs::Walk::IsConstant, crate::specs::Walk::IsFound, crate::specs::Walk::found_at, crate::specs::Walk::size_at))]
fn type_size_found(
    alloc: Global,
    told: &Told,
    work: &mut Work,
    t: &TypeSpec,
    at: Pos,
) -> Result<Found, Fault>
    ensures { IsFound result work.new (found_at told.now (s.size_of_type (spec_of t.now) at) work.old) }
{
    let x = type_size(alloc, told, work, t, at)?;
    Ok(const_of(x))
}

// An element.
#[cycle(walk)]
#[tactic(auto, unfolding(crate::specs::Walk::IsFound, crate::specs::Walk::IsValue, crate::specs::Walk::found_at, crate::specs::Walk::value_at))]
fn index(
    alloc: Global,
    told: &Told,
    work: &mut Work,
    a: &Expr,
    i: &Expr,
    at: Pos,
) -> Result<Found, Fault>
    ensures { IsFound result work.new (found_at told.now (s.index (expr_of a.now) (expr_of i.now) at) work.old) }
{
    let f = found(alloc, told, work, a)?;
    let base = indexed(alloc, work, pos_of(a), f)?;
    let (base, v) = beside(base, value(alloc, told, work, i))?;
    element(alloc, work.structs.as_slice(), at, base, v)
}

// `.`.
#[cycle(walk)]
#[tactic(auto, unfolding(crate::specs::Walk::IsFound, crate::specs::Walk::found_at))]
fn field(
    alloc: Global,
    told: &Told,
    work: &mut Work,
    a: &Expr,
    name: &Name,
    at: Pos,
) -> Result<Found, Fault>
    ensures { IsFound result work.new (found_at told.now (s.member (expr_of a.now) name.now at) work.old) }
{
    let f = found(alloc, told, work, a)?;
    member(alloc, work.structs.as_slice(), at, f, name)
}

// `->`.
#[cycle(walk)]
#[tactic(auto, unfolding(crate::specs::Walk::IsFound, crate::specs::Walk::IsValue, crate::specs::Walk::found_at, crate::specs::Walk::value_at))]
fn field_behind(
    alloc: Global,
    told: &Told,
    work: &mut Work,
    a: &Expr,
    name: &Name,
    at: Pos,
) -> Result<Found, Fault>
    ensures { IsFound result work.new (found_at told.now (s.arrow (expr_of a.now) name.now at) work.old) }
{
    let v = value(alloc, told, work, a)?;
    member_behind(alloc, work.structs.as_slice(), at, v, name)
}

// A call of a function.
#[cycle(walk)]
#[tactic(auto, unfolding(crate::specs::Walk::AreExprs, crate::specs::Walk::IsFound, crate::specs::Walk::arguments_at, crate::specs::Walk::found_at))]
fn call(
    alloc: Global,
    told: &Told,
    work: &mut Work,
    f: &Expr,
    args: &List<Expr>,
    at: Pos,
) -> Result<Found, Fault>
    ensures { IsFound result work.new (found_at told.now (s.call_fn (expr_of f.now) (exprs_of args.now) at) work.old) }
{
    let g = callee(alloc, work.names.as_slice(), f)?;
    same_count(at, g.params.len(), args)?;
    let es = arguments(alloc, told, work, args, g.params.as_slice())?;
    Ok(called(at, g, List::new(es)))
}

// Arguments as values of the types of parameters, from left to right.
#[cycle(walk)]
#[tactic(auto, using(crate::proofs::Loops::argument_lists), unfolding(crate::specs::Walk::AreExprs, crate::specs::Walk::IsExpr, crate::specs::Walk::argument_at, crate::specs::Walk::arguments_at))]
fn arguments(
    alloc: Global,
    told: &Told,
    work: &mut Work,
    args: &List<Expr>,
    params: &[CoreType],
) -> Result<Vec<CoreExpr>, Fault>
    ensures { AreExprs result work.new (arguments_at told.now (map core_type_of params.now) (exprs_of args.now) work.old) }
{
    let mut values = Vec::new(alloc);
    let mut params = params;
    for a in args.as_slice() {
        let Some((t, rest)) = params.split_first() else {
            return Ok(values);
        };
        let x = argument(alloc, told, work, a, t)?;
        values.push(x)?;
        params = rest;
    }
    Ok(values)
}

// An argument as a value of its parameter's type.
#[cycle(walk)]
#[tactic(auto, unfolding(crate::specs::Walk::IsExpr, crate::specs::Walk::IsValue, crate::specs::Walk::argument_at, crate::specs::Walk::value_at, elab_meaning::specs::Wired::argument))]
fn argument(
    alloc: Global,
    told: &Told,
    work: &mut Work,
    a: &Expr,
    t: &CoreType,
) -> Result<CoreExpr, Fault>
    ensures { IsExpr result work.new (argument_at told.now (core_type_of t.now) (expr_of a.now) work.old) }
{
    let v = value(alloc, told, work, a)?;
    converted(alloc, pos_of(a), t, v)
}

// The argument of an element's parameter.
#[cycle(walk)]
#[tactic(auto, unfolding(crate::specs::Walk::AreExprs, crate::specs::Walk::parameter_at))]
fn parameter(
    alloc: Global,
    told: &Told,
    work: &mut Work,
    param: &Option<Boxed<Expr>>,
    t: Option<IntType>,
    at: Pos,
) -> Result<Vec<CoreExpr>, Fault>
    ensures { AreExprs result work.new (parameter_at told.now at t (maybe_of param.now) work.old) }
{
    match param {
        None => no_parameter(alloc, at, t),
        Some(a) => given_parameter(alloc, told, work, a.get(), t, at),
    }
}

// An argument that is given for an element's parameter.
#[cycle(walk)]
#[tactic(auto, unfolding(crate::specs::Walk::AreExprs, crate::specs::Walk::IsExpr, crate::specs::Walk::argument_at, crate::specs::Walk::parameter_at))]
fn given_parameter(
    alloc: Global,
    told: &Told,
    work: &mut Work,
    a: &Expr,
    t: Option<IntType>,
    at: Pos,
) -> Result<Vec<CoreExpr>, Fault>
    ensures { AreExprs result work.new (parameter_at told.now at t (s.some_expr (expr_of a.now)) work.old) }
{
    match t {
        None => bad_type(at),
        Some(t) => {
            let x = argument(alloc, told, work, a, &CoreType::Int(t))?;
            Ok(vec![in alloc; x]?)
        }
    }
}

// A call of an item, whose element may have a parameter.
#[cycle(walk)]
#[tactic(auto, unfolding(crate::specs::Walk::AreExprs, crate::specs::Walk::IsFound, crate::specs::Walk::item_call_at, crate::specs::Walk::item_call_with_at, crate::specs::Walk::parameter_at))]
fn call_item(
    alloc: Global,
    told: &Told,
    work: &mut Work,
    args: &List<Expr>,
    param: &Option<Boxed<Expr>>,
    at: Pos,
    number: u32,
    item: &Item,
) -> Result<Found, Fault>
    ensures { IsFound result work.new (item_call_at told.now at (number, item_of_rust item.now) (maybe_of param.now) (exprs_of args.now) work.old) }
{
    same_count(at, item.params.as_slice().len(), args)?;
    let ps = parameter(alloc, told, work, param, item.parameter, at)?;
    call_item_with(alloc, told, work, args, at, number, item, ps)
}

// A call of an item, behind the argument of its element's parameter.
#[cycle(walk)]
#[tactic(auto, unfolding(crate::specs::Walk::AreExprs, crate::specs::Walk::IsFound, crate::specs::Walk::arguments_at, crate::specs::Walk::item_call_with_at))]
fn call_item_with(
    alloc: Global,
    told: &Told,
    work: &mut Work,
    args: &List<Expr>,
    at: Pos,
    number: u32,
    item: &Item,
    ps: Vec<CoreExpr>,
) -> Result<Found, Fault>
    ensures { IsFound result work.new (item_call_with_at told.now at (number, item_of_rust item.now) (exprs_of args.now) (core_exprs_of ps.items) work.old) }
{
    let es = arguments(alloc, told, work, args, item.params.as_slice())?;
    let body = body_reached(&told.env, work, at, number, item.body)?;
    called_item(alloc, told, at, number, item, body, ps, es)
}

// `port_read`.
#[cycle(walk)]
#[tactic(auto, unfolding(crate::specs::Walk::IsConstant, crate::specs::Walk::IsFound, crate::specs::Walk::constant_at, crate::specs::Walk::found_at))]
fn port_read(alloc: Global, told: &Told, work: &mut Work, p: &Expr) -> Result<Found, Fault>
    ensures { IsFound result work.new (found_at told.now (s.port_read (expr_of p.now) nowhere) work.old) }
{
    let k = constant_in(alloc, told, work, p, pos_of(p), true)?;
    let n = port(pos_of(p), k.1)?;
    Ok(read_from(n))
}

// `port_write`.
#[cycle(walk)]
#[tactic(auto, unfolding(crate::specs::Walk::IsConstant, crate::specs::Walk::IsFound, crate::specs::Walk::IsValue, crate::specs::Walk::constant_at, crate::specs::Walk::found_at, crate::specs::Walk::value_at))]
fn port_write(
    alloc: Global,
    told: &Told,
    work: &mut Work,
    p: &Expr,
    a: &Expr,
) -> Result<Found, Fault>
    ensures { IsFound result work.new (found_at told.now (s.port_write (expr_of p.now) (expr_of a.now) nowhere) work.old) }
{
    let k = constant_in(alloc, told, work, p, pos_of(p), true)?;
    let n = port(pos_of(p), k.1)?;
    let v = value(alloc, told, work, a)?;
    written(alloc, n, pos_of(a), v)
}
