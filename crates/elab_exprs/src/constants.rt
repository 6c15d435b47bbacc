//! Constants: the walk over their trees.

ghost use Rattle.nesc_tree.specs.View.{expr_of, spec_of};
ghost use Rattle.nesc_tree.specs.Plain as s;
ghost use Rattle.elab_forms.specs.Trees.{nowhere};
ghost use Rattle.elab_exprs.specs.Walk.{IsConstant, constant_at};

use crate::types::type_of;
use crate::walk::{measured, type_size};
use elab_forms::{
    Told, chosen_constant, computed, fits, goes_on_evaluated, int_constant, on_constants,
    prefixed_constant, second_evaluated, third_evaluated, unique_count, unique_number,
};
use elab_meaning::Work;
use elab_names::{constant_named, look_up};
use elab_values::not_constant;
use nesc_tree::{Expr, InOp, PreOp, TypeSpec};
use nesc_types::{Constant, character, number, pos_of};
use nm_base::{Fault, Pos};
use std::alloc::Global;

// A part of the constant `whole`, which may stand where it is not evaluated.
#[cycle(walk)]
#[tactic(auto, unfolding(crate::specs::Walk::IsConstant, crate::specs::Walk::constant_at, crate::specs::Walk::measured_at, crate::specs::Walk::size_at))]
pub(crate) fn constant_in(
    alloc: Global,
    told: &Told,
    work: &mut Work,
    e: &Expr,
    whole: Pos,
    evaluated: bool,
) -> Result<Constant, Fault>
    ensures { IsConstant result work.new (constant_at told.now whole (expr_of e.now) evaluated work.old) }
{
    match e {
        Expr::Name(name, at) => constant_named(whole, *at, look_up(work.names.as_slice(), name)),
        Expr::Number(text, at) => fits(*at, number(text.as_bytes())),
        Expr::Char(text, at) => fits(*at, character(text.as_bytes())),
        Expr::Unique(_, at) => unique_number(told, *at),
        Expr::UniqueCount(text, at) => unique_count(told, *at, text),
        Expr::Unary(o, a, _) => constant_unary(alloc, told, work, a.get(), *o, whole, evaluated),
        Expr::Binary(o, a, b, _) => constant_between(
            alloc,
            told,
            work,
            a.get(),
            b.get(),
            *o,
            whole,
            evaluated,
        ),
        Expr::Cond(a, b, c, _) => constant_choice(
            alloc,
            told,
            work,
            a.get(),
            b.get(),
            c.get(),
            whole,
            evaluated,
        ),
        Expr::Comma(a, b, _) => constant_comma(
            alloc,
            told,
            work,
            a.get(),
            b.get(),
            whole,
            evaluated,
        ),
        Expr::Cast(t, a, at) => constant_cast(alloc, told, work, t, a.get(), *at, whole, evaluated),
        Expr::SizeOfExpr(a, at) => measured(alloc, told, work, a.get(), *at),
        Expr::SizeOfType(t, at) => type_size(alloc, told, work, t, *at),
        Expr::Null(_)
        | Expr::Postfix(_, _, _)
        | Expr::Assign(_, _, _, _)
        | Expr::Index(_, _, _)
        | Expr::Member(_, _, _)
        | Expr::Arrow(_, _, _)
        | Expr::CallFn(_, _, _)
        | Expr::CallItem { .. }
        | Expr::PortRead(_, _)
        | Expr::PortWrite(_, _, _)
        | Expr::Post(_, _) => not_constant(whole),
    }
}

// An operator before a constant.
#[cycle(walk)]
#[tactic(auto, unfolding(crate::specs::Walk::IsConstant, crate::specs::Walk::constant_at))]
fn constant_unary(
    alloc: Global,
    told: &Told,
    work: &mut Work,
    a: &Expr,
    o: PreOp,
    whole: Pos,
    evaluated: bool,
) -> Result<Constant, Fault>
    ensures { IsConstant result work.new (constant_at told.now whole (s.unary o (expr_of a.now) nowhere) evaluated work.old) }
{
    on_constants(whole, o)?;
    let x = constant_in(alloc, told, work, a, whole, evaluated)?;
    prefixed_constant(whole, o, x)
}

// An operator between two constants.
#[cycle(walk)]
#[tactic(auto, unfolding(crate::specs::Walk::IsConstant, crate::specs::Walk::constant_at))]
fn constant_between(
    alloc: Global,
    told: &Told,
    work: &mut Work,
    a: &Expr,
    b: &Expr,
    o: InOp,
    whole: Pos,
    evaluated: bool,
) -> Result<Constant, Fault>
    ensures { IsConstant result work.new (constant_at told.now whole (s.binary o (expr_of a.now) (expr_of b.now) nowhere) evaluated work.old) }
{
    let x = constant_in(alloc, told, work, a, whole, evaluated)?;
    let y = constant_in(
        alloc,
        told,
        work,
        b,
        whole,
        goes_on_evaluated(evaluated, o, x),
    )?;
    computed(whole, evaluated, o, x, y)
}

// `?:` of constants.
#[cycle(walk)]
#[tactic(auto, unfolding(crate::specs::Walk::IsConstant, crate::specs::Walk::constant_at))]
fn constant_choice(
    alloc: Global,
    told: &Told,
    work: &mut Work,
    a: &Expr,
    b: &Expr,
    c: &Expr,
    whole: Pos,
    evaluated: bool,
) -> Result<Constant, Fault>
    ensures { IsConstant result work.new (constant_at told.now whole (s.choice (expr_of a.now) (expr_of b.now) (expr_of c.now) nowhere) evaluated work.old) }
{
    let x = constant_in(alloc, told, work, a, whole, evaluated)?;
    let y = constant_in(alloc, told, work, b, whole, second_evaluated(evaluated, x))?;
    let z = constant_in(alloc, told, work, c, whole, third_evaluated(evaluated, x))?;
    Ok(chosen_constant(x, y, z))
}

// `,` of constants, which stands where it is not evaluated alone.
#[cycle(walk)]
#[tactic(auto, unfolding(crate::specs::Walk::IsConstant, crate::specs::Walk::constant_at))]
fn constant_comma(
    alloc: Global,
    told: &Told,
    work: &mut Work,
    a: &Expr,
    b: &Expr,
    whole: Pos,
    evaluated: bool,
) -> Result<Constant, Fault>
    ensures { IsConstant result work.new (constant_at told.now whole (s.comma (expr_of a.now) (expr_of b.now) nowhere) evaluated work.old) }
{
    if evaluated {
        return not_constant(whole);
    }
    constant_in(alloc, told, work, a, whole, false)?;
    constant_in(alloc, told, work, b, whole, false)
}

// A cast of a constant.
#[cycle(walk)]
#[tactic(auto, unfolding(crate::specs::Walk::IsConstant, crate::specs::Walk::IsType, crate::specs::Walk::constant_at, crate::specs::Walk::type_at))]
fn constant_cast(
    alloc: Global,
    told: &Told,
    work: &mut Work,
    t: &TypeSpec,
    a: &Expr,
    at: Pos,
    whole: Pos,
    evaluated: bool,
) -> Result<Constant, Fault>
    ensures { IsConstant result work.new (constant_at told.now whole (s.cast (spec_of t.now) (expr_of a.now) at) evaluated work.old) }
{
    let to = type_of(alloc, told, work, t, at)?;
    let x = constant_in(alloc, told, work, a, whole, evaluated)?;
    int_constant(pos_of(a), &to, x)
}
