//! How many struct definitions end in a part of a tree.

ghost use Rattle.std.specs.Prelude.{◌≡◌, ◌+◌, IfOk, Ok, suc};
ghost use Rattle.nesc_tree.specs.View.{base_of, expr_of, exprs_of, spec_of};
ghost use Rattle.elab_meaning.specs.Answers.{Follows};
ghost use Rattle.elab_meaning.specs.Ends as spec;
ghost use Rattle.elab_forms.specs.Trees.{declarator_of, declarators_of, group_of, groups_of, items_of, maybe_of};

use nesc_tree::{Base, Declarator, EnumItem, Expr, FieldGroup, TypeSpec};
use nm_base::{Boxed, Fault, List, NoMemory};

// Each function adds the definitions that end in its part to those before it.

#[cycle(ends)]
fn in_expr(e: &Expr, before: u32) -> Result<u32, NoMemory>
    ensures { IfOk result (λ n. n ≡ before + spec.ends_in (expr_of e.now)) }
{
    match e {
        Expr::Name(_, _)
        | Expr::Number(_, _)
        | Expr::Char(_, _)
        | Expr::Null(_)
        | Expr::Unique(_, _)
        | Expr::UniqueCount(_, _)
        | Expr::Post(_, _) => Ok(before),
        Expr::Unary(_, a, _) | Expr::Postfix(_, a, _) => in_expr(a.get(), before),
        Expr::Binary(_, a, b, _)
        | Expr::Assign(_, a, b, _)
        | Expr::Comma(a, b, _)
        | Expr::Index(a, b, _)
        | Expr::PortWrite(a, b, _) => {
            let first = in_expr(a.get(), before)?;
            in_expr(b.get(), first)
        }
        Expr::Cond(a, b, c, _) => {
            let first = in_expr(a.get(), before)?;
            let second = in_expr(b.get(), first)?;
            in_expr(c.get(), second)
        }
        Expr::Cast(t, a, _) => {
            let first = in_type(t, before)?;
            in_expr(a.get(), first)
        }
        Expr::SizeOfType(t, _) => in_type(t, before),
        Expr::Member(a, _, _) | Expr::Arrow(a, _, _) => in_expr(a.get(), before),
        Expr::CallFn(_, args, _) => in_list(args, before),
        Expr::CallItem { param, args, .. } => {
            let first = in_parameter(param, before)?;
            in_list(args, first)
        }
        Expr::SizeOfExpr(a, _) | Expr::PortRead(a, _) => in_expr(a.get(), before),
    }
}

#[cycle(ends)]
#[tactic(auto, using(crate::proofs::Lists::lists))]
fn in_list(list: &List<Expr>, before: u32) -> Result<u32, NoMemory>
    ensures { IfOk result (λ n. n ≡ before + spec.ends_in_all (exprs_of list.now)) }
{
    let mut n = before;
    for e in list.as_slice() {
        n = in_expr(e, n)?;
    }
    Ok(n)
}

#[cycle(ends)]
fn in_parameter(param: &Option<Boxed<Expr>>, before: u32) -> Result<u32, NoMemory>
    ensures { IfOk result (λ n. n ≡ before + spec.ends_in_maybe (maybe_of param.now)) }
{
    match param {
        None => Ok(before),
        Some(a) => in_expr(a.get(), before),
    }
}

#[cycle(ends)]
fn in_value(value: &Option<Expr>, before: u32) -> Result<u32, NoMemory>
    ensures { IfOk result (λ n. n ≡ before + spec.ends_in_maybe (maybe_of value.now)) }
{
    match value {
        None => Ok(before),
        Some(a) => in_expr(a, before),
    }
}

#[cycle(ends)]
fn in_type(t: &TypeSpec, before: u32) -> Result<u32, NoMemory>
    ensures { IfOk result (λ n. n ≡ before + spec.ends_in_type (spec_of t.now)) }
{
    let first = in_base(&t.base, before)?;
    in_list(&t.dims, first)
}

#[cycle(ends)]
fn in_base(base: &Base, before: u32) -> Result<u32, NoMemory>
    ensures { IfOk result (λ n. n ≡ before + spec.ends_in_base (base_of base.now)) }
{
    match base {
        Base::Void | Base::Int(_) | Base::Named(_) => Ok(before),
        Base::Struct(_, groups) => match groups {
            None => Ok(before),
            Some(groups) => in_struct(groups, before),
        },
        Base::Enum(_, items) => match items {
            None => Ok(before),
            Some(items) => in_items(items, before),
        },
    }
}

#[cycle(ends)]
fn in_struct(groups: &List<FieldGroup>, before: u32) -> Result<u32, NoMemory>
    ensures { IfOk result (λ n. n ≡ before + suc (spec.ends_in_groups (groups_of groups.now))) }
{
    let n = in_groups(groups, before)?;
    match n.checked_add(1) {
        Some(n) => Ok(n),
        None => Err(NoMemory),
    }
}

#[cycle(ends)]
#[tactic(auto, using(crate::proofs::Lists::lists))]
fn in_groups(groups: &List<FieldGroup>, before: u32) -> Result<u32, NoMemory>
    ensures { IfOk result (λ n. n ≡ before + spec.ends_in_groups (groups_of groups.now)) }
{
    let mut n = before;
    for g in groups.as_slice() {
        n = in_group(g, n)?;
    }
    Ok(n)
}

#[cycle(ends)]
fn in_group(g: &FieldGroup, before: u32) -> Result<u32, NoMemory>
    ensures { IfOk result (λ n. n ≡ before + (spec.ends_in_type (group_of g.now).0 + spec.ends_in_names (group_of g.now).1)) }
{
    let first = in_type(&g.ty, before)?;
    in_names(&g.fields, first)
}

#[cycle(ends)]
#[tactic(auto, using(crate::proofs::Lists::lists))]
fn in_names(names: &List<Declarator>, before: u32) -> Result<u32, NoMemory>
    ensures { IfOk result (λ n. n ≡ before + spec.ends_in_names (declarators_of names.now)) }
{
    let mut n = before;
    for d in names.as_slice() {
        n = in_declarator(d, n)?;
    }
    Ok(n)
}

#[cycle(ends)]
fn in_declarator(d: &Declarator, before: u32) -> Result<u32, NoMemory>
    ensures { IfOk result (λ n. n ≡ before + spec.ends_in_all (declarator_of d.now).2) }
{
    in_list(&d.dims, before)
}

#[cycle(ends)]
#[tactic(auto, using(crate::proofs::Lists::lists))]
fn in_items(items: &List<EnumItem>, before: u32) -> Result<u32, NoMemory>
    ensures { IfOk result (λ n. n ≡ before + spec.ends_in_items (items_of items.now)) }
{
    let mut n = before;
    for x in items.as_slice() {
        n = in_value(&x.value, n)?;
    }
    Ok(n)
}

/// The number of a struct: how many definitions ended before it, and those that end in its fields.
pub fn ended_number(first: usize, groups: &List<FieldGroup>) -> Result<u32, Fault>
    ensures { Follows (λ n. n) result (Ok (first + spec.ends_in_groups (groups_of groups.now))) }
{
    let Ok(first) = u32::try_from(first) else {
        return Err(Fault::NoMemory);
    };
    Ok(in_groups(groups, first)?)
}
