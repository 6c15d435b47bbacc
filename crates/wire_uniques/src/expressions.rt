//! The uses of `unique` and `uniqueCount` in expressions and types. Each function adds the uses in its part to those before it.

ghost use Rattle.std.specs.Prelude.{◌≡◌, ◌++◌, ◌∷◌, [], OnOk};
ghost use Rattle.nesc_tree.specs.View.{base_of, expr_of, exprs_of, spec_of};
ghost use Rattle.wire_uniques.specs.Expressions as spec;
ghost use Rattle.wire_uniques.specs.Trees.{declarator_of, declarators_of, group_of, groups_of, items_of, maybe_of};

use crate::used::Use;
use nesc_tree::{Base, Declarator, EnumItem, Expr, FieldGroup, TypeSpec};
use nm_base::{Boxed, List, Name, NoMemory, Pos};

fn add(found: &mut Vec<Use>, text: &Name, at: Pos, is_count: bool) -> Result<(), NoMemory>
    ensures { OnOk result (found.new.items ≡ found.old.items ++ record { text = text.now; at = at; is_count = is_count } ∷ []) }
{
    let text = text.clone()?;
    found.push(Use { text, at, is_count })?;
    Ok(())
}

/// Adds the uses in an expression.
#[cycle(uses)]
pub fn in_expr(found: &mut Vec<Use>, e: &Expr) -> Result<(), NoMemory>
    ensures { OnOk result (found.new.items ≡ found.old.items ++ spec.in_expr (expr_of e.now)) }
{
    match e {
        Expr::Name(_, _)
        | Expr::Number(_, _)
        | Expr::Char(_, _)
        | Expr::Null(_)
        | Expr::Post(_, _) => Ok(()),
        Expr::Unique(text, at) => add(found, text, *at, false),
        Expr::UniqueCount(text, at) => add(found, text, *at, true),
        Expr::Unary(_, a, _) | Expr::Postfix(_, a, _) => in_expr(found, a.get()),
        Expr::Binary(_, a, b, _) | Expr::Assign(_, a, b, _) => {
            in_expr(found, a.get())?;
            in_expr(found, b.get())
        }
        Expr::Cond(a, b, c, _) => {
            in_expr(found, a.get())?;
            in_expr(found, b.get())?;
            in_expr(found, c.get())
        }
        Expr::Comma(a, b, _) | Expr::Index(a, b, _) => {
            in_expr(found, a.get())?;
            in_expr(found, b.get())
        }
        Expr::Cast(t, a, _) => {
            in_type(found, t)?;
            in_expr(found, a.get())
        }
        Expr::SizeOfExpr(a, _) => in_expr(found, a.get()),
        Expr::SizeOfType(t, _) => in_type(found, t),
        Expr::Member(a, _, _) | Expr::Arrow(a, _, _) => in_expr(found, a.get()),
        Expr::CallFn(f, args, _) => {
            in_expr(found, f.get())?;
            in_list(found, args)
        }
        Expr::CallItem { param, args, .. } => {
            in_parameter(found, param)?;
            in_list(found, args)
        }
        Expr::PortRead(p, _) => in_expr(found, p.get()),
        Expr::PortWrite(p, a, _) => {
            in_expr(found, p.get())?;
            in_expr(found, a.get())
        }
    }
}

#[cycle(uses)]
#[tactic(auto, using(crate::proofs::Lists::lists))]
fn in_list(found: &mut Vec<Use>, list: &List<Expr>) -> Result<(), NoMemory>
    ensures { OnOk result (found.new.items ≡ found.old.items ++ spec.in_exprs (exprs_of list.now)) }
{
    for e in list.as_slice() {
        in_expr(found, e)?;
    }
    Ok(())
}

#[cycle(uses)]
fn in_parameter(found: &mut Vec<Use>, param: &Option<Boxed<Expr>>) -> Result<(), NoMemory>
    ensures { OnOk result (found.new.items ≡ found.old.items ++ spec.in_maybe (maybe_of param.now)) }
{
    match param {
        None => Ok(()),
        Some(a) => in_expr(found, a.get()),
    }
}

/// Adds the uses in an expression, if there is one.
#[cycle(uses)]
pub fn in_value(found: &mut Vec<Use>, value: &Option<Expr>) -> Result<(), NoMemory>
    ensures { OnOk result (found.new.items ≡ found.old.items ++ spec.in_maybe (maybe_of value.now)) }
{
    match value {
        None => Ok(()),
        Some(a) => in_expr(found, a),
    }
}

/// Adds the uses in a type.
#[cycle(uses)]
pub fn in_type(found: &mut Vec<Use>, t: &TypeSpec) -> Result<(), NoMemory>
    ensures { OnOk result (found.new.items ≡ found.old.items ++ spec.in_type (spec_of t.now)) }
{
    in_base(found, &t.base)?;
    in_list(found, &t.dims)
}

#[cycle(uses)]
fn in_base(found: &mut Vec<Use>, base: &Base) -> Result<(), NoMemory>
    ensures { OnOk result (found.new.items ≡ found.old.items ++ spec.in_base (base_of base.now)) }
{
    match base {
        Base::Void | Base::Int(_) | Base::Named(_) => Ok(()),
        Base::Struct(_, groups) => match groups {
            None => Ok(()),
            Some(groups) => in_groups(found, groups),
        },
        Base::Enum(_, items) => match items {
            None => Ok(()),
            Some(items) => in_items(found, items),
        },
    }
}

#[cycle(uses)]
#[tactic(auto, using(crate::proofs::Lists::lists))]
fn in_groups(found: &mut Vec<Use>, groups: &List<FieldGroup>) -> Result<(), NoMemory>
    ensures { OnOk result (found.new.items ≡ found.old.items ++ spec.in_groups (groups_of groups.now)) }
{
    for group in groups.as_slice() {
        in_group(found, group)?;
    }
    Ok(())
}

#[cycle(uses)]
fn in_group(found: &mut Vec<Use>, group: &FieldGroup) -> Result<(), NoMemory>
    ensures { OnOk result (found.new.items ≡ found.old.items ++ (spec.in_type (group_of group.now).0 ++ spec.in_names (group_of group.now).1)) }
{
    in_type(found, &group.ty)?;
    in_names(found, &group.fields)
}

#[cycle(uses)]
#[tactic(auto, using(crate::proofs::Lists::lists))]
fn in_names(found: &mut Vec<Use>, names: &List<Declarator>) -> Result<(), NoMemory>
    ensures { OnOk result (found.new.items ≡ found.old.items ++ spec.in_names (declarators_of names.now)) }
{
    for declarator in names.as_slice() {
        in_declarator(found, declarator)?;
    }
    Ok(())
}

/// Adds the uses in the dimensions of an array.
#[cycle(uses)]
pub fn in_declarator(found: &mut Vec<Use>, declarator: &Declarator) -> Result<(), NoMemory>
    ensures { OnOk result (found.new.items ≡ found.old.items ++ spec.in_exprs (declarator_of declarator.now).2) }
{
    in_list(found, &declarator.dims)
}

#[cycle(uses)]
#[tactic(auto, using(crate::proofs::Lists::lists))]
fn in_items(found: &mut Vec<Use>, items: &List<EnumItem>) -> Result<(), NoMemory>
    ensures { OnOk result (found.new.items ≡ found.old.items ++ spec.in_items (items_of items.now)) }
{
    for item in items.as_slice() {
        in_value(found, &item.value)?;
    }
    Ok(())
}
