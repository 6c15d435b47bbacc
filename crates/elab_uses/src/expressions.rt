//! The names that expressions call and post. Each function adds those in its part to those before it.

ghost use Rattle.std.specs.Prelude.{◌≡◌, ◌++◌, ◌∷◌, [], OnOk};
ghost use Rattle.nesc_tree.specs.View.{expr_of, exprs_of};
ghost use Rattle.elab_uses.specs.Lists.{maybe_of};
ghost use Rattle.program_meaning.specs.Uses as spec;

use nesc_tree::Expr;
use nm_base::{Boxed, List, Name, NoMemory};
use program_meaning::Use;

fn add(found: &mut Vec<Use>, posts: bool, name: &Name) -> Result<(), NoMemory>
    ensures { OnOk result (found.new.items ≡ found.old.items ++ record { posts = posts; name = name.now } ∷ []) }
{
    let name = name.clone()?;
    found.push(Use { posts, name })?;
    Ok(())
}

fn add_callee(found: &mut Vec<Use>, f: &Expr) -> Result<(), NoMemory>
    ensures { OnOk result (found.new.items ≡ found.old.items ++ spec.called_in (expr_of f.now)) }
{
    match f {
        Expr::Name(name, _) => add(found, false, name),
        Expr::Number(_, _)
        | Expr::Char(_, _)
        | Expr::Null(_)
        | Expr::Unique(_, _)
        | Expr::UniqueCount(_, _)
        | Expr::Unary(_, _, _)
        | Expr::Postfix(_, _, _)
        | Expr::Binary(_, _, _, _)
        | Expr::Assign(_, _, _, _)
        | Expr::Cond(_, _, _, _)
        | Expr::Comma(_, _, _)
        | Expr::Cast(_, _, _)
        | Expr::SizeOfExpr(_, _)
        | Expr::SizeOfType(_, _)
        | Expr::Index(_, _, _)
        | Expr::Member(_, _, _)
        | Expr::Arrow(_, _, _)
        | Expr::CallFn(_, _, _)
        | Expr::CallItem { .. }
        | Expr::PortRead(_, _)
        | Expr::PortWrite(_, _, _)
        | Expr::Post(_, _) => Ok(()),
    }
}

/// Adds the names in an expression.
#[cycle(uses)]
pub(crate) fn in_expr(found: &mut Vec<Use>, e: &Expr) -> Result<(), NoMemory>
    ensures { OnOk result (found.new.items ≡ found.old.items ++ spec.in_expr (expr_of e.now)) }
{
    match e {
        Expr::Name(_, _)
        | Expr::Number(_, _)
        | Expr::Char(_, _)
        | Expr::Null(_)
        | Expr::Unique(_, _)
        | Expr::UniqueCount(_, _)
        | Expr::SizeOfType(_, _) => Ok(()),
        Expr::Post(name, _) => add(found, true, name),
        Expr::Unary(_, a, _) | Expr::Postfix(_, a, _) => in_expr(found, a.get()),
        Expr::Binary(_, a, b, _) => {
            in_expr(found, a.get())?;
            in_expr(found, b.get())
        }
        Expr::Assign(_, a, b, _) => {
            in_expr(found, a.get())?;
            in_expr(found, b.get())
        }
        Expr::Cond(a, b, c, _) => {
            in_expr(found, a.get())?;
            in_expr(found, b.get())?;
            in_expr(found, c.get())
        }
        Expr::Comma(a, b, _) => {
            in_expr(found, a.get())?;
            in_expr(found, b.get())
        }
        Expr::Index(a, b, _) => {
            in_expr(found, a.get())?;
            in_expr(found, b.get())
        }
        Expr::Cast(_, a, _) => in_expr(found, a.get()),
        Expr::SizeOfExpr(a, _) => in_expr(found, a.get()),
        Expr::Member(a, _, _) | Expr::Arrow(a, _, _) => in_expr(found, a.get()),
        Expr::CallFn(f, args, _) => {
            add_callee(found, f.get())?;
            in_list(found, args)
        }
        Expr::CallItem { param, args, .. } => {
            in_parameter(found, param)?;
            in_list(found, args)
        }
        Expr::PortRead(p, _) => in_expr(found, p.get()),
        Expr::PortWrite(p, a, _) => {
            in_expr(found, p.get())?;
            in_expr(found, a.get())
        }
    }
}

#[cycle(uses)]
#[tactic(auto, using(crate::proofs::Lists::lists))]
fn in_list(found: &mut Vec<Use>, list: &List<Expr>) -> Result<(), NoMemory>
    ensures { OnOk result (found.new.items ≡ found.old.items ++ spec.in_exprs (exprs_of list.now)) }
{
    for e in list.as_slice() {
        in_expr(found, e)?;
    }
    Ok(())
}

#[cycle(uses)]
fn in_parameter(found: &mut Vec<Use>, param: &Option<Boxed<Expr>>) -> Result<(), NoMemory>
    ensures { OnOk result (found.new.items ≡ found.old.items ++ spec.in_maybe (maybe_of param.now)) }
{
    match param {
        None => Ok(()),
        Some(a) => in_expr(found, a.get()),
    }
}

/// Adds the names in an expression, if there is one.
pub(crate) fn in_value(found: &mut Vec<Use>, value: &Option<Expr>) -> Result<(), NoMemory>
    ensures { OnOk result (found.new.items ≡ found.old.items ++ spec.in_maybe (maybe_of value.now)) }
{
    match value {
        None => Ok(()),
        Some(a) => in_expr(found, a),
    }
}
