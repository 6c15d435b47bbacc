//! Which ways lead out of a statement.

ghost use Rattle.std.specs.Prelude.{◌≡◌};
ghost use Rattle.lower_stmt.specs.Code as spec;
ghost use Rattle.nesc_core.specs.View.{stmt_of, stmts_of};
ghost use Rattle.stmt_emitter.specs.Standing.{out_seen};

use crate::ways::WayOut;
use nesc_core::CoreStmt;
use nm_base::List;

fn is_return(out: WayOut) -> bool
    ensures { result ≡ spec.is_return (out_seen out) }
{
    match out {
        WayOut::Returning => true,
        WayOut::Breaking | WayOut::Continuing => false,
    }
}

fn is_break(out: WayOut) -> bool
    ensures { result ≡ spec.is_break (out_seen out) }
{
    match out {
        WayOut::Breaking => true,
        WayOut::Returning | WayOut::Continuing => false,
    }
}

fn is_continue(out: WayOut) -> bool
    ensures { result ≡ spec.is_continue (out_seen out) }
{
    match out {
        WayOut::Continuing => true,
        WayOut::Returning | WayOut::Breaking => false,
    }
}

/// Some part of the statement leads out of it so: loops take breaks and continues, switches take breaks.
#[cycle(leads)]
pub(crate) fn leads(s: &CoreStmt, out: WayOut) -> bool
    ensures { result ≡ spec.leads (stmt_of s.now) (out_seen out) }
{
    match s {
        CoreStmt::Eval(_) | CoreStmt::Clear(_) | CoreStmt::Here { .. } => false,
        CoreStmt::Block(list) => some_leads(list, out),
        CoreStmt::If(_, a, b) => leads(a, out) || leads(b, out),
        CoreStmt::Loop { body, .. } => is_return(out) && leads(body, out),
        CoreStmt::Switch(_, _, list) => !is_break(out) && some_leads(list, out),
        CoreStmt::Break => is_break(out),
        CoreStmt::Continue => is_continue(out),
        CoreStmt::Return(_) => is_return(out),
        CoreStmt::Atomic(body) => leads(body, out),
    }
}

#[cycle(leads)]
fn some_leads(list: &List<CoreStmt>, out: WayOut) -> bool
    ensures { result ≡ spec.some_leads (stmts_of list.now) (out_seen out) }
{
    for s in list.as_slice() {
        if leads(s, out) {
            return true;
        }
    }
    false
}
