//! Whether an inlined call has a result.

ghost use Rattle.nesc_core.specs.Heres as heres;
ghost use Rattle.nesc_core.specs.View.{stmt_of, stmts_of};
ghost use Rattle.std.specs.Prelude.{◌≡◌};

use nesc_core::CoreStmt;
use nm_base::List;

/// Whether some statement returns a value, those of inlined calls left out.
#[cycle(gives_value)]
pub(crate) fn gives_value(s: &CoreStmt) -> bool
    ensures { result ≡ heres.gives_value (stmt_of s.now) }
{
    match s {
        CoreStmt::Eval(_) | CoreStmt::Break | CoreStmt::Continue | CoreStmt::Clear(_) => false,
        CoreStmt::Return(e) => e.is_some(),
        CoreStmt::Block(list) | CoreStmt::Switch(_, _, list) => some_gives_value(list),
        CoreStmt::If(_, a, b) => gives_value(a) || gives_value(b),
        CoreStmt::Loop { body, .. } => gives_value(body),
        CoreStmt::Atomic(body) => gives_value(body),
        CoreStmt::Here { .. } => false,
    }
}

#[cycle(gives_value)]
fn some_gives_value(list: &List<CoreStmt>) -> bool
    ensures { result ≡ heres.some_gives_value (stmts_of list.now) }
{
    for s in list.as_slice() {
        if gives_value(s) {
            return true;
        }
    }
    false
}
