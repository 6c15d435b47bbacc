//! Whether nodes and bytes measure the code of a program.

ghost use Rattle.std.specs.Prelude.{◌≡◌, ◌≤◌, length, true, if◌then◌else◌};
ghost use Rattle.nesc_core.specs.View.{program_of, stmt_of, stmts_of};
ghost use Rattle.lower_pace.specs.Pace.{IsMeasured};
ghost use Rattle.lean_pace.specs.Lean as lean;
ghost use Rattle.lean_pace.specs.Lean.{AreLeanStmts, IsLean, IsLeanStmt, count_working};
ghost use Rattle.well_formed.specs.Formed.{Each};

use nesc_core::{CoreStmt, Program};
use nm_base::List;

// Whether a statement does anything but clear a local.
fn works(s: &CoreStmt) -> bool
    ensures { lean.works (stmt_of s.now) ≡ if result then 1 else 0 }
{
    match s {
        CoreStmt::Clear(_) => false,
        CoreStmt::Block(_)
        | CoreStmt::If(_, _, _)
        | CoreStmt::Loop { .. }
        | CoreStmt::Switch(_, _, _)
        | CoreStmt::Atomic(_)
        | CoreStmt::Eval(_)
        | CoreStmt::Break
        | CoreStmt::Continue
        | CoreStmt::Return(_)
        | CoreStmt::Here { .. } => true,
    }
}

// Whether there are at most as many cases as statements that do anything but clear a local.
fn are_few(cases: &List<(Option<i64>, u32)>, list: &List<CoreStmt>) -> bool
    ensures { result ≡ true → length cases.now ≤ count_working (stmts_of list.now) }
{
    let mut left = cases.as_slice().len();
    for s in list.as_slice() {
        if works(s) {
            left = left.saturating_sub(1);
        }
    }
    left == 0
}

// Whether no switch in a statement has too many cases, and no call is inlined there.
#[cycle(cases)]
fn is_lean_stmt(s: &CoreStmt) -> bool
    ensures { result ≡ true → IsLeanStmt (stmt_of s.now) }
{
    match s {
        CoreStmt::Block(list) => are_lean_stmts(list),
        CoreStmt::If(_, a, b) => is_lean_stmt(a) && is_lean_stmt(b),
        CoreStmt::Loop { body, .. } => is_lean_stmt(body),
        CoreStmt::Switch(_, cases, list) => are_few(cases, list) && are_lean_stmts(list),
        CoreStmt::Atomic(body) => is_lean_stmt(body),
        CoreStmt::Eval(_)
        | CoreStmt::Break
        | CoreStmt::Continue
        | CoreStmt::Return(_)
        | CoreStmt::Clear(_) => true,
        CoreStmt::Here { .. } => false,
    }
}

#[cycle(cases)]
fn are_lean_stmts(list: &List<CoreStmt>) -> bool
    ensures { result ≡ true → AreLeanStmts (stmts_of list.now) }
{
    for s in list.as_slice() {
        if !is_lean_stmt(s) {
            return false;
        }
    }
    true
}

fn are_lean_bodies(p: &Program) -> bool
    ensures { result ≡ true → Each (λ b. IsLeanStmt b.code) (program_of p.now).bodies }
{
    for body in p.bodies.as_slice() {
        if !is_lean_stmt(&body.code) {
            return false;
        }
    }
    true
}

/// Whether no switch of a program has more cases than statements that do anything but clear a local, and no call is inlined. Statements
/// are walked as deep as they stand in one another.
pub(crate) fn is_lean(p: &Program) -> bool
    ensures lean { result ≡ true → IsLean (program_of p.now) }
    ensures measured { result ≡ true → IsMeasured (program_of p.now) }
{
    are_lean_bodies(p)
}
