//! Which statements may stand where.

ghost use Rattle.std.specs.Prelude.{◌≡◌, ◌<◌, true, length, map, option_copied};
ghost use Rattle.nesc_core.specs.PlaceTypes.{type_in};
ghost use Rattle.nesc_core.specs.View.{case_of, maybe_expr_of, stmt_of, stmts_of};
ghost use Rattle.nesc_core.specs.WellFormed.{count_stmts};
ghost use Rattle.well_formed.specs.Exits.{AreStmts, IsDone, IsGiven, IsStmt, exits_of};
ghost use Rattle.well_formed.specs.Formed.{Each};
ghost use Rattle.well_formed.specs.Scopes.{IsLaidIn, locals_in};

use crate::exprs::found;
use crate::found::{has_type, is_number, is_test, is_typed};
use crate::scope::Scope;
use crate::types::is_scalar;
use crate::ways::{Ways, in_loop, in_switch};
use nesc_core::{CoreExpr, CoreStmt, CoreType};
use nm_base::List;

// Whether the step of a loop has some type, if there is one.
fn is_done(scope: &Scope, step: &Option<CoreExpr>) -> bool
    requires { IsLaidIn scope.now }
    ensures { result ≡ true → IsDone scope.now (maybe_expr_of step.now) }
{
    match step {
        None => true,
        Some(e) => is_typed(scope, e, found(scope, e)),
    }
}

// Whether what is returned, if anything, is a value of this type.
fn is_given(scope: &Scope, e: &Option<CoreExpr>, gives: Option<&CoreType>) -> bool
    requires { IsLaidIn scope.now }
    ensures { result ≡ true → IsGiven scope.now (maybe_expr_of e.now) (type_in (option_copied gives.entry)) }
{
    match e {
        None => true,
        Some(e) => match gives {
            None => false,
            Some(t) => is_scalar(t) && has_type(scope, e, found(scope, e), t),
        },
    }
}

// How many statements there are.
#[tactic(auto, using(crate::proofs::Statements::counted))]
fn count(list: &List<CoreStmt>) -> usize
    ensures { result ≡ count_stmts (stmts_of list.now) }
{
    list.as_slice().len()
}

// Whether all cases begin at one of the statements.
fn start_in(cases: &[(Option<i64>, u32)], list: &List<CoreStmt>) -> bool
    ensures { result ≡ true → Each (λ c. c.start < count_stmts (stmts_of list.now)) (map case_of cases.now) }
{
    let count = count(list);
    for case in cases {
        if case.1 as usize >= count {
            return false;
        }
    }
    true
}

// Whether there is such a local.
fn is_local(scope: &Scope, x: u32) -> bool
    ensures { result ≡ true → x < length (locals_in scope.now) }
{
    (x as usize) < scope.locals.len()
}

/// Whether a statement may stand where these are the ways out.
#[cycle(stmts)]
#[tactic(auto, using(crate::proofs::Statements::may_switch, crate::proofs::Statements::may_clear))]
pub(crate) fn is_stmt<'a>(scope: &Scope<'a>, s: &'a CoreStmt, ways: Ways<'a>) -> bool
    requires { IsLaidIn scope.now }
    ensures { result ≡ true → IsStmt scope.now (stmt_of s.now) (exits_of ways.entry) }
{
    match s {
        CoreStmt::Eval(e) => is_typed(scope, e, found(scope, e)),
        CoreStmt::Block(list) => are_stmts(scope, list, ways),
        CoreStmt::If(test, a, b) => is_test(scope, test, found(scope, test))
            && is_stmt(scope, a, ways)
            && is_stmt(scope, b, ways),
        CoreStmt::Loop {
            test,
            step,
            body,
            ..
        } => is_test(scope, test, found(scope, test))
            && is_done(scope, step)
            && is_stmt(scope, body, in_loop(ways)),
        CoreStmt::Switch(e, cases, list) => is_number(scope, e, found(scope, e))
            && start_in(cases.as_slice(), list)
            && are_stmts(scope, list, in_switch(ways)),
        CoreStmt::Break => ways.breaks,
        CoreStmt::Continue => ways.continues,
        CoreStmt::Return(e) => is_given(scope, e, ways.gives),
        CoreStmt::Atomic(body) => is_stmt(scope, body, ways),
        CoreStmt::Clear(x) => is_local(scope, *x),
        CoreStmt::Here { .. } => false,
    }
}

#[cycle(stmts)]
fn are_stmts<'a>(scope: &Scope<'a>, list: &'a List<CoreStmt>, ways: Ways<'a>) -> bool
    requires { IsLaidIn scope.now }
    ensures { result ≡ true → AreStmts scope.now (stmts_of list.now) (exits_of ways.entry) }
{
    for s in list.as_slice() {
        if !is_stmt(scope, s, ways) {
            return false;
        }
    }
    true
}
