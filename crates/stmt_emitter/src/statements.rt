//! Statements, each with its parts.

ghost use Rattle.std.specs.Prelude.{◌≡◌, ◌++◌, ◌+◌, ◌-◌, ◌*◌, ◌<◌, ◌≤◌, ◌^◌, ◌∷◌, false, map, option_copied, true, OnOk};
ghost use Rattle.expr_emitter.specs.Scoped.{locals_in, program_in};
ghost use Rattle.expr_emitter.specs.Sizes.{AllHaveSizes, HasSizes};
ghost use Rattle.lower_expr.specs.Code.{all_labels};
ghost use Rattle.lower_stmt.specs.Code.{maybe_labels, nothing_code, stmt_labels, stmts_labels};
ghost use Rattle.mid_code.specs.declared.instr.Mid.TheVariants as mid;
ghost use Rattle.nesc_core.specs.Plain as plain;
ghost use Rattle.nesc_core.specs.PlaceTypes.{type_in};
ghost use Rattle.nesc_core.specs.View.{case_of, expr_of, exprs_of, maybe_expr_of, stmt_of, stmts_of};
ghost use Rattle.nesc_core.specs.Weights.{greatest_levels, maybe_levels, stmt_atomics, stmt_levels, stmts_atomics, stmts_levels};
ghost use Rattle.nesc_core.specs.WellFormed.{count_exprs, count_stmts};
ghost use Rattle.stmt_emitter.specs.Located.{clears_in, enter_in, result_in, returned_in};
ghost use Rattle.stmt_emitter.specs.Starts.{StartBelow};
ghost use Rattle.stmt_emitter.specs.Standing.{AllFit, IsPlaced, MaybeHasSizes, StmtFits, stmt_in, stmts_in, switch_in, ways_seen};

use crate::cases::put_cases;
use crate::given::gives_value;
use crate::locals::{emit_enter, given_type, put_clear, put_clears, put_result};
use crate::put::{put_all, put_nothing};
use crate::turns::{Turn, begin_turn, emit_turn, end_turn};
use crate::ways::{WayOut, Ways, in_atomic, in_here, in_loop, in_switch, put_exits, put_way_out};
use expr_emitter::conversions::put_zero;
use expr_emitter::numbers::is_wide;
use expr_emitter::put::put;
use expr_emitter::{Scope, emit_expr};
use mid_code::{Mid, Test};
use nesc_core::{CoreExpr, CoreStmt, CoreType};
use nm_base::{List, NoMemory};
use std::alloc::Global;

/// The code of a statement behind `code`, where values from `base` on are free; its labels are those from `next` on, which is then
/// the label behind them. After NoMemory `code` has a beginning of it.
#[cycle(emit)]
#[tactic(auto, using(crate::proofs::Switches::stmt_is_switch))]
pub(crate) fn emit_stmt<'a>(
    alloc: Global,
    scope: &Scope<'a>,
    base: u32,
    s: &'a CoreStmt,
    ways: Ways<'a>,
    next: &mut u32,
    code: &mut Vec<Mid>,
) -> Result<(), NoMemory>
    requires placed { IsPlaced scope.now }
    requires fits { StmtFits (program_in scope.now) (locals_in scope.now) (stmt_of s.now) }
    requires labels { next.old + stmt_labels (stmt_of s.now) < 2 ^ 32 }
    requires values { base + (2 * stmt_levels (stmt_of s.now) + 8) < 2 ^ 32 }
    requires status { ways.status + 2 * stmt_atomics (stmt_of s.now) ≤ 65535 }
    ensures code { OnOk result (code.new.items ≡ code.old.items ++ stmt_in scope.now base (stmt_of s.now) ways.entry next.old) }
    ensures next { OnOk result (next.new ≡ next.old + stmt_labels (stmt_of s.now)) }
{
    match s {
        CoreStmt::Eval(e) => {
            emit_expr(alloc, scope, e, base, next, code)?;
            Ok(())
        }
        CoreStmt::Block(list) => emit_block(alloc, scope, base, list, ways, next, code),
        CoreStmt::If(test, a, b) => emit_branch(alloc, scope, base, test, a, b, ways, next, code),
        CoreStmt::Loop {
            first,
            test,
            step,
            body,
        } => {
            if *first {
                emit_while(alloc, scope, base, test, step, body, ways, next, code)
            } else {
                emit_until(alloc, scope, base, test, step, body, ways, next, code)
            }
        }
        CoreStmt::Switch(e, cases, list) => emit_switch(
            alloc, scope, base, e, cases, list, ways, next, code,
        ),
        CoreStmt::Break => put_way_out(alloc, code, ways, base + 2, WayOut::Breaking),
        CoreStmt::Continue => put_way_out(alloc, code, ways, base + 2, WayOut::Continuing),
        CoreStmt::Return(e) => emit_return(alloc, scope, base, e, ways, next, code),
        CoreStmt::Atomic(body) => emit_atomic(alloc, scope, base, body, ways, next, code),
        CoreStmt::Clear(x) => {
            let l = *next;
            *next += 2;
            put_clear(code, scope, *x as usize, base, l)
        }
        CoreStmt::Here {
            args,
            first,
            count,
            body,
        } => emit_here(
            alloc, scope, base, args, *first, *count, body, ways, next, code,
        ),
    }
}

// One statement behind the other.
#[cycle(emit)]
fn emit_block<'a>(
    alloc: Global,
    scope: &Scope<'a>,
    base: u32,
    list: &'a List<CoreStmt>,
    ways: Ways<'a>,
    next: &mut u32,
    code: &mut Vec<Mid>,
) -> Result<(), NoMemory>
    requires placed { IsPlaced scope.now }
    requires fits { AllFit (program_in scope.now) (locals_in scope.now) (stmts_of list.now) }
    requires labels { next.old + stmts_labels (stmts_of list.now) < 2 ^ 32 }
    requires values { base + (2 * stmts_levels (stmts_of list.now) + 8) < 2 ^ 32 }
    requires status { ways.status + 2 * stmts_atomics (stmts_of list.now) ≤ 65535 }
    ensures code { OnOk result (code.new.items ≡ code.old.items ++ stmts_in scope.now base (stmts_of list.now) ways.entry next.old) }
    ensures next { OnOk result (next.new ≡ next.old + stmts_labels (stmts_of list.now)) }
{
    for s in list.as_slice() {
        emit_stmt(alloc, scope, base, s, ways, next, code)?;
    }
    Ok(())
}

// One of two, by a test.
#[cycle(emit)]
fn emit_branch<'a>(
    alloc: Global,
    scope: &Scope<'a>,
    base: u32,
    test: &'a CoreExpr,
    a: &'a CoreStmt,
    b: &'a CoreStmt,
    ways: Ways<'a>,
    next: &mut u32,
    code: &mut Vec<Mid>,
) -> Result<(), NoMemory>
    requires placed { IsPlaced scope.now }
    requires fits { HasSizes (program_in scope.now) (locals_in scope.now) (expr_of test.now) × StmtFits (program_in scope.now) (locals_in scope.now) (stmt_of a.now) × StmtFits (program_in scope.now) (locals_in scope.now) (stmt_of b.now) }
    requires labels { next.old + stmt_labels (plain.branch (expr_of test.now) (stmt_of a.now) (stmt_of b.now)) < 2 ^ 32 }
    requires values { base + (2 * stmt_levels (plain.branch (expr_of test.now) (stmt_of a.now) (stmt_of b.now)) + 8) < 2 ^ 32 }
    requires status { ways.status + 2 * stmt_atomics (plain.branch (expr_of test.now) (stmt_of a.now) (stmt_of b.now)) ≤ 65535 }
    ensures code { OnOk result (code.new.items ≡ code.old.items ++ stmt_in scope.now base (plain.branch (expr_of test.now) (stmt_of a.now) (stmt_of b.now)) ways.entry next.old) }
    ensures next { OnOk result (next.new ≡ next.old + stmt_labels (plain.branch (expr_of test.now) (stmt_of a.now) (stmt_of b.now))) }
{
    let l = *next;
    *next += 2;
    let of = emit_expr(alloc, scope, test, base, next, code)?;
    put_zero(code, Test::Eq, is_wide(of), base, l)?;
    emit_stmt(alloc, scope, base, a, ways, next, code)?;
    put(code, Mid::Jump(l + 1))?;
    put(code, Mid::Label(l))?;
    emit_stmt(alloc, scope, base, b, ways, next, code)?;
    put(code, Mid::Label(l + 1))
}

// A loop with its test first: a turn begins at its first label, a break leads to the second, and a continue to the third.
#[cycle(emit)]
fn emit_while<'a>(
    alloc: Global,
    scope: &Scope<'a>,
    base: u32,
    test: &'a CoreExpr,
    step: &'a Option<CoreExpr>,
    body: &'a CoreStmt,
    ways: Ways<'a>,
    next: &mut u32,
    code: &mut Vec<Mid>,
) -> Result<(), NoMemory>
    requires placed { IsPlaced scope.now }
    requires fits { HasSizes (program_in scope.now) (locals_in scope.now) (expr_of test.now) × MaybeHasSizes (program_in scope.now) (locals_in scope.now) (maybe_expr_of step.now) × StmtFits (program_in scope.now) (locals_in scope.now) (stmt_of body.now) }
    requires labels { next.old + stmt_labels (plain.loop true (expr_of test.now) (maybe_expr_of step.now) (stmt_of body.now)) < 2 ^ 32 }
    requires values { base + (2 * stmt_levels (plain.loop true (expr_of test.now) (maybe_expr_of step.now) (stmt_of body.now)) + 8) < 2 ^ 32 }
    requires status { ways.status + 2 * stmt_atomics (plain.loop true (expr_of test.now) (maybe_expr_of step.now) (stmt_of body.now)) ≤ 65535 }
    ensures code { OnOk result (code.new.items ≡ code.old.items ++ stmt_in scope.now base (plain.loop true (expr_of test.now) (maybe_expr_of step.now) (stmt_of body.now)) ways.entry next.old) }
    ensures next { OnOk result (next.new ≡ next.old + stmt_labels (plain.loop true (expr_of test.now) (maybe_expr_of step.now) (stmt_of body.now))) }
{
    let Turn {
        label: l,
        of,
        test: tested,
        step: stepped,
    } = emit_turn(alloc, scope, base, test, step, next)?;
    begin_turn(code, l)?;
    put_all(code, tested)?;
    put_zero(code, Test::Eq, is_wide(of), base, l + 1)?;
    emit_stmt(
        alloc,
        scope,
        base,
        body,
        in_loop(ways, l + 1, l + 2),
        next,
        code,
    )?;
    end_turn(code, stepped, l)
}

// The same with its test last.
#[cycle(emit)]
fn emit_until<'a>(
    alloc: Global,
    scope: &Scope<'a>,
    base: u32,
    test: &'a CoreExpr,
    step: &'a Option<CoreExpr>,
    body: &'a CoreStmt,
    ways: Ways<'a>,
    next: &mut u32,
    code: &mut Vec<Mid>,
) -> Result<(), NoMemory>
    requires placed { IsPlaced scope.now }
    requires fits { HasSizes (program_in scope.now) (locals_in scope.now) (expr_of test.now) × MaybeHasSizes (program_in scope.now) (locals_in scope.now) (maybe_expr_of step.now) × StmtFits (program_in scope.now) (locals_in scope.now) (stmt_of body.now) }
    requires labels { next.old + stmt_labels (plain.loop false (expr_of test.now) (maybe_expr_of step.now) (stmt_of body.now)) < 2 ^ 32 }
    requires values { base + (2 * stmt_levels (plain.loop false (expr_of test.now) (maybe_expr_of step.now) (stmt_of body.now)) + 8) < 2 ^ 32 }
    requires status { ways.status + 2 * stmt_atomics (plain.loop false (expr_of test.now) (maybe_expr_of step.now) (stmt_of body.now)) ≤ 65535 }
    ensures code { OnOk result (code.new.items ≡ code.old.items ++ stmt_in scope.now base (plain.loop false (expr_of test.now) (maybe_expr_of step.now) (stmt_of body.now)) ways.entry next.old) }
    ensures next { OnOk result (next.new ≡ next.old + stmt_labels (plain.loop false (expr_of test.now) (maybe_expr_of step.now) (stmt_of body.now))) }
{
    let Turn {
        label: l,
        of,
        test: tested,
        step: _,
    } = emit_turn(alloc, scope, base, test, step, next)?;
    begin_turn(code, l)?;
    emit_stmt(
        alloc,
        scope,
        base,
        body,
        in_loop(ways, l + 1, l + 2),
        next,
        code,
    )?;
    put(code, Mid::Label(l + 2))?;
    put_all(code, tested)?;
    put_zero(code, Test::Ne, is_wide(of), base, l)?;
    put(code, Mid::Label(l + 1))
}

// A switch: its first label is behind it, and those of its statements follow.
#[cycle(emit)]
fn emit_switch<'a>(
    alloc: Global,
    scope: &Scope<'a>,
    base: u32,
    e: &'a CoreExpr,
    cases: &'a List<(Option<i64>, u32)>,
    list: &'a List<CoreStmt>,
    ways: Ways<'a>,
    next: &mut u32,
    code: &mut Vec<Mid>,
) -> Result<(), NoMemory>
    requires placed { IsPlaced scope.now }
    requires fits { HasSizes (program_in scope.now) (locals_in scope.now) (expr_of e.now) × StartBelow (count_stmts (stmts_of list.now)) (map case_of cases.now) × AllFit (program_in scope.now) (locals_in scope.now) (stmts_of list.now) }
    requires labels { next.old + stmt_labels (plain.switch (expr_of e.now) (map case_of cases.now) (stmts_of list.now)) < 2 ^ 32 }
    requires values { base + (2 * stmt_levels (plain.switch (expr_of e.now) (map case_of cases.now) (stmts_of list.now)) + 8) < 2 ^ 32 }
    requires status { ways.status + 2 * stmt_atomics (plain.switch (expr_of e.now) (map case_of cases.now) (stmts_of list.now)) ≤ 65535 }
    ensures code { OnOk result (code.new.items ≡ code.old.items ++ stmt_in scope.now base (plain.switch (expr_of e.now) (map case_of cases.now) (stmts_of list.now)) ways.entry next.old) }
    ensures next { OnOk result (next.new ≡ next.old + stmt_labels (plain.switch (expr_of e.now) (map case_of cases.now) (stmts_of list.now))) }
{
    let l = *next;
    let count = count_of(list);
    *next += 1 + count;
    let of = emit_expr(alloc, scope, e, base, next, code)?;
    put_cases(code, of, cases.as_slice(), count, base, l)?;
    emit_labelled(
        alloc,
        scope,
        base,
        list,
        in_switch(ways, l),
        l + 1,
        next,
        code,
    )?;
    put(code, Mid::Label(l))
}

// How many statements there are.
#[tactic(auto, using(crate::proofs::Counts::counted_stmts))]
fn count_of(list: &List<CoreStmt>) -> u32
    requires { count_stmts (stmts_of list.now) < 2 ^ 32 }
    ensures { result ≡ count_stmts (stmts_of list.now) }
{
    list.as_slice().len() as u32
}

// The statements of a switch, each behind its label.
#[cycle(emit)]
fn emit_labelled<'a>(
    alloc: Global,
    scope: &Scope<'a>,
    base: u32,
    list: &'a List<CoreStmt>,
    ways: Ways<'a>,
    first: u32,
    next: &mut u32,
    code: &mut Vec<Mid>,
) -> Result<(), NoMemory>
    requires placed { IsPlaced scope.now }
    requires fits { AllFit (program_in scope.now) (locals_in scope.now) (stmts_of list.now) }
    requires own { first + count_stmts (stmts_of list.now) < 2 ^ 32 }
    requires labels { next.old + stmts_labels (stmts_of list.now) < 2 ^ 32 }
    requires values { base + (2 * stmts_levels (stmts_of list.now) + 8) < 2 ^ 32 }
    requires status { ways.status + 2 * stmts_atomics (stmts_of list.now) ≤ 65535 }
    ensures code { OnOk result (code.new.items ≡ code.old.items ++ switch_in scope.now base (stmts_of list.now) ways.entry first next.old) }
    ensures next { OnOk result (next.new ≡ next.old + stmts_labels (stmts_of list.now)) }
{
    let mut label = first;
    for s in list.as_slice() {
        put(code, Mid::Label(label))?;
        emit_stmt(alloc, scope, base, s, ways, next, code)?;
        label += 1;
    }
    Ok(())
}

// What a return gives: 0 where it names no value.
fn emit_value<'a>(
    alloc: Global,
    scope: &Scope<'a>,
    base: u32,
    e: &'a Option<CoreExpr>,
    ways: Ways<'a>,
    next: &mut u32,
    code: &mut Vec<Mid>,
) -> Result<(), NoMemory>
    requires placed { IsPlaced scope.now }
    requires sizes { MaybeHasSizes (program_in scope.now) (locals_in scope.now) (maybe_expr_of e.now) }
    requires labels { next.old + maybe_labels (maybe_expr_of e.now) < 2 ^ 32 }
    requires values { base + (2 * maybe_levels (maybe_expr_of e.now) + 8) < 2 ^ 32 }
    ensures code { OnOk result (code.new.items ≡ code.old.items ++ returned_in scope.now base (maybe_expr_of e.now) (ways_seen ways.entry) next.old) }
    ensures next { OnOk result (next.new ≡ next.old + maybe_labels (maybe_expr_of e.now)) }
{
    match e {
        None => put_nothing(code, ways.gives, base + 2),
        Some(e) => {
            emit_expr(alloc, scope, e, base + 2, next, code)?;
            Ok(())
        }
    }
}

// A return.
fn emit_return<'a>(
    alloc: Global,
    scope: &Scope<'a>,
    base: u32,
    e: &'a Option<CoreExpr>,
    ways: Ways<'a>,
    next: &mut u32,
    code: &mut Vec<Mid>,
) -> Result<(), NoMemory>
    requires placed { IsPlaced scope.now }
    requires sizes { MaybeHasSizes (program_in scope.now) (locals_in scope.now) (maybe_expr_of e.now) }
    requires labels { next.old + maybe_labels (maybe_expr_of e.now) < 2 ^ 32 }
    requires values { base + (2 * maybe_levels (maybe_expr_of e.now) + 8) < 2 ^ 32 }
    ensures code { OnOk result (code.new.items ≡ code.old.items ++ stmt_in scope.now base (plain.return (maybe_expr_of e.now)) ways.entry next.old) }
    ensures next { OnOk result (next.new ≡ next.old + maybe_labels (maybe_expr_of e.now)) }
{
    emit_value(alloc, scope, base, e, ways, next, code)?;
    put_way_out(alloc, code, ways, base + 2, WayOut::Returning)
}

// A statement that no interrupt comes into, and its exits.
#[cycle(emit)]
fn emit_atomic<'a>(
    alloc: Global,
    scope: &Scope<'a>,
    base: u32,
    body: &'a CoreStmt,
    ways: Ways<'a>,
    next: &mut u32,
    code: &mut Vec<Mid>,
) -> Result<(), NoMemory>
    requires placed { IsPlaced scope.now }
    requires fits { StmtFits (program_in scope.now) (locals_in scope.now) (stmt_of body.now) }
    requires labels { next.old + stmt_labels (plain.atomic (stmt_of body.now)) < 2 ^ 32 }
    requires values { base + (2 * stmt_levels (stmt_of body.now) + 8) < 2 ^ 32 }
    requires status { ways.status + 2 * stmt_atomics (plain.atomic (stmt_of body.now)) ≤ 65535 }
    ensures code { OnOk result (code.new.items ≡ code.old.items ++ stmt_in scope.now base (plain.atomic (stmt_of body.now)) ways.entry next.old) }
    ensures next { OnOk result (next.new ≡ next.old + stmt_labels (plain.atomic (stmt_of body.now))) }
{
    let l = *next;
    *next += 6;
    put(code, Mid::Begin(ways.status))?;
    emit_stmt(alloc, scope, base, body, in_atomic(ways, l), next, code)?;
    put(code, Mid::End(ways.status))?;
    put_exits(alloc, code, body, ways, base + 2, l)
}

// How many arguments there are.
#[tactic(auto, using(crate::proofs::Counts::counted_exprs))]
fn count_of_args(args: &List<CoreExpr>) -> u32
    requires { count_exprs (exprs_of args.now) < 2 ^ 32 }
    ensures { result ≡ count_exprs (exprs_of args.now) }
{
    args.as_slice().len() as u32
}

// The locals of an inlined call: the first are its arguments, and the others become 0.
fn emit_entry<'a>(
    alloc: Global,
    scope: &Scope<'a>,
    base: u32,
    args: &'a List<CoreExpr>,
    first: u32,
    count: u32,
    next: &mut u32,
    code: &mut Vec<Mid>,
) -> Result<(), NoMemory>
    requires placed { IsPlaced scope.now }
    requires sizes { AllHaveSizes (program_in scope.now) (locals_in scope.now) (exprs_of args.now) }
    requires room { count_exprs (exprs_of args.now) ≤ count }
    requires labels { next.old + (all_labels (exprs_of args.now) + 2 * count) < 2 ^ 32 }
    requires values { base + (2 * greatest_levels (exprs_of args.now) + 8) < 2 ^ 32 }
    ensures code { OnOk result (code.new.items ≡ code.old.items ++ (enter_in scope.now base (exprs_of args.now) first next.old ++ clears_in scope.now base (count - count_exprs (exprs_of args.now)) (first + count_exprs (exprs_of args.now)) (next.old + all_labels (exprs_of args.now)))) }
    ensures next { OnOk result (next.new ≡ next.old + (all_labels (exprs_of args.now) + 2 * count)) }
{
    let passed = count_of_args(args);
    emit_enter(alloc, scope, base, args, first, next, code)?;
    let l = *next;
    *next = l + 2 * count;
    let others = first as usize + passed as usize;
    put_clears(code, scope, count - passed, others, base, l)
}

// What stands behind the code of an inlined call: 0 where it ended without a return, the label of its returns, and its result.
fn put_given(
    code: &mut Vec<Mid>,
    scope: &Scope,
    gives: bool,
    x: usize,
    t: Option<&CoreType>,
    base: u32,
    l: u32,
) -> Result<(), NoMemory>
    requires { base + 3 < 2 ^ 32 }
    ensures { OnOk result (code.new.items ≡ code.old.items ++ (nothing_code (type_in (option_copied t.entry)) (base + 2) ++ mid.Label l ∷ mid.Tick ∷ result_in scope.now base gives x)) }
{
    put_nothing(code, t, base + 2)?;
    put(code, Mid::Label(l))?;
    put(code, Mid::Tick)?;
    put_result(code, scope, gives, x, base)
}

// An inlined call: its first label is behind it.
#[cycle(emit)]
fn emit_here<'a>(
    alloc: Global,
    scope: &Scope<'a>,
    base: u32,
    args: &'a List<CoreExpr>,
    first: u32,
    count: u32,
    body: &'a CoreStmt,
    ways: Ways<'a>,
    next: &mut u32,
    code: &mut Vec<Mid>,
) -> Result<(), NoMemory>
    requires placed { IsPlaced scope.now }
    requires fits { AllHaveSizes (program_in scope.now) (locals_in scope.now) (exprs_of args.now) × (count_exprs (exprs_of args.now) ≤ count) × StmtFits (program_in scope.now) (locals_in scope.now) (stmt_of body.now) }
    requires labels { next.old + stmt_labels (plain.here (exprs_of args.now) first count (stmt_of body.now)) < 2 ^ 32 }
    requires values { base + (2 * stmt_levels (plain.here (exprs_of args.now) first count (stmt_of body.now)) + 8) < 2 ^ 32 }
    requires status { ways.status + 2 * stmt_atomics (plain.here (exprs_of args.now) first count (stmt_of body.now)) ≤ 65535 }
    ensures code { OnOk result (code.new.items ≡ code.old.items ++ stmt_in scope.now base (plain.here (exprs_of args.now) first count (stmt_of body.now)) ways.entry next.old) }
    ensures next { OnOk result (next.new ≡ next.old + stmt_labels (plain.here (exprs_of args.now) first count (stmt_of body.now))) }
{
    let l = *next;
    *next += 1;
    emit_entry(alloc, scope, base, args, first, count, next, code)?;
    let gives = gives_value(body);
    let behind = first as usize + count as usize;
    let given = given_type(scope, gives, behind);
    put(code, Mid::Tick)?;
    emit_stmt(
        alloc,
        scope,
        base,
        body,
        in_here(ways, l, given),
        next,
        code,
    )?;
    put_given(code, scope, gives, behind, given, base, l)
}
