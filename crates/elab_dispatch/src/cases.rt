//! The cases of a dispatch function, by the value of the parameter.

ghost use Rattle.std.specs.Prelude.{◌≡◌, ◌++◌, ◌∷◌, [], IfOk, flat_map, length, map};
ghost use Rattle.std.specs.List.{list_any};
ghost use Rattle.combine_fanout.specs.Dispatch.{number};
ghost use Rattle.elab_dispatch.specs.Calls.{by_parameter, calls, closed, code, has_value};
ghost use Rattle.nesc_core.specs.Plain as core;
ghost use Rattle.nesc_core.specs.View.{case_of, expr_of, stmt_of, stmts, stmts_of};

use crate::arguments::local;
use crate::calling::Calling;
use crate::calls::push_calls;
use elab_facts::Reached;
use nesc_core::{CoreExpr, CoreStmt};
use nm_base::{List, NoMemory};
use std::alloc::Global;

fn has_value_anywhere(cases: &[Reached]) -> bool
    ensures { result ≡ list_any has_value cases.now }
{
    cases.iter().any(|c| c.value.is_some())
}

fn just_called(alloc: Global, i: Calling, cases: &[Reached]) -> Result<Vec<CoreStmt>, NoMemory>
    ensures { IfOk result (λ v. map stmt_of v.items ≡ flat_map (calls i) cases.now) }
{
    let mut code = Vec::new(alloc);
    for case in cases {
        push_calls(alloc, i, case, &mut code)?;
    }
    Ok(code)
}

// Behind the code that there is: a case with its end, and where it begins. A place that is no u32 finds no memory.
fn push_case(
    alloc: Global,
    i: Calling,
    case: &Reached,
    starts: &mut Vec<(Option<i64>, u32)>,
    code: &mut Vec<CoreStmt>,
) -> Result<(), NoMemory>
    ensures starts { IfOk result (λ _. map case_of starts.new.items ≡ map case_of starts.old.items ++ (record { value = number case.now.value; start = length code.old.items } ∷ [])) }
    ensures code { IfOk result (λ _. map stmt_of code.new.items ≡ map stmt_of code.old.items ++ closed i case.now) }
{
    let Ok(start) = u32::try_from(code.len()) else {
        return Err(NoMemory);
    };
    starts.push((case.value.map(i64::from), start))?;
    push_calls(alloc, i, case, code)?;
    code.push(CoreStmt::Break)?;
    Ok(())
}

fn switch(parameter: CoreExpr, starts: Vec<(Option<i64>, u32)>, code: Vec<CoreStmt>) -> CoreStmt
    ensures { stmt_of result ≡ core.switch (expr_of parameter) (map case_of starts.items) (stmts_of code.items) }
{
    CoreStmt::Switch(parameter, List::new(starts), List::new(code))
}

fn switched(alloc: Global, i: Calling, cases: &[Reached]) -> Result<CoreStmt, NoMemory>
    ensures { IfOk result (λ s. map stmt_of (s ∷ []) ≡ by_parameter i cases.now) }
{
    let mut starts = Vec::new(alloc);
    let mut code = Vec::new(alloc);
    for case in cases {
        push_case(alloc, i, case, &mut starts, &mut code)?;
    }
    Ok(switch(local(i, 0), starts, code))
}

fn statements(alloc: Global, i: Calling, cases: &[Reached]) -> Result<Vec<CoreStmt>, NoMemory>
    ensures { IfOk result (λ v. map stmt_of v.items ≡ code i cases.now) }
{
    if has_value_anywhere(cases) {
        let switch = switched(alloc, i, cases)?;
        Ok(vec![in alloc; switch]?)
    } else {
        just_called(alloc, i, cases)
    }
}

fn block_of(code: Vec<CoreStmt>) -> CoreStmt
    ensures { stmt_of result ≡ core.block (stmts_of code.items) }
{
    CoreStmt::Block(List::new(code))
}

/// The code of a dispatch function: where no case has a value it just calls.
pub(crate) fn code_block(alloc: Global, i: Calling, cases: &[Reached]) -> Result<CoreStmt, NoMemory>
    ensures { IfOk result (λ s. stmt_of s ≡ core.block (stmts (code i cases.now))) }
{
    Ok(block_of(statements(alloc, i, cases)?))
}
