//! The body of a dispatch function.

ghost use Rattle.std.specs.Prelude.{◌≡◌, ◌<◌, ◌^◌, ◌+◌, ◌++◌, ◌∷◌, [], length, map, flat_map, sum_by, IfOk};
ghost use Rattle.std.specs.List.{list_any};
ghost use Rattle.nesc_core.specs.Plain as plain;
ghost use Rattle.nesc_core.specs.View.{body_of, case_of, expr_of, stmt_of, stmts, stmts_of, type_of};
ghost use Rattle.combine_fanout.specs.Dispatch as spec;
ghost use Rattle.combine_fanout.specs.Dispatch.{closed, code, has_two, has_value, item, loses, result_local, starts};

use crate::calls::push_called;
use crate::case::Case;
use crate::item::Item;
use crate::types::{copied, copied_all};
use nesc_core::{Body, CoreExpr, CoreStmt, CoreType, Place};
use nm_base::{List, Name, NoMemory, Pos};
use std::alloc::Global;

/// The dispatch function of an item with these parameters and this result: it calls the bodies of the parameter's case in order, each
/// with all parameters, and combines their results from the left by `combine`; without one the last result stands. Where no case
/// has a value it just calls. For a parameter without a case it gives 0. The flag tells that results are lost.
pub fn dispatch(
    alloc: Global,
    cases: &[Case],
    params: &[CoreType],
    gives: &CoreType,
    combine: Option<u32>,
    name: &Name,
    pos: Pos,
) -> Result<(Body, bool), NoMemory>
    requires params { length params.now < 2 ^ 32 }
    requires statements { sum_by (λ c. length c.bodies + 1) cases.now < 2 ^ 32 }
    ensures body { IfOk result (λ r. body_of r.0 ≡ spec.dispatch name.now (map type_of params.now) (type_of gives.now) (item (map type_of params.now) (type_of gives.now) combine pos) cases.now) }
    ensures lost { IfOk result (λ r. r.1 ≡ loses (item (map type_of params.now) (type_of gives.now) combine pos) cases.now) }
{
    let i = called_item(params, gives, combine, pos);
    let body = Body {
        name: name.clone()?,
        params: i.params,
        locals: locals(alloc, i, params, gives)?,
        result: copied(alloc, gives)?,
        code: code_block(alloc, i, cases)?,
        is_async: false,
        is_item: false,
    };
    Ok((body, loses_results(i, cases)))
}

fn called_item(params: &[CoreType], gives: &CoreType, combine: Option<u32>, pos: Pos) -> Item
    requires { length params.now < 2 ^ 32 }
    ensures { result ≡ item (map type_of params.now) (type_of gives.now) combine pos }
{
    Item {
        params: params.len() as u32,
        is_void: is_no_result(gives),
        combine,
        at: pos,
    }
}

fn is_no_result(gives: &CoreType) -> bool
    ensures { result ≡ spec.is_void (type_of gives.now) }
{
    matches!(gives, CoreType::Void)
}

fn locals(
    alloc: Global,
    i: Item,
    params: &[CoreType],
    gives: &CoreType,
) -> Result<List<CoreType>, NoMemory>
    ensures { IfOk result (λ l. map type_of l ≡ map type_of params.now ++ result_local i (type_of gives.now)) }
{
    let mut types = copied_all(alloc, params)?;
    if i.combine.is_some() && !i.is_void {
        types.push(copied(alloc, gives)?)?;
    }
    Ok(List::new(types))
}

fn code_block(alloc: Global, i: Item, cases: &[Case]) -> Result<CoreStmt, NoMemory>
    requires { sum_by (λ c. length c.bodies + 1) cases.now < 2 ^ 32 }
    ensures { IfOk result (λ s. stmt_of s ≡ plain.block (stmts (code i cases.now))) }
{
    Ok(block_of(statements(alloc, i, cases)?))
}

fn block_of(code: Vec<CoreStmt>) -> CoreStmt
    ensures { stmt_of result ≡ plain.block (stmts_of code.items) }
{
    CoreStmt::Block(List::new(code))
}

fn loses_results(i: Item, cases: &[Case]) -> bool
    ensures { result ≡ loses i cases.now }
{
    i.combine.is_none() && !i.is_void && has_two_anywhere(cases)
}

fn has_two_anywhere(cases: &[Case]) -> bool
    ensures { result ≡ list_any has_two cases.now }
{
    cases.iter().any(|c| c.bodies.as_slice().len() > 1)
}

fn has_value_anywhere(cases: &[Case]) -> bool
    ensures { result ≡ list_any has_value cases.now }
{
    cases.iter().any(|c| c.value.is_some())
}

fn statements(alloc: Global, i: Item, cases: &[Case]) -> Result<Vec<CoreStmt>, NoMemory>
    requires { sum_by (λ c. length c.bodies + 1) cases.now < 2 ^ 32 }
    ensures { IfOk result (λ v. map stmt_of v.items ≡ code i cases.now) }
{
    if has_value_anywhere(cases) {
        let switch = switched(alloc, i, cases)?;
        Ok(vec![in alloc; switch]?)
    } else {
        just_called(alloc, i, cases)
    }
}

fn just_called(alloc: Global, i: Item, cases: &[Case]) -> Result<Vec<CoreStmt>, NoMemory>
    ensures { IfOk result (λ v. map stmt_of v.items ≡ flat_map (λ c. spec.called i c.bodies) cases.now) }
{
    let mut code = Vec::new(alloc);
    for case in cases {
        push_called(alloc, i, case.bodies.as_slice(), &mut code)?;
    }
    Ok(code)
}

// Behind the code that there is: a case with its end, and where it begins.
fn push_case(
    alloc: Global,
    i: Item,
    case: &Case,
    starts: &mut Vec<(Option<i64>, u32)>,
    code: &mut Vec<CoreStmt>,
) -> Result<(), NoMemory>
    requires { length code.now.items < 2 ^ 32 }
    ensures grown { IfOk result (λ _. length code.new.items ≡ length code.old.items + (length case.now.bodies + 1)) }
    ensures starts { IfOk result (λ _. map case_of starts.new.items ≡ map case_of starts.old.items ++ (record { value = spec.number case.now.value; start = length code.old.items } ∷ [])) }
    ensures code { IfOk result (λ _. map stmt_of code.new.items ≡ map stmt_of code.old.items ++ closed i case.now) }
{
    starts.push((case.value.map(i64::from), code.len() as u32))?;
    push_called(alloc, i, case.bodies.as_slice(), code)?;
    code.push(CoreStmt::Break)?;
    Ok(())
}

fn switched(alloc: Global, i: Item, cases: &[Case]) -> Result<CoreStmt, NoMemory>
    requires { sum_by (λ c. length c.bodies + 1) cases.now < 2 ^ 32 }
    ensures { IfOk result (λ s. map stmt_of (s ∷ []) ≡ spec.by_parameter i cases.now) }
{
    let mut starts = Vec::new(alloc);
    let mut code = Vec::new(alloc);
    for case in cases {
        push_case(alloc, i, case, &mut starts, &mut code)?;
    }
    Ok(switch(CoreExpr::Read(Place::Local(0), i.at), starts, code))
}

fn switch(parameter: CoreExpr, starts: Vec<(Option<i64>, u32)>, code: Vec<CoreStmt>) -> CoreStmt
    ensures { stmt_of result ≡ plain.switch (expr_of parameter) (map case_of starts.items) (stmts_of code.items) }
{
    CoreStmt::Switch(parameter, List::new(starts), List::new(code))
}
