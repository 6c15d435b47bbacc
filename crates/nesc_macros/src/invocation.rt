//! What a token is used as, and the arguments of a use.

ghost use Rattle.std.specs.Prelude.{◌≡◌, map, List as ListOf, IfOk};
ghost use Rattle.nesc_macros.specs.Invocation.{fits};
ghost use Rattle.nesc_macros.specs.Numbers.{IsIn, Scope, all_shown, scope_of};
ghost use Rattle.nesc_macros.specs.declared.hide_sets.Link.{Link as LinkOf};
ghost use Rattle.nesc_macros.specs.Code.{begins_arguments, IsCandidate, IsLess, IsTaken, IsUsedAs};

use crate::definition::{NumberedMacro, NumberedToken};
use crate::hide_sets::HideSets;
use crate::names::{is_sign, is_word};
use crate::pending::Pending;
use crate::table::Table;
use nm_base::{Name, NoMemory};
use std::alloc::Global;
use std::collections::VecDeque;

/// The arguments of a use, and the parenthesis behind them.
#[derive(Drop)]
pub struct Arguments {
    pub lists: VecDeque<Pending>,
    pub close: NumberedToken,
}

/// What a token is used as.
#[derive(Drop)]
pub enum Use<'m> {
    Passes,
    ObjectLike(NumberedMacro<'m>),
    FunctionLike(NumberedMacro<'m>, &'m [Name], Arguments),
    Misused,
}

// Takes the arguments of a use and the parenthesis behind them, or finds that there is none.
fn take_arguments(alloc: Global, pending: &mut Pending) -> Result<Option<Arguments>, NoMemory>
    ensures taken { IfOk result (λ found. (scope : Scope) → IsTaken scope pending.old found pending.new) }
    ensures less { IfOk result (λ found. IsLess pending.old found pending.new) }
{
    let mut lists = VecDeque::new(alloc);
    while let Some(end) = pending.argument_end() {
        lists.push_back(pending.take_first(alloc, end.len)?)?;
        let Some(sign) = pending.pop_front() else {
            return Ok(None);
        };
        if end.is_last {
            return Ok(Some(Arguments { lists, close: sign }));
        }
    }
    Ok(None)
}

// Whether there is one argument for each parameter; an empty one also fits a macro that has none.
fn fits(parameters: &[Name], lists: &VecDeque<Pending>) -> bool
    ensures { (scope : Scope) → result ≡ fits parameters.now (map (all_shown scope) lists.now.items) }
{
    parameters.len() == lists.len()
        || parameters.is_empty() && lists.len() == 1 && lists.iter().any(|list| list.is_empty())
}

// The macro that the token may be used as: that of its name, where it is not hidden in it.
fn candidate<'m>(
    table: &'m Table,
    sets: &HideSets,
    token: &NumberedToken,
) -> Result<Option<NumberedMacro<'m>>, NoMemory>
    ensures { IfOk result (λ found. (links : ListOf LinkOf) → IsIn sets.now (scope_of table.now links) → IsCandidate (scope_of table.now links) token.now found) }
{
    if !is_word(&token.token) {
        return Ok(None);
    }
    let Some(found) = table.find(&token.token.text) else {
        return Ok(None);
    };
    if sets.contains(&token.hide_set, found.number)? {
        return Ok(None);
    }
    Ok(Some(found))
}

/// What the token before `pending` is used as. The arguments of a use are taken from there.
pub fn use_at<'m>(
    alloc: Global,
    table: &'m Table,
    sets: &HideSets,
    token: &NumberedToken,
    pending: &mut Pending,
) -> Result<Use<'m>, NoMemory>
    ensures { IfOk result (λ found. (links : ListOf LinkOf) → IsIn sets.now (scope_of table.now links) → IsUsedAs (scope_of table.now links) token.now pending.old found pending.new) }
{
    let Some(found) = candidate(table, sets, token)? else {
        return Ok(Use::Passes);
    };
    let Some(parameters) = &found.definition.parameters else {
        return Ok(Use::ObjectLike(found));
    };
    if !begins_arguments(pending) {
        return Ok(Use::Passes);
    }
    pending.pop_front();
    let Some(arguments) = take_arguments(alloc, pending)? else {
        return Ok(Use::Misused);
    };
    let parameters = parameters.as_slice();
    if fits(parameters, &arguments.lists) {
        Ok(Use::FunctionLike(found, parameters, arguments))
    } else {
        Ok(Use::Misused)
    }
}

// Whether an opening parenthesis is at the front.
fn begins_arguments(pending: &Pending) -> bool
    ensures { result ≡ begins_arguments pending.now }
{
    pending
        .front()
        .is_some_and(|token| is_sign(b"(", &token.token))
}
