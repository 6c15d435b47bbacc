//! The body of a dispatch function.

ghost use Rattle.std.specs.Prelude.{◌≡◌, ◌++◌, IfOk, map};
ghost use Rattle.elab_dispatch.specs.Calls as own;
ghost use Rattle.elab_dispatch.specs.Calls.{result_local};
ghost use Rattle.elab_facts.specs.View.{form_of, reached_of};
ghost use Rattle.nesc_core.specs.View.{body_of, type_of};
ghost use Rattle.program_meaning.specs.Dispatch as spec;

use crate::calling::{Calling, calling_by};
use crate::cases::code_block;
use crate::types::parameters;
use elab_facts::{Form, Reached};
use elab_values::copied;
use nesc_core::{Body, CoreType};
use nm_base::{List, Name, NoMemory, Pos, beside};
use std::alloc::Global;

fn locals(alloc: Global, i: Calling, form: &Form) -> Result<List<CoreType>, NoMemory>
    ensures { IfOk result (λ l. map type_of l ≡ spec.parameters (form_of form.now) ++ result_local i (type_of form.now.result)) }
{
    let mut types = parameters(alloc, form)?;
    if i.combine.is_some() && !i.is_void {
        types.push(copied(alloc, &form.result)?)?;
    }
    Ok(List::new(types))
}

// The types of the locals, and that of the result.
fn types(alloc: Global, i: Calling, form: &Form) -> Result<(List<CoreType>, CoreType), NoMemory>
    ensures locals { IfOk result (λ x. map type_of x.0 ≡ spec.parameters (form_of form.now) ++ result_local i (type_of form.now.result)) }
    ensures gives { IfOk result (λ x. type_of x.1 ≡ type_of form.now.result) }
{
    let locals = locals(alloc, i, form)?;
    let (locals, gives) = beside(locals, copied(alloc, &form.result))?;
    Ok((locals, gives))
}

// The body by what the calls have in common.
fn body_by(
    alloc: Global,
    name: Name,
    i: Calling,
    form: &Form,
    cases: &[Reached],
) -> Result<Body, NoMemory>
    ensures { IfOk result (λ b. body_of b ≡ own.body name i (spec.parameters (form_of form.now)) (type_of form.now.result) cases.now) }
{
    let (name, (locals, result)) = beside(name, types(alloc, i, form))?;
    let ((name, locals, result), code) = beside(
        (name, locals, result),
        code_block(alloc, i, cases),
    )?;
    Ok(Body {
        name,
        params: i.params,
        locals,
        result,
        code,
        is_async: false,
        is_item: false,
    })
}

/// The dispatch function of an item whose targets have parameters of their own: it calls the targets of the parameter's case in order, each
/// with what it gets first and with the parameters of the item, and combines their results from the left by `combine`; without one the
/// last result stands. Where no case has a value it just calls (nesC 1.3 Reference, 9; Gay et al. 2003, 2.3).
pub fn dispatch(
    alloc: Global,
    name: Name,
    form: &Form,
    combine: Option<u32>,
    at: Pos,
    cases: &[Reached],
) -> Result<Body, NoMemory>
    ensures { IfOk result (λ b. body_of b ≡ spec.dispatch name (form_of form.now) combine at (map reached_of cases.now)) }
{
    let i = calling_by(form, combine, at)?;
    body_by(alloc, name, i, form, cases)
}
