//! The types of the parameters of a dispatch function.

ghost use Rattle.std.specs.Prelude.{◌≡◌, ◌++◌, IfOk, map};
ghost use Rattle.elab_facts.specs.View.{form_of};
ghost use Rattle.nesc_core.specs.View.{type_of};
ghost use Rattle.program_meaning.specs.Dispatch as spec;

use elab_facts::Form;
use elab_values::copied;
use nesc_core::CoreType;
use nm_base::{IntType, NoMemory};
use std::alloc::Global;

fn own_parameter(alloc: Global, bracket: Option<IntType>) -> Result<Vec<CoreType>, NoMemory>
    ensures { IfOk result (λ v. map type_of v.items ≡ spec.own_parameter bracket) }
{
    match bracket {
        None => Ok(Vec::new(alloc)),
        Some(int) => Ok(vec![in alloc; CoreType::Int(int)]?),
    }
}

// Copies of the types, behind the types that there are.
fn push_copies(alloc: Global, types: &[CoreType], found: &mut Vec<CoreType>) -> Result<(), NoMemory>
    ensures { IfOk result (λ _. map type_of found.new.items ≡ map type_of found.old.items ++ map type_of types.now) }
{
    for t in types {
        found.push(copied(alloc, t)?)?;
    }
    Ok(())
}

/// The types of the parameters of a function with this form: that of its bracket first.
pub fn parameters(alloc: Global, form: &Form) -> Result<Vec<CoreType>, NoMemory>
    ensures { IfOk result (λ v. map type_of v.items ≡ spec.parameters (form_of form.now)) }
{
    let mut types = own_parameter(alloc, form.bracket)?;
    push_copies(alloc, form.params.as_slice(), &mut types)?;
    Ok(types)
}
