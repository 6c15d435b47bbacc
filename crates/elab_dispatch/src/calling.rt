//! What all calls of a dispatch function have in common.

ghost use Rattle.std.specs.Prelude.{◌≡◌, ◌≤◌, IfOk, length, map};
ghost use Rattle.elab_dispatch.specs.Calls.{calling_of};
ghost use Rattle.elab_facts.specs.View.{form_of};
ghost use Rattle.nesc_core.specs.View.{type_of};
ghost use Rattle.program_meaning.specs.Dispatch.{own_parameter};

use elab_facts::Form;
use elab_values::is_void;
use nesc_core::CoreType;
use nm_base::{IntType, NoMemory, Pos};

/// A called item: the type of its element's parameter, how many parameters of its own stand behind that one, how many there are in all,
/// whether it has no result, the function that combines two results, and the place of its first call.
#[derive(Clone, Copy)]
pub(crate) struct Calling {
    pub own: Option<IntType>,
    pub others: u32,
    pub params: u32,
    pub is_void: bool,
    pub combine: Option<u32>,
    pub at: Pos,
}

/// How many parameters there are of the element. The first parameter of the item is the local of this number.
pub(crate) fn own_count(own: Option<IntType>) -> u32
    ensures count { result ≡ length (own_parameter own) }
    ensures low { result ≤ 1 }
{
    match own {
        None => 0,
        Some(_) => 1,
    }
}

fn count(types: &[CoreType]) -> Result<u32, NoMemory>
    ensures { IfOk result (λ n. n ≡ length (map type_of types.now)) }
{
    match u32::try_from(types.len()) {
        Ok(count) => Ok(count),
        Err(_) => Err(NoMemory),
    }
}

/// What the calls of an item of this form have in common. More than 2^32 - 1 parameters find no memory.
pub(crate) fn calling_by(form: &Form, combine: Option<u32>, at: Pos) -> Result<Calling, NoMemory>
    ensures { IfOk result (λ i. i ≡ calling_of (form_of form.now) combine at) }
{
    let others = count(form.params.as_slice())?;
    let Some(params) = own_count(form.bracket).checked_add(others) else {
        return Err(NoMemory);
    };
    Ok(Calling {
        own: form.bracket,
        others,
        params,
        is_void: is_void(&form.result),
        combine,
        at,
    })
}
