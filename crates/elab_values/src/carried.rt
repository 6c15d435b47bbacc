//! Trees in boxes, and trees that are kept where they fit.

ghost use Rattle.std.specs.Prelude.{◌≡◌, IfErr, IfOk, false, true};
ghost use Rattle.nesc_core.specs.View.{expr_of};

use crate::found::bad_type;
use elab_meaning::Typed;
use nesc_core::CoreExpr;
use nm_base::{Fault, NoMemory, Pos, Refusal};
use std::alloc::Global;

/// Two values, each in a box of its own.
pub fn boxed_pair<T: Drop, U: Drop>(
    alloc: Global,
    first: T,
    second: U,
) -> Result<(Box<T>, Box<U>), NoMemory>
    ensures { IfOk result (λ pair. (pair.0.value ≡ first) × (pair.1.value ≡ second)) }
{
    let first = Box::new(alloc, first)?;
    let second = Box::new(alloc, second)?;
    Ok((first, second))
}

/// A value that fits, or BadType.
pub fn fitting<T: Drop>(at: Pos, fits: bool, value: T) -> Result<T, Fault>
    ensures kept { IfOk result (λ x. (x ≡ value) × (fits ≡ true)) }
    ensures refused { IfErr result (λ e. (e ≡ Fault.Refused (Refusal.BadType at)) × (fits ≡ false)) }
{
    if fits { Ok(value) } else { bad_type(at) }
}

/// The expression of a value.
pub fn without_type(v: Typed) -> CoreExpr
    ensures { expr_of result ≡ expr_of v.expr }
{
    v.expr
}
