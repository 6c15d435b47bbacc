//! Work inside the scope of an instance.

ghost use Rattle.std.specs.Prelude.{◌≡◌, IfOk};
ghost use Rattle.elab_meaning.specs.View.{state_of};
ghost use Rattle.wire_facts.specs.Scopes as spec;
ghost use Rattle.wire_scopes.specs.View.{base_view, own_of, scope_of};
ghost use Rattle.wire_elements.specs.Scoped.{IsLeft};

use elab_meaning::Work;
use nm_base::{Fault, NoMemory, beside};
use wire_scopes::{Base, Own, Scope, declaring, exchange};

/// Brings a scope in force, in which names are declared; the answer is what was in force before.
pub(crate) fn entered(work: &mut Work, base: Base, scope: Scope) -> Result<Own, NoMemory>
    ensures was { IfOk result (λ was. own_of was ≡ spec.own_in (base_view base) (state_of work.old)) }
    ensures now { IfOk result (λ _. state_of work.new ≡ spec.with_own (base_view base) (spec.declaring (base_view base) (scope_of scope)) (state_of work.old)) }
{
    exchange(work, base, declaring(base, scope))
}

fn taken_out(work: &mut Work, base: Base, was: Own) -> Result<Scope, NoMemory>
    ensures scope { IfOk result (λ x. scope_of x ≡ spec.scope_in (base_view base) (state_of work.old)) }
    ensures now { IfOk result (λ _. state_of work.new ≡ spec.with_own (base_view base) (own_of was) (state_of work.old)) }
{
    let left = exchange(work, base, was)?;
    Ok(left.scope)
}

/// Brings back what was in force, and gives the scope as work inside it left it, beside what the work gave.
pub(crate) fn left<T: Drop>(
    work: &mut Work,
    base: Base,
    was: Own,
    gave: Result<T, Fault>,
) -> Result<(T, Scope), Fault>
    ensures { IsLeft (base_view base) (own_of was) gave (state_of work.old) (state_of work.new) result }
{
    let (was, gave) = beside(was, gave)?;
    Ok(beside(gave, taken_out(work, base, was))?)
}
