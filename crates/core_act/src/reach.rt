//! What is done with places that were found.

ghost use Rattle.core_act.specs.Remaining.{IsAccessed, IsAccessible, accessed, pointed as pointed_of};
ghost use Rattle.core_act.specs.Scopes.{IsHeld, program_in};
ghost use Rattle.core_act.specs.Told.{LiesWithin, all_actions};
ghost use Rattle.core_meaning.specs.Work.{Locals};
ghost use Rattle.core_meaning.specs.declared.access.Where.{Where as WhereOf};
ghost use Rattle.nesc_core.specs.Size.{IsSized, layout_of};
ghost use Rattle.nesc_core.specs.View.{place_of, type_of};
ghost use Rattle.nm_base.specs.Behaviour.{Behaviour};
ghost use Rattle.std.specs.Prelude.{◌≡◌, ◌∷◌, ◌<◌, List as ListOf, ℕ, ℤ, OnOk};

use crate::access::{Local, address_of};
use crate::changes::change_at;
use crate::log::Log;
use crate::places::{field, indexed, load_at, pointed, store_at};
use crate::scope::Scope;
use crate::stack::{Stack, pop_or};
use crate::task::Access;
use core_meaning::Where;
use nesc_core::{CoreType, Place};
use nm_base::NoMemory;

/// Takes places and values from the stacks, and puts there what the access gives.
pub(crate) fn access(
    scope: &Scope<'_>,
    access: Access,
    place: &Place,
    values: &mut Stack<i64>,
    places: &mut Stack<Where>,
    locals: &mut [Local],
    log: &mut Log<'_>,
) -> Result<(), NoMemory>
    requires held { IsHeld scope.now }
    requires can { IsAccessible scope.now access (place_of place.now) places.old }
    ensures does { OnOk result ((after : ListOf ℤ → ListOf WhereOf → Locals → Behaviour) → all_actions log.old (accessed scope.now access (place_of place.now) after values.old places.old locals.old) ≡ all_actions log.new (after values.new places.new locals.new)) }
    ensures places { OnOk result (IsAccessed scope.now access (place_of place.now) places.old places.new) }
{
    let w = pop_or(places, Where::At(0));
    match access {
        Access::Index => {
            let i = pop_or(values, 0);
            let element = indexed(scope, place, w, i, log)?;
            places.push(element)
        }
        Access::Field(k) => places.push(field(scope, place, w, k)),
        Access::Address => values.push(i64::from(address_of(w))),
        Access::Load => {
            let v = load_at(scope, place, w, locals, log)?;
            values.push(v)
        }
        Access::Old => {
            let v = load_at(scope, place, w, locals, log)?;
            places.push(w)?;
            values.push(v)
        }
        Access::Store => {
            let v = pop_or(values, 0);
            store_at(scope, place, w, v, locals, log)?;
            values.push(v)
        }
        Access::Change(change) => {
            let y = pop_or(values, 0);
            let old = pop_or(values, 0);
            let v = change_at(scope, place, change, w, old, y, locals, log)?;
            values.push(v)
        }
    }
}

/// Takes a pointer to this type, and gives where it points.
pub(crate) fn point(
    scope: &Scope<'_>,
    t: &CoreType,
    values: &mut Stack<i64>,
    places: &mut Stack<Where>,
    log: &mut Log<'_>,
) -> Result<(), NoMemory>
    requires held { IsHeld scope.now }
    requires sized { IsSized (program_in scope.now).structs (type_of t.now) }
    requires some { 0 < (layout_of (program_in scope.now).structs (type_of t.now)).size }
    ensures does { OnOk result ((after : ListOf ℤ → ListOf WhereOf → Locals → Behaviour) (locals : Locals) → all_actions log.old (pointed_of scope.now (type_of t.now) after values.old places.old locals) ≡ all_actions log.new (after values.new places.new locals)) }
    ensures places { OnOk result ((w : WhereOf) × ((n : ℕ) → LiesWithin n w) × (places.new ≡ w ∷ places.old)) }
{
    let pointer = pop_or(values, 0);
    let w = pointed(scope, t, pointer, log)?;
    places.push(w)
}
