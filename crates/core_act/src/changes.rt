//! Updates of places.

ghost use Rattle.core_act.specs.Scopes.{size_at, type_at};
ghost use Rattle.core_act.specs.Told.{Comes, LiesWithin};
ghost use Rattle.core_act.specs.Walks.{changed};
ghost use Rattle.nesc_core.specs.View.{place_of};
ghost use Rattle.std.specs.Prelude.{◌+◌, IfOk};

use crate::access::Local;
use crate::log::{Log, or_fail};
use crate::places::{number_at, store_at};
use crate::scope::Scope;
use core_meaning::Where;
use core_numbers::binary;
use nesc_core::{BinOp, Place};
use nm_base::{IntType, NoMemory, wrap};

/// How a place is updated: by an operator at a type. The old value or the new one is the result.
#[derive(Clone, Copy)]
pub(crate) struct Change {
    pub(crate) op: BinOp,
    pub(crate) at: IntType,
    pub(crate) gives_old: bool,
}

/// Updates a place whose old value and whose other operand are known.
pub(crate) fn change_at(
    scope: &Scope<'_>,
    place: &Place,
    change: Change,
    w: Where,
    old: i64,
    y: i64,
    locals: &mut [Local],
    log: &mut Log<'_>,
) -> Result<i64, NoMemory>
    requires { LiesWithin (size_at scope.now (place_of place.now) + 2) w }
    ensures { IfOk result (λ v. Comes (changed (type_at scope.now (place_of place.now)) change.op change.at change.gives_old w old y) log.old locals.old v log.new locals.new) }
{
    let z = or_fail(
        log,
        3,
        binary(change.op, change.at, wrap(change.at, old), y),
    )?;
    let new = wrap(number_at(scope, place), z);
    store_at(scope, place, w, new, locals, log)?;
    Ok(if change.gives_old { old } else { new })
}
