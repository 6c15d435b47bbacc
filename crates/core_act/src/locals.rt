//! Locals that hold values, and then zeros.

ghost use Rattle.core_act.specs.Scopes.{IsHeld, fill_in};
ghost use Rattle.core_meaning.specs.Act as act;
ghost use Rattle.core_meaning.specs.Numbers.{residue};
ghost use Rattle.core_meaning.specs.Work as work;
ghost use Rattle.core_meaning.specs.Work.{Locals};
ghost use Rattle.nesc_core.specs.Plain.{Ty};
ghost use Rattle.nesc_core.specs.Size.{AreSized, IsSized};
ghost use Rattle.nesc_core.specs.View.{structs_of, type_of};
ghost use Rattle.nm_base.specs.Behaviour.{Behaviour};
ghost use Rattle.std.specs.Prelude.{◌≡◌, ◌≤◌, ◌<◌, ◌^◌, ◌+◌, ◌*◌, IfOk, OnOk, List, ◌∷◌, map, drop, take, slice_set};
ghost use Rattle.std.specs.List.{All};

use crate::access::Local;
use crate::scope::Scope;
use core_numbers::{low_byte, without_low_byte};
use nesc_core::{CoreType, Structs, size};
use nm_base::NoMemory;
use std::alloc::Global;

// The bytes of a value, the low one first.
fn local_of(alloc: Global, size: u32, v: i64) -> Result<Local, NoMemory>
    ensures { IfOk result (λ local. local ≡ work.bytes_of size (residue (8 * size) v)) }
{
    let mut bytes = Vec::new(alloc);
    let mut rest = v;
    for _ in 0..size {
        bytes.push(low_byte(rest))?;
        rest = without_low_byte(rest);
    }
    Ok(Local::new(bytes))
}

// The local that holds value i, or zeros where there are no more values.
fn local_at(
    alloc: Global,
    s: &Structs,
    t: &CoreType,
    vs: &[i64],
    i: usize,
) -> Result<Local, NoMemory>
    requires structs { AreSized (structs_of s.now) }
    requires sized { IsSized (structs_of s.now) (type_of t.now) }
    ensures { IfOk result (λ local. (ts : List Ty) → local ∷ act.holding (structs_of s.now) ts (drop (i + 1) vs.now) ≡ act.holding (structs_of s.now) (type_of t.now ∷ ts) (drop i vs.now)) }
{
    let v = vs.get(i).copied().unwrap_or(0);
    local_of(alloc, size(s, t), v)
}

/// Locals of these types hold the values, and then zeros.
pub(crate) fn holding(
    alloc: Global,
    s: &Structs,
    types: &[CoreType],
    vs: &[i64],
) -> Result<Vec<Local>, NoMemory>
    requires structs { AreSized (structs_of s.now) }
    requires sized { All (IsSized (structs_of s.now)) (map type_of types.now) }
    ensures { IfOk result (λ locals. locals.items ≡ act.holding (structs_of s.now) (map type_of types.now) vs.now) }
{
    let mut locals = Vec::new(alloc);
    for i in 0..types.len() {
        locals.push(local_at(alloc, s, &types[i], vs, i)?)?;
    }
    Ok(locals)
}

// The `count` types from the first on, as far as there are any.
fn span(types: &[CoreType], first: usize, count: usize) -> &[CoreType]
    ensures { result.now ≡ take count (drop first types.now) }
{
    match types.get(first..) {
        None => &[],
        Some(rest) => match rest.get(..count) {
            None => rest,
            Some(front) => front,
        },
    }
}

fn set_local(locals: &mut [Local], x: usize, local: Local)
    ensures { locals.new ≡ slice_set locals.old x local }
{
    if x < locals.len() {
        locals[x] = local;
    }
}

// The locals from the first on get values of these types.
fn set_locals(
    alloc: Global,
    s: &Structs,
    types: &[CoreType],
    first: usize,
    vs: &[i64],
    locals: &mut [Local],
) -> Result<(), NoMemory>
    requires structs { AreSized (structs_of s.now) }
    requires sized { All (IsSized (structs_of s.now)) (map type_of types.now) }
    requires low { first < 2 ^ 33 }
    ensures { OnOk result ((after : Unit {0} → Locals → Behaviour) → work.set_locals first (act.holding (structs_of s.now) (map type_of types.now) vs.now) after locals.old ≡ after tt locals.new) }
{
    for i in 0..types.len() {
        let local = local_at(alloc, s, &types[i], vs, i)?;
        set_local(locals, first + i, local);
    }
    Ok(())
}

/// The `count` locals from the first on hold the values, and then zeros.
pub(crate) fn fill(
    scope: &Scope<'_>,
    first: usize,
    count: usize,
    vs: &[i64],
    locals: &mut [Local],
) -> Result<(), NoMemory>
    requires held { IsHeld scope.now }
    requires low { first < 2 ^ 33 }
    ensures { OnOk result ((after : Unit {0} → Locals → Behaviour) → fill_in scope.now first count vs.now after locals.old ≡ after tt locals.new) }
{
    let types = span(scope.types, first, count);
    set_locals(
        scope.alloc,
        &scope.program.structs,
        types,
        first,
        vs,
        locals,
    )
}
