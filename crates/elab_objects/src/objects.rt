//! Objects: variables with their addresses.

ghost use Rattle.std.specs.Prelude.{◌≡◌, IfOk, false, map, nat_le, replicate, slice_set, true};
ghost use Rattle.elab_objects.specs.Objects.{AreLow, marked, object_at, objects_by};
ghost use Rattle.elab_objects.specs.View.{variable_of};
ghost use Rattle.nesc_core.specs.Weights.{objects_start};
ghost use Rattle.nesc_core.specs.View.{object_of};
ghost use Rattle.nesc_types.specs.Addresses as room;
ghost use Rattle.nm_base.specs.declared.limit.TheConstants.{MAX_OBJECTS};
ghost use Rattle.program_meaning.specs.Program as spec;

use crate::variables::Variable;
use nesc_core::Object;
use nesc_types::place;
use nm_base::NoMemory;
use std::alloc::Global;

fn narrow(alloc: Global, places: &[u32]) -> Result<Vec<u16>, NoMemory>
    requires { AreLow places.now }
    ensures { IfOk result (λ v. v.items ≡ places.now) }
{
    let mut low = Vec::new(alloc);
    for place in places {
        low.push(*place as u16)?;
    }
    Ok(low)
}

// The addresses of objects of these sizes.
#[tactic(auto, using(crate::proofs::Flags::low))]
fn addresses(alloc: Global, sizes: &[u32]) -> Result<Vec<u16>, NoMemory>
    requires { nat_le (room.taken sizes.now) MAX_OBJECTS ≡ true }
    ensures { IfOk result (λ v. v.items ≡ room.addresses objects_start sizes.now) }
{
    let places = place(alloc, sizes)?;
    narrow(alloc, &places)
}

fn mark(flags: &mut [bool], number: u32)
    ensures { flags.new ≡ slice_set flags.old number true }
{
    let k = number as usize;
    if k < flags.len() {
        flags[k] = true;
    }
}

// Whether each of the first numbers is among these.
fn flagged(alloc: Global, numbers: &[u32], count: usize) -> Result<Vec<bool>, NoMemory>
    ensures { IfOk result (λ v. v.items ≡ marked (replicate count false) numbers.now) }
{
    let mut found = vec![in alloc; false; count]?;
    for number in numbers {
        mark(&mut found, *number);
    }
    Ok(found)
}

fn object(variable: Variable, addr: u16, taken: bool) -> Object
    ensures { object_of result ≡ object_at (variable_of variable) addr taken }
{
    Object {
        name: variable.name,
        ty: variable.ty,
        addr,
        norace: variable.norace,
        taken,
    }
}

fn objects_at(
    alloc: Global,
    variables: Vec<Variable>,
    places: &[u16],
    flags: &[bool],
) -> Result<Vec<Object>, NoMemory>
    ensures { IfOk result (λ v. map object_of v.items ≡ objects_by (map variable_of variables.items) places.now flags.now) }
{
    let mut objects = Vec::new(alloc);
    let mut places = places;
    let mut flags = flags;
    for variable in variables {
        let Some((addr, later_places)) = places.split_first() else {
            return Ok(objects);
        };
        let Some((taken, later_flags)) = flags.split_first() else {
            return Ok(objects);
        };
        objects.push(object(variable, *addr, *taken))?;
        places = later_places;
        flags = later_flags;
    }
    Ok(objects)
}

/// The objects of variables of these sizes; the addresses of those of the numbers in `taken` are taken.
#[tactic(auto, using(crate::proofs::Flags::objects))]
pub fn objects_of(
    alloc: Global,
    sizes: &[u32],
    taken: &[u32],
    variables: Vec<Variable>,
) -> Result<Vec<Object>, NoMemory>
    requires { nat_le (room.taken sizes.now) MAX_OBJECTS ≡ true }
    ensures { IfOk result (λ v. map object_of v.items ≡ spec.objects_from 0 taken.now (room.addresses objects_start sizes.now) (map variable_of variables.items)) }
{
    let places = addresses(alloc, sizes)?;
    let flags = flagged(alloc, taken, variables.len())?;
    objects_at(alloc, variables, &places, &flags)
}
