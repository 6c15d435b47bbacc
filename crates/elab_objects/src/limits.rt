//! Limits of the whole program.

ghost use Rattle.std.specs.Prelude.{◌≡◌, ◌<◌, ◌+◌, IfOk, List, ℕ, map, nat_le, true};
ghost use Rattle.std.specs.Option.{option_map};
ghost use Rattle.elab_meaning.specs.Answers.{Follows};
ghost use Rattle.elab_meaning.specs.View.{struct_of};
ghost use Rattle.elab_weights.specs.Tables.{AreFirst};
ghost use Rattle.elab_objects.specs.Limits as limits;
ghost use Rattle.elab_objects.specs.View.{boot_of, variable_of};
ghost use Rattle.nesc_core.specs.Plain as core;
ghost use Rattle.nesc_core.specs.View.{body_of};
ghost use Rattle.nm_base.specs.declared.limit.TheConstants.{MAX_NODES, MAX_OBJECTS, MAX_TASKS};
ghost use Rattle.nm_base.specs.declared.limit.Which.TheVariants as which;
ghost use Rattle.nesc_types.specs.Addresses.{taken};
ghost use Rattle.program_meaning.specs.Program as spec;
ghost use Rattle.program_meaning.specs.Walk.{fields_of};

use crate::variables::{Boot, Variable};
use elab_meaning::Struct;
use elab_weights::{all_layouts, nodes, size_among, weighed};
use nesc_core::{Body, Layout};
use nm_base::{Fault, Limit, MAX_NODES, MAX_OBJECTS, MAX_TASKS, NoMemory, Pos, Which};
use std::alloc::Global;

// The first number past the limit.
fn past(of: Which, limit: u32) -> Fault
    requires { limit < 1000000 }
    ensures { result ≡ Fault.Limit (record { which = of; have = limit + 1 }) }
{
    Fault::Limit(Limit {
        which: of,
        have: limit + 1,
    })
}

#[tactic(auto, using(crate::proofs::Bounds::nodes))]
fn has_few_nodes(bodies: &[Body]) -> bool
    ensures { result ≡ nat_le (limits.nodes_in (map body_of bodies.now)) MAX_NODES }
{
    nodes(bodies) <= MAX_NODES
}

fn few_nodes(bodies: &[Body]) -> Result<(), Fault>
    ensures { Follows (λ _. tt) result (spec.at_most which.Nodes MAX_NODES (limits.nodes_in (map body_of bodies.now))) }
{
    if has_few_nodes(bodies) {
        Ok(())
    } else {
        Err(past(Which::Nodes, MAX_NODES))
    }
}

fn few_tasks(tasks: usize) -> Result<(), Fault>
    ensures { Follows (λ _. tt) result (spec.at_most which.Tasks MAX_TASKS tasks) }
{
    if tasks <= MAX_TASKS as usize {
        Ok(())
    } else {
        Err(past(Which::Tasks, MAX_TASKS))
    }
}

// Whether objects of these sizes find room.
fn have_room(sizes: &[u32]) -> bool
    ensures { result ≡ nat_le (taken sizes.now) MAX_OBJECTS }
{
    let mut sum: u64 = 0;
    for size in sizes {
        let size = u64::from(*size);
        sum += size + size % 2;
        if sum > u64::from(MAX_OBJECTS) {
            return false;
        }
    }
    true
}

// The sizes of all variables.
fn sizes_by(alloc: Global, layouts: &[Layout], variables: &[Variable]) -> Result<Vec<u32>, NoMemory>
    ensures { (structs : List (List core.Field)) → AreFirst structs layouts.now → IfOk result (λ v. v.items ≡ spec.sizes structs (map variable_of variables.now)) }
{
    let mut sizes = Vec::new(alloc);
    for variable in variables {
        let Some(size) = size_among(layouts, &variable.ty) else {
            return Err(NoMemory);
        };
        sizes.push(size)?;
    }
    Ok(sizes)
}

fn sizes(alloc: Global, structs: &[Struct], variables: &[Variable]) -> Result<Vec<u32>, NoMemory>
    ensures { IfOk result (λ v. v.items ≡ spec.sizes (fields_of (map struct_of structs.now)) (map variable_of variables.now)) }
{
    let layouts = all_layouts(alloc, structs)?;
    sizes_by(alloc, &layouts, variables)
}

fn body_weighed(
    alloc: Global,
    structs: &[Struct],
    at: Pos,
    body: Option<&Body>,
) -> Result<(), Fault>
    ensures { Follows (λ _. tt) result (limits.body_weighed (map struct_of structs.now) at (option_map (λ b. body_of b.now) body.entry)) }
{
    match body {
        None => Ok(()),
        Some(body) => weighed(alloc, structs, at, body),
    }
}

// The frame of the boot function, with all initial values.
#[tactic(auto, using(crate::proofs::Bounds::boots))]
fn boot_weighed(
    alloc: Global,
    structs: &[Struct],
    boot: Option<Boot>,
    bodies: &[Body],
) -> Result<(), Fault>
    ensures { Follows (λ _. tt) result (limits.boot_weighed (map struct_of structs.now) (option_map boot_of boot) (map body_of bodies.now)) }
{
    match boot {
        None => Ok(()),
        Some(boot) => body_weighed(alloc, structs, boot.at, bodies.get(boot.body as usize)),
    }
}

// Objects of these sizes find room, or Limit(Objects).
fn room(sizes: Vec<u32>) -> Result<Vec<u32>, Fault>
    ensures follows { Follows (λ v. v.items) result (limits.room sizes.items) }
    ensures room { IfOk result (λ v. nat_le (taken v.items) MAX_OBJECTS ≡ true) }
{
    if have_room(&sizes) {
        Ok(sizes)
    } else {
        Err(past(Which::Objects, MAX_OBJECTS))
    }
}

/// The sizes of the variables, where the boot function's frame, the nodes of all bodies, the tasks and the objects stay within their
/// limits: BadType at the boot function's name, Limit(Nodes), Limit(Tasks) or Limit(Objects).
pub fn limited(
    alloc: Global,
    structs: &[Struct],
    boot: Option<Boot>,
    bodies: &[Body],
    tasks: usize,
    variables: &[Variable],
) -> Result<Vec<u32>, Fault>
    ensures follows { Follows (λ v. v.items) result (limits.sizes_within (map struct_of structs.now) (option_map boot_of boot) (map body_of bodies.now) tasks (map variable_of variables.now)) }
    ensures room { IfOk result (λ v. nat_le (taken v.items) MAX_OBJECTS ≡ true) }
{
    boot_weighed(alloc, structs, boot, bodies)?;
    few_nodes(bodies)?;
    few_tasks(tasks)?;
    room(sizes(alloc, structs, variables)?)
}
