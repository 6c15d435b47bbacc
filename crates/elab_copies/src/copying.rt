//! The assignments of which a struct assignment consists.

ghost use Rattle.std.specs.Prelude.{◌≡◌, ◌++◌, ◌∷◌, [], OnOk, map, length, slice_get};
ghost use Rattle.nesc_core.specs.Plain as core;
ghost use Rattle.nesc_core.specs.View.{expr_of, field_of, type_of};
ghost use Rattle.elab_meaning.specs.Places as spec;
ghost use Rattle.elab_meaning.specs.View.{frozen_place_of, struct_of};

use crate::places::{part_of, whole_place};
use elab_meaning::{FrozenPlace, Step, Struct};
use elab_operators::MAX_LEVELS;
use nesc_core::{CoreExpr, CoreType, Field};
use nm_base::{NoMemory, Pos};
use std::alloc::Global;

/// Where the assignment and its value stand.
#[derive(Clone, Copy)]
pub struct Copying {
    pub at: Pos,
    pub at_value: Pos,
}

// One number or pointer; more parts than `MAX_LEVELS` are answered by want of memory, before they are made.
fn copy_one(
    alloc: Global,
    c: Copying,
    p: &FrozenPlace,
    q: &FrozenPlace,
    out: &mut Vec<CoreExpr>,
) -> Result<(), NoMemory>
    ensures { OnOk result (map expr_of out.new.items ≡ map expr_of out.old.items ++ (core.assign (frozen_place_of p.now) (core.read (frozen_place_of q.now) c.at_value) c.at ∷ [])) }
{
    if out.len() >= MAX_LEVELS as usize {
        return Err(NoMemory);
    }
    let value = CoreExpr::Read(whole_place(alloc, q)?, c.at_value);
    let value = Box::new(alloc, value)?;
    out.push(CoreExpr::Assign(whole_place(alloc, p)?, value, c.at))?;
    Ok(())
}

#[cycle(copies)]
#[tactic(auto, using(crate::proofs::Elements::copies))]
fn copy_parts(
    alloc: Global,
    structs: &[Struct],
    c: Copying,
    depth: usize,
    t: &CoreType,
    p: &FrozenPlace,
    q: &FrozenPlace,
    out: &mut Vec<CoreExpr>,
) -> Result<(), NoMemory>
    ensures { OnOk result (map expr_of out.new.items ≡ map expr_of out.old.items ++ spec.copies_in (spec.copies_of_struct (map struct_of structs.now) c.at c.at_value depth) c.at c.at_value (type_of t.now) (frozen_place_of p.now) (frozen_place_of q.now)) }
{
    match t {
        CoreType::Void => Ok(()),
        CoreType::Int(_) | CoreType::Pointer(_) => copy_one(alloc, c, p, q, out),
        CoreType::Array(part, n) => copy_elements(alloc, structs, c, depth, part, *n, p, q, out),
        CoreType::Struct(k) => copy_struct(alloc, structs, c, depth, *k, p, q, out),
    }
}

#[cycle(copies)]
#[tactic(auto, using(crate::proofs::Elements::copies))]
fn copy_elements(
    alloc: Global,
    structs: &[Struct],
    c: Copying,
    depth: usize,
    part: &CoreType,
    n: u32,
    p: &FrozenPlace,
    q: &FrozenPlace,
    out: &mut Vec<CoreExpr>,
) -> Result<(), NoMemory>
    ensures { OnOk result (map expr_of out.new.items ≡ map expr_of out.old.items ++ spec.copies_in (spec.copies_of_struct (map struct_of structs.now) c.at c.at_value depth) c.at c.at_value (core.array (type_of part.now) n) (frozen_place_of p.now) (frozen_place_of q.now)) }
{
    for i in 0..n {
        let to = part_of(alloc, p, Step::Element(i))?;
        let from = part_of(alloc, q, Step::Element(i))?;
        copy_parts(alloc, structs, c, depth, part, &to, &from, out)?;
    }
    Ok(())
}

// The fields of the struct, or none.
#[tactic(auto, using(crate::proofs::Elements::structs))]
fn fields_of<'a>(structs: &'a [Struct], k: u32) -> &'a [Field]
    ensures { map field_of result.now ≡ spec.fields_of_struct (slice_get (map struct_of structs.now) k) }
{
    match structs.get(k as usize) {
        None => &[],
        Some(found) => found.fields.as_slice(),
    }
}

#[cycle(copies)]
#[tactic(auto, using(crate::proofs::Elements::copies))]
fn copy_struct(
    alloc: Global,
    structs: &[Struct],
    c: Copying,
    depth: usize,
    k: u32,
    p: &FrozenPlace,
    q: &FrozenPlace,
    out: &mut Vec<CoreExpr>,
) -> Result<(), NoMemory>
    ensures { OnOk result (map expr_of out.new.items ≡ map expr_of out.old.items ++ spec.copies_of_struct (map struct_of structs.now) c.at c.at_value depth k (frozen_place_of p.now) (frozen_place_of q.now)) }
{
    if depth == 0 {
        return Ok(());
    }
    let fields = fields_of(structs, k);
    for (j, field) in fields.iter().enumerate() {
        let Ok(number) = u32::try_from(j) else {
            return Err(NoMemory);
        };
        let to = part_of(alloc, p, Step::Field(number))?;
        let from = part_of(alloc, q, Step::Field(number))?;
        copy_parts(alloc, structs, c, depth - 1, &field.ty, &to, &from, out)?;
    }
    Ok(())
}

/// One assignment for each number and pointer in the struct, in order.
pub fn copies(
    alloc: Global,
    structs: &[Struct],
    c: Copying,
    k: u32,
    p: &FrozenPlace,
    q: &FrozenPlace,
    out: &mut Vec<CoreExpr>,
) -> Result<(), NoMemory>
    ensures { OnOk result (map expr_of out.new.items ≡ map expr_of out.old.items ++ spec.copies (map struct_of structs.now) c.at c.at_value k (frozen_place_of p.now) (frozen_place_of q.now)) }
{
    copy_struct(alloc, structs, c, structs.len(), k, p, q, out)
}
