//! Parts of a local or of a variable: the element, the field, or the number or pointer itself that an initialiser is for.

ghost use Rattle.std.specs.Prelude.{◌≡◌, IfOk, map};
ghost use Rattle.std.specs.Option.{option_map};
ghost use Rattle.nesc_core.specs.Plain as core;
ghost use Rattle.nesc_core.specs.View.{field_of, type_of};
ghost use Rattle.elab_meaning.specs.View.{struct_of};
ghost use Rattle.body_meaning.specs.Initial as spec;
ghost use Rattle.elab_pieces.specs.Ways.{aim, aim_of, step_from, way_of};

use elab_meaning::Struct;
use elab_values::copied;
use nesc_core::{CoreType, Field};
use nm_base::NoMemory;
use std::alloc::Global;

/// What a place begins with: a local, or a variable of a module, with its number.
#[derive(Clone, Copy)]
pub enum Root {
    Local(u32),
    Object(u32),
}

/// A step from a place to a part of it: the element or the field with a number.
#[derive(Clone, Copy)]
pub enum Step {
    Element(u32),
    Field(u32),
}

/// A part of a local or of a variable with its type.
#[derive(Drop)]
pub struct Part {
    pub root: Root,
    pub steps: Vec<Step>,
    pub ty: CoreType,
}

// The same part.
fn same(alloc: Global, p: &Part) -> Result<Part, NoMemory>
    ensures { IfOk result (λ r. aim_of r ≡ aim_of p.now) }
{
    Ok(Part {
        root: p.root,
        steps: p.steps.clone()?,
        ty: copied(alloc, &p.ty)?,
    })
}

// Its steps.
fn steps_of(p: &Part) -> Result<Vec<Step>, NoMemory>
    ensures { IfOk result (λ v. v.items ≡ p.now.steps.items) }
{
    Ok(p.steps.clone()?)
}

// The part behind one step more.
fn behind(p: &Part, step: Step, ty: CoreType) -> Result<Part, NoMemory>
    ensures { IfOk result (λ r. aim_of r ≡ aim (step_from (way_of p.now) step) (type_of ty)) }
{
    let mut steps = steps_of(p)?;
    steps.push(step)?;
    Ok(Part {
        root: p.root,
        steps,
        ty,
    })
}

fn itself(alloc: Global, p: &Part, k: u32) -> Result<Option<Part>, NoMemory>
    ensures { IfOk result (λ r. option_map aim_of r ≡ spec.itself (aim_of p.now) k) }
{
    if k != 0 {
        return Ok(None);
    }
    Ok(Some(same(alloc, p)?))
}

fn element_part(
    alloc: Global,
    p: &Part,
    t: &CoreType,
    n: u32,
    k: u32,
) -> Result<Option<Part>, NoMemory>
    ensures { IfOk result (λ r. option_map aim_of r ≡ spec.element_part (aim_of p.now) (type_of t.now) n k) }
{
    if k >= n {
        return Ok(None);
    }
    Ok(Some(behind(p, Step::Element(k), copied(alloc, t)?)?))
}

fn field_part(alloc: Global, p: &Part, k: u32, f: &Field) -> Result<Part, NoMemory>
    ensures { IfOk result (λ r. aim_of r ≡ spec.field_part (aim_of p.now) k (field_of f.now)) }
{
    behind(p, Step::Field(k), copied(alloc, &f.ty)?)
}

#[tactic(auto, using(crate::proofs::Ways::tables))]
fn field_part_of(alloc: Global, p: &Part, k: u32, s: &Struct) -> Result<Option<Part>, NoMemory>
    ensures { IfOk result (λ r. option_map aim_of r ≡ spec.field_part_of (aim_of p.now) k (struct_of s.now)) }
{
    match s.fields.get(k as usize) {
        None => Ok(None),
        Some(f) => Ok(Some(field_part(alloc, p, k, f)?)),
    }
}

#[tactic(auto, using(crate::proofs::Ways::tables))]
fn part_of_struct(
    alloc: Global,
    structs: &[Struct],
    p: &Part,
    j: u32,
    k: u32,
) -> Result<Option<Part>, NoMemory>
    ensures { IfOk result (λ r. option_map aim_of r ≡ spec.part_of (map struct_of structs.now) (aim_of p.now) k (core.struct j)) }
{
    match structs.get(j as usize) {
        None => Ok(None),
        Some(s) => field_part_of(alloc, p, k, s),
    }
}

/// The part that the initialiser with this number in braces is for.
pub fn part_of(
    alloc: Global,
    structs: &[Struct],
    p: &Part,
    k: u32,
) -> Result<Option<Part>, NoMemory>
    ensures { IfOk result (λ r. option_map aim_of r ≡ spec.part_of (map struct_of structs.now) (aim_of p.now) k (type_of p.now.ty)) }
{
    match &p.ty {
        CoreType::Void => Ok(None),
        CoreType::Int(_) => itself(alloc, p, k),
        CoreType::Pointer(_) => itself(alloc, p, k),
        CoreType::Array(t, n) => element_part(alloc, p, t, *n, k),
        CoreType::Struct(j) => part_of_struct(alloc, structs, p, *j, k),
    }
}
