//! Ends of struct definitions.

ghost use Rattle.std.specs.Prelude.{◌≡◌, drop, map};
ghost use Rattle.nesc_core.specs.Plain as core;
ghost use Rattle.nesc_core.specs.Size as sizes;
ghost use Rattle.nesc_core.specs.View.{field_of, type_of};
ghost use Rattle.elab_meaning.specs.Answers.{Follows, Gives};
ghost use Rattle.elab_meaning.specs.Convert as convert;
ghost use Rattle.elab_meaning.specs.Operators as spec;
ghost use Rattle.elab_meaning.specs.View.{based_of, state_of, struct_of};
ghost use Rattle.elab_meaning.specs.Wired as wired;

use crate::fields::rounded;
use crate::types::{base_behind, plain_base};
use elab_meaning::{Based, Struct, Work};
use elab_values::{bad_type, small};
use nesc_core::{CoreType, Field, Layout};
use nm_base::{Fault, Pos};

// What pointers in the type point to has bytes, but for structs whose definition has not ended.
#[cycle(points)]
fn points_well(structs: &[Struct], at: Pos, t: &CoreType) -> Result<(), Fault>
    ensures { Follows (λ _. tt) result (spec.points_well (map struct_of structs.now) at (type_of t.now)) }
{
    match t {
        CoreType::Pointer(part) => pointer_points_well(structs, at, part),
        CoreType::Array(part, _) => points_well(structs, at, part),
        CoreType::Void | CoreType::Int(_) | CoreType::Struct(_) => Ok(()),
    }
}

#[cycle(points)]
fn pointer_points_well(structs: &[Struct], at: Pos, part: &CoreType) -> Result<(), Fault>
    ensures { Follows (λ _. tt) result (spec.points_well (map struct_of structs.now) at (core.pointer (type_of part.now))) }
{
    base_behind(structs, at, part)?;
    points_well(structs, at, part)
}

fn fields_point_well(structs: &[Struct], at: Pos, fields: &[Field]) -> Result<(), Fault>
    ensures { Follows (λ _. tt) result (spec.fields_point_well (map struct_of structs.now) at (map field_of fields.now)) }
{
    let mut rest = fields;
    while let [field, others @ ..] = rest {
        points_well(structs, at, &field.ty)?;
        rest = others;
    }
    Ok(())
}

fn all_point_well(structs: &[Struct], at: Pos, ended: &[Struct]) -> Result<(), Fault>
    ensures { Follows (λ _. tt) result (spec.all_point_well (map struct_of structs.now) at (map struct_of ended.now)) }
{
    let mut rest = ended;
    while let [first, others @ ..] = rest {
        fields_point_well(structs, at, first.fields.as_slice())?;
        rest = others;
    }
    Ok(())
}

// The layout of a struct with these fields, where it is not too large.
fn whole_layout(fields: Layout) -> Option<Layout>
    ensures { result ≡ convert.small (sizes.struct_of_fields fields) }
{
    small(rounded(fields.size, fields.align), fields.align)
}

// The struct at its whole size.
fn closed(at: Pos, s: Struct) -> Result<Struct, Fault>
    ensures { Follows struct_of result (spec.closed at (struct_of s)) }
{
    match whole_layout(s.layout) {
        None => bad_type(at),
        Some(layout) => Ok(Struct {
            fields: s.fields,
            consts: s.consts,
            layout,
        }),
    }
}

#[tactic(auto, using(crate::proofs::Scopes::scopes))]
fn structs_from(first: usize, structs: &[Struct]) -> &[Struct]
    ensures { map struct_of result.now ≡ drop first (map struct_of structs.now) }
{
    match structs.get(first..) {
        Some(ended) => ended,
        None => &[],
    }
}

/// Ends the definition of a struct, behind those that ended in it, which begin with the first.
pub fn end_struct(work: &mut Work, at: Pos, first: usize, s: Struct) -> Result<Based, Fault>
    ensures { Gives based_of result (state_of work.new) (wired.struct_ended at first (struct_of s) (state_of work.old)) }
{
    let Ok(number) = u32::try_from(work.structs.len()) else {
        return Err(Fault::NoMemory);
    };
    work.add_struct(closed(at, s)?)?;
    let structs = work.structs.as_slice();
    all_point_well(structs, at, structs_from(first, structs))?;
    Ok(plain_base(CoreType::Struct(number)))
}
