//! Fields of a struct that is being defined.

ghost use Rattle.std.specs.Prelude.{◌≡◌, bytes_eq, map};
ghost use Rattle.std.specs.Option.{option_and_then};
ghost use Rattle.nesc_core.specs.Size as sizes;
ghost use Rattle.nesc_core.specs.View.{field_of, type_of};
ghost use Rattle.elab_meaning.specs.Answers.{Follows};
ghost use Rattle.elab_meaning.specs.Convert as convert;
ghost use Rattle.elab_meaning.specs.Operators as spec;
ghost use Rattle.elab_meaning.specs.Scope.{has_field};
ghost use Rattle.elab_meaning.specs.View.{struct_of};

use elab_meaning::Struct;
use elab_values::{bad_type, layout_in, small};
use nesc_core::{CoreType, Field, Layout};
use nm_base::{Fault, Name, Pos, Refusal};
use std::alloc::Global;

/// A struct without fields.
pub fn no_fields(alloc: Global) -> Struct
    ensures { struct_of result ≡ spec.no_fields }
{
    Struct {
        fields: Vec::new(alloc),
        consts: Vec::new(alloc),
        layout: Layout { size: 0, align: 1 },
    }
}

fn is_named(field: &Field, name: &Name) -> bool
    ensures { result ≡ bytes_eq (field_of field.now).name name.now }
{
    field.name == *name
}

#[tactic(auto, using(crate::proofs::Tables::tables))]
fn declares_field(fields: &[Field], name: &Name) -> bool
    ensures { result ≡ has_field (map field_of fields.now) name.now }
{
    for field in fields {
        if is_named(field, name) {
            return true;
        }
    }
    false
}

pub(crate) fn rounded(offset: u32, align: u32) -> u64
    ensures { result ≡ sizes.rounded offset align }
{
    let offset = u64::from(offset);
    if align == 2 {
        offset + offset % 2
    } else {
        offset
    }
}

// One more field behind those so far, where that is not too large.
fn with_field(done: Layout, f: Layout) -> Option<Layout>
    ensures { result ≡ convert.small (sizes.with_field done f) }
{
    small(
        rounded(done.size, f.align) + u64::from(f.size),
        done.align.max(f.align),
    )
}

// The layout with a field of the type.
fn grown(structs: &[Struct], at: Pos, done: Layout, t: &CoreType) -> Result<Layout, Fault>
    ensures { Follows (λ l. l) result (spec.grown (map struct_of structs.now) at done (type_of t.now)) }
{
    let Some(f) = layout_in(structs, t) else {
        return bad_type(at);
    };
    match with_field(done, f) {
        None => bad_type(at),
        Some(l) => Ok(l),
    }
}

fn pushed(
    s: Struct,
    name: Name,
    ty: CoreType,
    is_const: bool,
    layout: Layout,
) -> Result<Struct, Fault>
    ensures { Follows struct_of result (spec.pushed (struct_of s) name (type_of ty) is_const layout) }
{
    let mut fields = s.fields;
    let mut consts = s.consts;
    fields.push(Field { name, ty })?;
    consts.push(is_const)?;
    Ok(Struct {
        fields,
        consts,
        layout,
    })
}

// The layout with a field whose name is new.
fn grown_by(
    structs: &[Struct],
    at: Pos,
    s: &Struct,
    name: &Name,
    t: &CoreType,
) -> Result<Layout, Fault>
    ensures { Follows (λ l. l) result (spec.grown_by (map struct_of structs.now) at (struct_of s.now) name.now (type_of t.now)) }
{
    if declares_field(s.fields.as_slice(), name) {
        return Err(Fault::Refused(Refusal::DuplicateName(at)));
    }
    grown(structs, at, s.layout, t)
}

/// The struct with one more field, whose name is new.
pub fn with_field_named(
    structs: &[Struct],
    at: Pos,
    s: Struct,
    name: Name,
    t: CoreType,
    is_const: bool,
) -> Result<Struct, Fault>
    ensures { Follows struct_of result (spec.with_field_named (map struct_of structs.now) at (struct_of s) name (type_of t) is_const) }
{
    let layout = grown_by(structs, at, &s, &name, &t)?;
    pushed(s, name, t, is_const, layout)
}
