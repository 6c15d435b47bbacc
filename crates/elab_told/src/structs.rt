//! Structs that were met where types stand in wires.

ghost use Rattle.std.specs.Prelude.{◌≡◌, ◌++◌, map, IfOk, OnOk};
ghost use Rattle.nesc_core.specs.View.{field_of};
ghost use Rattle.elab_making.specs.Does.{Does};
ghost use Rattle.elab_making.specs.View.{whole_of};
ghost use Rattle.elab_meaning.specs.View.{struct_of};
ghost use Rattle.program_meaning.specs.Modules as spec;
ghost use Rattle.elab_told.specs.View.{met_of};

use crate::met::{Met, type_as};
use elab_making::Whole;
use elab_meaning::Struct;
use nesc_core::Field;
use nm_base::{Fault, NoMemory, beside};
use std::alloc::Global;

fn field_as(alloc: Global, met: &Met, field: &Field) -> Result<Field, NoMemory>
    ensures { IfOk result (λ f. field_of f ≡ spec.field_as (met_of met.now) (field_of field.now)) }
{
    let ty = type_as(alloc, met, &field.ty)?;
    let (ty, name) = beside(ty, field.name.clone())?;
    Ok(Field { name, ty })
}

fn fields_as(alloc: Global, met: &Met, fields: &[Field]) -> Result<Vec<Field>, NoMemory>
    ensures { IfOk result (λ v. map field_of v.items ≡ map (spec.field_as (met_of met.now)) (map field_of fields.now)) }
{
    let mut made = Vec::new(alloc);
    for field in fields {
        made.push(field_as(alloc, met, field)?)?;
    }
    Ok(made)
}

fn struct_as(alloc: Global, met: &Met, x: &Struct) -> Result<Struct, NoMemory>
    ensures { IfOk result (λ s. struct_of s ≡ spec.struct_as (met_of met.now) (struct_of x.now)) }
{
    let fields = fields_as(alloc, met, x.fields.as_slice())?;
    let (fields, consts) = beside(fields, x.consts.clone())?;
    Ok(Struct {
        fields,
        consts,
        layout: x.layout,
    })
}

fn push_structs(
    alloc: Global,
    all: &mut Vec<Struct>,
    met: &Met,
    structs: &[Struct],
) -> Result<(), NoMemory>
    ensures { OnOk result (map struct_of all.new.items ≡ map struct_of all.old.items ++ map (spec.struct_as (met_of met.now)) (map struct_of structs.now)) }
{
    for x in structs {
        all.push(struct_as(alloc, met, x)?)?;
    }
    Ok(())
}

/// The structs that were met where types stand in wires come behind those of headers.
pub fn structs_met(
    alloc: Global,
    whole: &mut Whole,
    met: &Met,
    structs: &[Struct],
) -> Result<(), Fault>
    ensures { Does (λ _. tt) result (whole_of whole.new) (spec.structs_met (met_of met.now) (map struct_of structs.now) (whole_of whole.old)) }
{
    Ok(push_structs(alloc, &mut whole.work.structs, met, structs)?)
}
