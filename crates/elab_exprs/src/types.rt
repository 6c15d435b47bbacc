//! Types, with the structs and enums that are defined in them: the walk over their trees.

ghost use Rattle.std.specs.Prelude.{pos};
ghost use Rattle.nesc_tree.specs.View.{base_of, expr_of, exprs_of, spec_of};
ghost use Rattle.nesc_tree.specs.Plain as s;
ghost use Rattle.elab_meaning.specs.View.{based_of, struct_of};
ghost use Rattle.elab_forms.specs.Trees.{declarator_of, declarators_of, groups_of, group_of, item_of, items_of, maybe_of};
ghost use Rattle.elab_exprs.specs.Walk.{AreLengths, IsBased, IsDone, IsLength, IsNumber, IsStruct, IsType, base_at, field_at, fields_at, fields_of_at, group_at, item_at, item_value_at, items_at, length_at, lengths_at, type_at};

use crate::constants::constant_in;
use elab_forms::{
    Told, declare_constant, ended_number, is_const_at, resolved, starred, tagged, with_field,
};
use elab_meaning::{Based, Kind, Struct, Work};
use elab_names::look_up;
use elab_types::{
    array_length, end_struct, enum_tagged, look_up_tag, no_fields, plain_base, struct_tagged,
    type_named,
};
use elab_values::bad_type;
use nesc_core::CoreType;
use nesc_tree::{Base, Declarator, EnumItem, Expr, FieldGroup, TypeSpec};
use nesc_types::pos_of;
use nm_base::{Fault, IntType, List, Name, Pos};
use std::alloc::Global;

// The type that is written.
#[cycle(walk)]
#[tactic(auto, unfolding(crate::specs::Walk::AreLengths, crate::specs::Walk::IsBased, crate::specs::Walk::IsType, crate::specs::Walk::base_at, crate::specs::Walk::lengths_at, crate::specs::Walk::type_at))]
pub(crate) fn type_of(
    alloc: Global,
    told: &Told,
    work: &mut Work,
    t: &TypeSpec,
    at: Pos,
) -> Result<CoreType, Fault>
    ensures { IsType result work.new (type_at told.now at (spec_of t.now) work.old) }
{
    let b = base(alloc, told, work, &t.base, at)?;
    let part = starred(alloc, work, at, t.stars, &b)?;
    let ns = lengths(alloc, told, work, &t.dims)?;
    resolved(alloc, work, at, part, ns)
}

// The lengths of arrays, from left to right.
#[cycle(walk)]
#[tactic(auto, using(crate::proofs::Loops::length_lists), unfolding(crate::specs::Walk::AreLengths, crate::specs::Walk::IsLength, crate::specs::Walk::length_at, crate::specs::Walk::lengths_at))]
pub(crate) fn lengths(
    alloc: Global,
    told: &Told,
    work: &mut Work,
    dims: &List<Expr>,
) -> Result<Vec<u32>, Fault>
    ensures { AreLengths result work.new (lengths_at told.now (exprs_of dims.now) work.old) }
{
    let mut ns = Vec::new(alloc);
    for e in dims.as_slice() {
        let n = length_of(alloc, told, work, e)?;
        ns.push(n)?;
    }
    Ok(ns)
}

// The length of an array.
#[cycle(walk)]
#[tactic(auto, unfolding(crate::specs::Walk::IsConstant, crate::specs::Walk::IsLength, crate::specs::Walk::constant_at, crate::specs::Walk::length_at))]
fn length_of(alloc: Global, told: &Told, work: &mut Work, e: &Expr) -> Result<u32, Fault>
    ensures { IsLength result work.new (length_at told.now (expr_of e.now) work.old) }
{
    let c = constant_in(alloc, told, work, e, pos_of(e), true)?;
    array_length(pos_of(e), c.1)
}

// A type before its stars.
#[cycle(walk)]
#[tactic(auto, unfolding(crate::specs::Walk::IsBased, crate::specs::Walk::base_at))]
pub(crate) fn base(
    alloc: Global,
    told: &Told,
    work: &mut Work,
    b: &Base,
    at: Pos,
) -> Result<Based, Fault>
    ensures { IsBased result work.new (base_at told.now at (base_of b.now) work.old) }
{
    match b {
        Base::Void => Ok(plain_base(CoreType::Void)),
        Base::Int(t) => Ok(plain_base(CoreType::Int(*t))),
        Base::Named(name) => type_named(alloc, at, look_up(work.names.as_slice(), name)),
        Base::Struct(tag, groups) => match groups {
            Some(groups) => struct_with(alloc, told, work, groups, tag, at),
            None => match tag {
                Some(tag) => struct_tagged(at, look_up_tag(work.tags.as_slice(), tag)),
                None => bad_type(at),
            },
        },
        Base::Enum(tag, items) => match items {
            Some(items) => enum_with(alloc, told, work, items, tag, at),
            None => match tag {
                Some(tag) => enum_tagged(at, look_up_tag(work.tags.as_slice(), tag)),
                None => bad_type(at),
            },
        },
    }
}

// A struct by its fields; its number counts the definitions that end before its own.
#[cycle(walk)]
#[tactic(auto, unfolding(crate::specs::Walk::IsBased, crate::specs::Walk::IsStruct, crate::specs::Walk::base_at, crate::specs::Walk::fields_at))]
fn struct_with(
    alloc: Global,
    told: &Told,
    work: &mut Work,
    groups: &List<FieldGroup>,
    tag: &Option<Name>,
    at: Pos,
) -> Result<Based, Fault>
    ensures { IsBased result work.new (base_at told.now at (s.struct_of tag.now (groups_of groups.now)) work.old) }
{
    let first = work.structs.len();
    let number = ended_number(first, groups)?;
    tagged(work, at, tag, Kind::Struct(number))?;
    let made = fields(alloc, told, work, groups, no_fields(alloc), at)?;
    end_struct(work, at, first, made)
}

// An enum by its constants.
#[cycle(walk)]
#[tactic(auto, unfolding(crate::specs::Walk::IsBased, crate::specs::Walk::IsDone, crate::specs::Walk::base_at, crate::specs::Walk::items_at))]
fn enum_with(
    alloc: Global,
    told: &Told,
    work: &mut Work,
    items: &List<EnumItem>,
    tag: &Option<Name>,
    at: Pos,
) -> Result<Based, Fault>
    ensures { IsBased result work.new (base_at told.now at (s.enum_of tag.now (items_of items.now)) work.old) }
{
    tagged(work, at, tag, Kind::Enum)?;
    enum_items(alloc, told, work, items)?;
    Ok(plain_base(CoreType::Int(IntType::I16)))
}

// The struct with the fields of these groups behind those that it has.
#[cycle(walk)]
#[tactic(auto, using(crate::proofs::Loops::group_lists), unfolding(crate::specs::Walk::IsStruct, crate::specs::Walk::fields_at, crate::specs::Walk::group_at))]
fn fields(
    alloc: Global,
    told: &Told,
    work: &mut Work,
    groups: &List<FieldGroup>,
    made: Struct,
    at: Pos,
) -> Result<Struct, Fault>
    ensures { IsStruct result work.new (fields_at told.now at (struct_of made) (groups_of groups.now) work.old) }
{
    let mut made = made;
    for g in groups.as_slice() {
        made = group(alloc, told, work, g, made, at)?;
    }
    Ok(made)
}

// Fields that share a base.
#[cycle(walk)]
#[tactic(auto, unfolding(crate::specs::Walk::IsBased, crate::specs::Walk::IsStruct, crate::specs::Walk::base_at, crate::specs::Walk::fields_of_at, crate::specs::Walk::group_at))]
fn group(
    alloc: Global,
    told: &Told,
    work: &mut Work,
    g: &FieldGroup,
    made: Struct,
    at: Pos,
) -> Result<Struct, Fault>
    ensures { IsStruct result work.new (group_at told.now at (struct_of made) (group_of g.now) work.old) }
{
    let b = base(alloc, told, work, &g.ty.base, at)?;
    fields_of(alloc, told, work, &g.fields, made, at, &b, g.ty.is_const)
}

// The struct with these fields of a base behind those that it has.
#[cycle(walk)]
#[tactic(auto, using(crate::proofs::Loops::field_lists), unfolding(crate::specs::Walk::IsStruct, crate::specs::Walk::field_at, crate::specs::Walk::fields_of_at))]
fn fields_of(
    alloc: Global,
    told: &Told,
    work: &mut Work,
    names: &List<Declarator>,
    made: Struct,
    at: Pos,
    b: &Based,
    said: bool,
) -> Result<Struct, Fault>
    ensures { IsStruct result work.new (fields_of_at told.now at (based_of b.now) said (struct_of made) (declarators_of names.now) work.old) }
{
    let mut made = made;
    for d in names.as_slice() {
        made = one_field(alloc, told, work, d, made, at, b, said)?;
    }
    Ok(made)
}

// The struct with one more field.
#[cycle(walk)]
#[tactic(auto, unfolding(crate::specs::Walk::AreLengths, crate::specs::Walk::IsStruct, crate::specs::Walk::field_at, crate::specs::Walk::lengths_at))]
fn one_field(
    alloc: Global,
    told: &Told,
    work: &mut Work,
    d: &Declarator,
    made: Struct,
    at: Pos,
    b: &Based,
    said: bool,
) -> Result<Struct, Fault>
    ensures { IsStruct result work.new (field_at told.now at (based_of b.now) said (struct_of made) (declarator_of d.now) work.old) }
{
    let part = starred(alloc, work, at, d.stars, b)?;
    let ns = lengths(alloc, told, work, &d.dims)?;
    let t = resolved(alloc, work, at, part, ns)?;
    with_field(
        work,
        at,
        made,
        &d.name,
        t,
        is_const_at(d.stars, said, b.is_const),
    )
}

// Enum constants, each the one before plus 1 where it has no value of its own.
#[cycle(walk)]
#[tactic(auto, using(crate::proofs::Loops::item_lists), unfolding(crate::specs::Walk::IsDone, crate::specs::Walk::IsNumber, crate::specs::Walk::item_at, crate::specs::Walk::items_at))]
fn enum_items(
    alloc: Global,
    told: &Told,
    work: &mut Work,
    items: &List<EnumItem>,
) -> Result<(), Fault>
    ensures { IsDone result work.new (items_at told.now (pos 0) (items_of items.now) work.old) }
{
    let mut next = 0;
    for x in items.as_slice() {
        next = enum_item(alloc, told, work, x, next)?;
    }
    Ok(())
}

// An enum constant; the answer is the next one.
#[cycle(walk)]
#[tactic(auto, unfolding(crate::specs::Walk::IsNumber, crate::specs::Walk::item_at, crate::specs::Walk::item_value_at))]
fn enum_item(
    alloc: Global,
    told: &Told,
    work: &mut Work,
    x: &EnumItem,
    next: i64,
) -> Result<i64, Fault>
    ensures { IsNumber result work.new (item_at told.now next (item_of x.now) work.old) }
{
    let z = item_value(alloc, told, work, &x.value, next)?;
    declare_constant(work, x.pos, &x.name, z)
}

// The number of an enum constant.
#[cycle(walk)]
#[tactic(auto, unfolding(crate::specs::Walk::IsConstant, crate::specs::Walk::IsNumber, crate::specs::Walk::constant_at, crate::specs::Walk::item_value_at))]
fn item_value(
    alloc: Global,
    told: &Told,
    work: &mut Work,
    value: &Option<Expr>,
    next: i64,
) -> Result<i64, Fault>
    ensures { IsNumber result work.new (item_value_at told.now next (maybe_of value.now) work.old) }
{
    match value {
        None => Ok(next),
        Some(e) => {
            let c = constant_in(alloc, told, work, e, pos_of(e), true)?;
            Ok(c.1)
        }
    }
}
