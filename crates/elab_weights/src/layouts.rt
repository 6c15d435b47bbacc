//! Layouts of types while structs are being defined.

ghost use Rattle.std.specs.Prelude.{◌≡◌, ◌≤◌, ◌<◌, ◌*◌, [], IfOk, IfSome, List, length, map};
ghost use Rattle.elab_meaning.specs.View.{struct_of};
ghost use Rattle.elab_weights.specs.Tables.{AreFirst, NameBelow, NameLower, laid};
ghost use Rattle.elab_weights.specs.declared.bound.TheConstants.{BOUND as limit};
ghost use Rattle.nesc_core.specs.Layouts.{at, made_of};
ghost use Rattle.nesc_core.specs.Plain as core;
ghost use Rattle.nesc_core.specs.Size as sizes;
ghost use Rattle.nesc_core.specs.Size.{NamesBelow, layout, layout_of, type_layout};
ghost use Rattle.nesc_core.specs.View.{field_of, type_of};
ghost use Rattle.program_meaning.specs.Walk.{fields_of};

use crate::bound::BOUND;
use elab_meaning::Struct;
use nesc_core::{CoreType, Field, Layout};
use nm_base::{IntType, NoMemory};
use std::alloc::Global;

fn small(size: u64, align: u32) -> Option<Layout>
    ensures layout { IfSome result (λ l. l ≡ layout size align) }
    ensures small { IfSome result (λ l. l.size ≤ limit) }
{
    if size <= u64::from(BOUND) {
        Some(Layout {
            size: size as u32,
            align,
        })
    } else {
        None
    }
}

fn layout_of_int(t: IntType) -> Layout
    ensures { result ≡ sizes.int_layout t }
{
    match t {
        IntType::I8 | IntType::U8 => Layout { size: 1, align: 1 },
        IntType::I16 | IntType::U16 => Layout { size: 2, align: 2 },
        IntType::I32 | IntType::U32 => Layout { size: 4, align: 2 },
    }
}

fn repeated(one: Layout, count: u32) -> Option<Layout>
    ensures layout { IfSome result (λ l. l ≡ layout (one.size * count) one.align) }
    ensures small { IfSome result (λ l. l.size ≤ limit) }
{
    small(u64::from(one.size) * u64::from(count), one.align)
}

fn struct_among(layouts: &[Layout], k: u32) -> Option<Layout>
    ensures names { IfSome result (λ _. k < length layouts.now) }
    ensures layout { IfSome result (λ l. l ≡ at layouts.now k) }
    ensures small { IfSome result (λ l. l.size ≤ limit) }
{
    let found = layouts.get(k as usize)?;
    small(u64::from(found.size), found.align)
}

/// How a value of the type lies in memory, where its structs are among those of these layouts. None where one is not, and where the size
/// is past the bound: elaboration gives no such type.
fn layout_among(layouts: &[Layout], t: &CoreType) -> Option<Layout>
    ensures names { IfSome result (λ _. NamesBelow (length layouts.now) (type_of t.now)) }
    ensures layout { IfSome result (λ l. l ≡ type_layout (at layouts.now) (type_of t.now)) }
    ensures small { IfSome result (λ l. l.size ≤ limit) }
{
    match t {
        CoreType::Void => Some(Layout { size: 0, align: 1 }),
        CoreType::Int(int) => Some(layout_of_int(*int)),
        CoreType::Pointer(_) => Some(Layout { size: 2, align: 2 }),
        CoreType::Array(part, count) => repeated(layout_among(layouts, part)?, *count),
        CoreType::Struct(k) => struct_among(layouts, *k),
    }
}

fn rounded(offset: u32, align: u32) -> u32
    requires { offset ≤ limit }
    ensures { result ≡ sizes.rounded offset align }
{
    if align == 2 {
        offset + offset % 2
    } else {
        offset
    }
}

fn with_field(done: Layout, field: Layout) -> Option<Layout>
    requires done { done.size ≤ limit }
    requires field { field.size ≤ limit }
    ensures layout { IfSome result (λ l. l ≡ sizes.with_field done field) }
    ensures small { IfSome result (λ l. l.size ≤ limit) }
{
    let end = rounded(done.size, field.align) + field.size;
    small(u64::from(end), done.align.max(field.align))
}

fn struct_of_fields(fields: Layout) -> Layout
    requires { fields.size ≤ limit }
    ensures { result ≡ sizes.struct_of_fields fields }
{
    Layout {
        size: rounded(fields.size, fields.align),
        align: fields.align,
    }
}

// The layout of a struct whose own structs have these layouts.
fn made(layouts: &[Layout], fields: &[Field]) -> Option<Layout>
    ensures names { IfSome result (λ _. NameBelow (length layouts.now) (map field_of fields.now)) }
    ensures layout { IfSome result (λ l. l ≡ made_of layouts.now (map field_of fields.now)) }
{
    let mut done = Layout { size: 0, align: 1 };
    for field in fields {
        done = with_field(done, layout_among(layouts, &field.ty)?)?;
    }
    Some(struct_of_fields(done))
}

// The layouts of all structs, one behind the other.
fn all_made(alloc: Global, structs: &[Struct]) -> Result<Vec<Layout>, NoMemory>
    ensures lower { IfOk result (λ _. NameLower 0 (fields_of (map struct_of structs.now))) }
    ensures layouts { IfOk result (λ v. v.items ≡ laid [] (fields_of (map struct_of structs.now))) }
{
    let mut layouts = Vec::new(alloc);
    for one in structs {
        let Some(next) = made(&layouts, one.fields.as_slice()) else {
            return Err(NoMemory);
        };
        layouts.push(next)?;
    }
    Ok(layouts)
}

/// The layouts of all structs, each made once. Time grows with the number of fields.
#[tactic(auto, using(crate::proofs::First::first))]
pub fn all_layouts(alloc: Global, structs: &[Struct]) -> Result<Vec<Layout>, NoMemory>
    ensures { IfOk result (λ v. AreFirst (fields_of (map struct_of structs.now)) v.items) }
{
    all_made(alloc, structs)
}

/// The size of a type in bytes, by the layouts of the structs. None where it is past the bound: elaboration gives no such type.
pub fn size_among(layouts: &[Layout], t: &CoreType) -> Option<u32>
    ensures size { (structs : List (List core.Field)) → AreFirst structs layouts.now → IfSome result (λ n. n ≡ (layout_of structs (type_of t.now)).size) }
    ensures small { IfSome result (λ n. n ≤ limit) }
{
    let found = layout_among(layouts, t)?;
    Some(found.size)
}

fn has_struct(t: &CoreType) -> bool {
    match t {
        CoreType::Void | CoreType::Int(_) | CoreType::Pointer(_) => false,
        CoreType::Array(part, _) => has_struct(part),
        CoreType::Struct(_) => true,
    }
}

/// The layouts of all structs, or of none where no type has a struct.
#[tactic(auto, using(crate::proofs::First::first))]
pub(crate) fn layouts_for(
    alloc: Global,
    structs: &[Struct],
    types: &[CoreType],
) -> Result<Vec<Layout>, NoMemory>
    ensures { IfOk result (λ v. AreFirst (fields_of (map struct_of structs.now)) v.items) }
{
    if types.iter().any(|t| has_struct(t)) {
        all_layouts(alloc, structs)
    } else {
        Ok(Vec::new(alloc))
    }
}
