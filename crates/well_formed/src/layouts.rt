//! The layouts of all structs, each made once, where no type is too large.

ghost use Rattle.std.specs.Prelude.{◌≡◌, ◌≤◌, ◌<◌, ◌*◌, [], IfSome, length, map};
ghost use Rattle.nesc_core.specs.Layouts.{at, made_of};
ghost use Rattle.nesc_core.specs.Size as sizes;
ghost use Rattle.nesc_core.specs.Size.{IsSmall, NamesBelow, layout, type_layout};
ghost use Rattle.nesc_core.specs.View.{field_of, structs_of, type_of};
ghost use Rattle.well_formed.specs.Laid.{AreGood, AreLaid, AreSmall, NameBelow, laid};

use nesc_core::{CoreType, Field, Layout, Structs};
use nm_base::IntType;
use std::alloc::Global;

/// The most bytes of a value.
const MOST_BYTES: u32 = 32_767;

fn small(size: u64, align: u32) -> Option<Layout>
    ensures layout { IfSome result (λ l. l ≡ layout size align) }
    ensures small { IfSome result (λ l. l.size ≤ 32767) }
{
    if size <= u64::from(MOST_BYTES) {
        Some(Layout {
            size: size as u32,
            align,
        })
    } else {
        None
    }
}

fn layout_of_int(t: IntType) -> Layout
    ensures layout { result ≡ sizes.int_layout t }
    ensures small { result.size ≤ 32767 }
{
    match t {
        IntType::I8 | IntType::U8 => Layout { size: 1, align: 1 },
        IntType::I16 | IntType::U16 => Layout { size: 2, align: 2 },
        IntType::I32 | IntType::U32 => Layout { size: 4, align: 2 },
    }
}

fn repeated(one: Layout, count: u32) -> Option<Layout>
    ensures layout { IfSome result (λ l. l ≡ layout (one.size * count) one.align) }
    ensures bytes { IfSome result (λ _. one.size * count ≤ 32767) }
    ensures small { IfSome result (λ l. l.size ≤ 32767) }
{
    small(u64::from(one.size) * u64::from(count), one.align)
}

fn struct_among(layouts: &[Layout], k: u32) -> Option<Layout>
    ensures names { IfSome result (λ _. k < length layouts.now) }
    ensures layout { IfSome result (λ l. l ≡ at layouts.now k) }
    ensures small { IfSome result (λ l. l.size ≤ 32767) }
{
    let found = layouts.get(k as usize)?;
    small(u64::from(found.size), found.align)
}

/// How a value of the type lies in memory, where its structs are among those of these layouts. None where one is not, and where the type
/// or the elements of an array in it are too large. Time grows with how deep arrays stand in one another.
pub(crate) fn layout_among(layouts: &[Layout], t: &CoreType) -> Option<Layout>
    ensures names { IfSome result (λ _. NamesBelow (length layouts.now) (type_of t.now)) }
    ensures bytes { IfSome result (λ _. IsSmall (at layouts.now) (type_of t.now)) }
    ensures layout { IfSome result (λ l. l ≡ type_layout (at layouts.now) (type_of t.now)) }
    ensures small { IfSome result (λ l. l.size ≤ 32767) }
{
    match t {
        CoreType::Void => Some(Layout { size: 0, align: 1 }),
        CoreType::Int(int) => Some(layout_of_int(*int)),
        CoreType::Pointer(_) => Some(Layout { size: 2, align: 2 }),
        CoreType::Array(part, count) => repeated(layout_among(layouts, part)?, *count),
        CoreType::Struct(k) => struct_among(layouts, *k),
    }
}

fn rounded(offset: u32, align: u32) -> u32
    requires { offset ≤ 32767 }
    ensures { result ≡ sizes.rounded offset align }
{
    if align == 2 {
        offset + offset % 2
    } else {
        offset
    }
}

fn with_field(done: Layout, field: Layout) -> Option<Layout>
    requires done { done.size ≤ 32767 }
    requires field { field.size ≤ 32767 }
    ensures layout { IfSome result (λ l. l ≡ sizes.with_field done field) }
    ensures small { IfSome result (λ l. l.size ≤ 32767) }
{
    let end = rounded(done.size, field.align) + field.size;
    small(u64::from(end), done.align.max(field.align))
}

fn struct_of_fields(fields: Layout) -> Option<Layout>
    requires { fields.size ≤ 32767 }
    ensures layout { IfSome result (λ l. l ≡ sizes.struct_of_fields fields) }
    ensures small { IfSome result (λ l. l.size ≤ 32767) }
{
    let end = rounded(fields.size, fields.align);
    small(u64::from(end), fields.align)
}

// The layout of a struct whose own structs have these layouts.
fn made(layouts: &[Layout], fields: &[Field]) -> Option<Layout>
    ensures names { IfSome result (λ _. NameBelow (length layouts.now) (map field_of fields.now)) }
    ensures bytes { IfSome result (λ _. AreSmall layouts.now (map field_of fields.now)) }
    ensures layout { IfSome result (λ l. l ≡ made_of layouts.now (map field_of fields.now)) }
    ensures small { IfSome result (λ l. l.size ≤ 32767) }
{
    let mut done = Layout { size: 0, align: 1 };
    for field in fields {
        done = with_field(done, layout_among(layouts, &field.ty)?)?;
    }
    struct_of_fields(done)
}

// The layouts of all structs, one behind the other.
fn all_made(alloc: Global, s: &Structs) -> Option<Vec<Layout>>
    ensures good { IfSome result (λ _. AreGood [] (structs_of s.now)) }
    ensures layouts { IfSome result (λ v. v.items ≡ laid [] (structs_of s.now)) }
{
    let mut layouts = Vec::new(alloc);
    for fields in s.structs.as_slice() {
        let next = made(&layouts, fields.as_slice())?;
        layouts.push(next).ok()?;
    }
    Some(layouts)
}

/// The layouts of all structs. None where the fields of a struct name one that is not of a lower number, where a type is too large, and
/// where there is no memory for them. Time grows with the number of fields.
#[tactic(auto, using(crate::proofs::Sized::are_laid))]
pub(crate) fn all_layouts(alloc: Global, s: &Structs) -> Option<Vec<Layout>>
    ensures { IfSome result (λ v. AreLaid (structs_of s.now) v.items) }
{
    all_made(alloc, s)
}
