//! How values lie in memory, where sizes from 65,536 on are one: nothing has to be known of the structs.

ghost use Rattle.std.specs.Prelude.{◌≡◌, ◌+◌, ◌*◌, map};
ghost use Rattle.nesc_core.specs.Layouts.{at, made_of};
ghost use Rattle.nesc_core.specs.Size as sizes;
ghost use Rattle.nesc_core.specs.Size.{layout, type_layout};
ghost use Rattle.nesc_core.specs.View.{field_of, type_of};
ghost use Rattle.kernel_code.specs.Sizes as own;
ghost use Rattle.kernel_code.specs.Sizes.{cut};

use nesc_core::{CoreType, Field, Layout};
use nm_base::IntType;

/// The size that stands for all sizes from there on, in bytes.
pub(crate) const MOST: u32 = 65_536;

/// Without bytes.
pub(crate) const EMPTY: Layout = Layout { size: 0, align: 1 };

fn cut(size: u64, align: u32) -> Layout
    ensures { result ≡ cut (layout size align) }
{
    Layout {
        size: size.min(u64::from(MOST)) as u32,
        align,
    }
}

fn repeated(one: Layout, count: u32) -> Layout
    ensures { result ≡ cut (layout (one.size * count) one.align) }
{
    cut(u64::from(one.size) * u64::from(count), one.align)
}

fn rounded(offset: u32, align: u32) -> u64
    ensures { result ≡ sizes.rounded offset align }
{
    let offset = u64::from(offset);
    if align == 2 {
        offset + offset % 2
    } else {
        offset
    }
}

/// One more field behind those so far.
pub(crate) fn with_field(done: Layout, field: Layout) -> Layout
    ensures { result ≡ cut (sizes.with_field done field) }
{
    let end = rounded(done.size, field.align) + u64::from(field.size);
    cut(end, done.align.max(field.align))
}

/// The layout of a struct whose fields take so much.
pub(crate) fn struct_of_fields(fields: Layout) -> Layout
    ensures { result ≡ cut (sizes.struct_of_fields fields) }
{
    cut(rounded(fields.size, fields.align), fields.align)
}

fn layout_of_int(t: IntType) -> Layout
    ensures { result ≡ sizes.int_layout t }
{
    match t {
        IntType::I8 | IntType::U8 => Layout { size: 1, align: 1 },
        IntType::I16 | IntType::U16 => Layout { size: 2, align: 2 },
        IntType::I32 | IntType::U32 => Layout { size: 4, align: 2 },
    }
}

/// The struct that values of the type are made of.
pub(crate) fn struct_in(t: &CoreType) -> Option<u32>
    ensures { result ≡ own.struct_in (type_of t.now) }
{
    match t {
        CoreType::Void | CoreType::Int(_) | CoreType::Pointer(_) => None,
        CoreType::Array(element, _) => struct_in(element),
        CoreType::Struct(k) => Some(*k),
    }
}

/// The layout of a type, where that of the struct in it is `inner`.
pub(crate) fn layout_over(t: &CoreType, inner: Layout) -> Layout
    ensures { result ≡ cut (type_layout (λ k. inner) (type_of t.now)) }
{
    match t {
        CoreType::Void => EMPTY,
        CoreType::Int(int) => layout_of_int(*int),
        CoreType::Pointer(_) => Layout { size: 2, align: 2 },
        CoreType::Array(element, count) => repeated(layout_over(element, inner), *count),
        CoreType::Struct(_) => cut(u64::from(inner.size), inner.align),
    }
}

// ---- from a list of layouts of structs

fn struct_at(layouts: &[Layout], k: u32) -> Layout
    ensures { result ≡ at layouts.now k }
{
    match layouts.get(k as usize) {
        Some(found) => *found,
        None => EMPTY,
    }
}

/// The layout of a type whose structs have these layouts.
pub(crate) fn layout_among(layouts: &[Layout], t: &CoreType) -> Layout
    ensures { result ≡ cut (type_layout (at layouts.now) (type_of t.now)) }
{
    match struct_in(t) {
        None => layout_over(t, EMPTY),
        Some(k) => layout_over(t, struct_at(layouts, k)),
    }
}

/// The layout of a struct with these fields, whose own structs have these layouts.
pub(crate) fn made(layouts: &[Layout], fields: &[Field]) -> Layout
    ensures { result ≡ cut (made_of layouts.now (map field_of fields.now)) }
{
    let mut done = EMPTY;
    for field in fields {
        done = with_field(done, layout_among(layouts, &field.ty));
    }
    struct_of_fields(done)
}
