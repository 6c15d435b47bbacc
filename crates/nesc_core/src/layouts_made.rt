//! The layouts of structs from those of lower numbers.

ghost use Rattle.std.specs.Prelude.{◌≡◌, ◌≤◌, ◌+◌, All, IfOk, length, map};
ghost use Rattle.nesc_core.specs.Layouts.{at, layouts_of, made_of};
ghost use Rattle.nesc_core.specs.Size as sizes;
ghost use Rattle.nesc_core.specs.Size.{AreSized, IsSmall, NamesBelow, rounded};
ghost use Rattle.nesc_core.specs.View.{field_of, structs_of, type_of};

use crate::layout::Layout;
use crate::sizes::{layout_of_int, round_up};
use crate::tree::{CoreType, Field, Structs};
use nm_base::NoMemory;
use std::alloc::Global;

/// The layout of a type whose structs are among those that have these layouts.
pub(crate) fn layout_among(layouts: &[Layout], t: &CoreType) -> Layout
    requires names { NamesBelow (length layouts.now) (type_of t.now) }
    requires small { IsSmall (at layouts.now) (type_of t.now) }
    ensures { result ≡ sizes.type_layout (at layouts.now) (type_of t.now) }
{
    match t {
        CoreType::Void => Layout { size: 0, align: 1 },
        CoreType::Int(int) => layout_of_int(*int),
        CoreType::Pointer(_) => Layout { size: 2, align: 2 },
        CoreType::Array(element, count) => {
            let one = layout_among(layouts, element);
            Layout {
                size: one.size * *count,
                align: one.align,
            }
        }
        CoreType::Struct(k) => layouts[*k as usize],
    }
}

fn with_field(done: Layout, field: Layout) -> Layout
    requires { rounded done.size field.align + field.size ≤ 32767 }
    ensures { result ≡ sizes.with_field done field }
{
    Layout {
        size: round_up(done.size, field.align) + field.size,
        align: done.align.max(field.align),
    }
}

fn struct_of_fields(fields: Layout) -> Layout
    requires { fields.size ≤ 32767 }
    ensures { result ≡ sizes.struct_of_fields fields }
{
    Layout {
        size: round_up(fields.size, fields.align),
        align: fields.align,
    }
}

// The layout of a struct whose own structs have these layouts.
fn made(layouts: &[Layout], fields: &[Field]) -> Layout
    requires names { All (λ f. NamesBelow (length layouts.now) f.ty) (map field_of fields.now) }
    requires small { All (λ f. IsSmall (at layouts.now) f.ty) (map field_of fields.now) }
    requires small_whole { (made_of layouts.now (map field_of fields.now)).size ≤ 32767 }
    ensures { result ≡ made_of layouts.now (map field_of fields.now) }
{
    let mut done = Layout { size: 0, align: 1 };
    for field in fields {
        done = with_field(done, layout_among(layouts, &field.ty));
    }
    struct_of_fields(done)
}

/// The layouts of all structs.
pub(crate) fn made_layouts(alloc: Global, s: &Structs) -> Result<Vec<Layout>, NoMemory>
    requires { AreSized (structs_of s.now) }
    ensures { IfOk result (λ layouts. layouts.items ≡ layouts_of (structs_of s.now)) }
{
    let mut layouts = Vec::new(alloc);
    for fields in s.structs.as_slice() {
        layouts.push(made(&layouts, fields.as_slice()))?;
    }
    Ok(layouts)
}
