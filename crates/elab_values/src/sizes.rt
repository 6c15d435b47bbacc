//! Sizes of types while structs are being defined.

ghost use Rattle.std.specs.Prelude.{◌≡◌, map, slice_get};
ghost use Rattle.std.specs.Option.{option_and_then, option_map};
ghost use Rattle.nesc_core.specs.Size.{int_layout, layout};
ghost use Rattle.nesc_core.specs.View.{type_of};
ghost use Rattle.elab_meaning.specs.Answers.{Follows};
ghost use Rattle.elab_meaning.specs.Convert as spec;
ghost use Rattle.elab_meaning.specs.Operators as operators;
ghost use Rattle.elab_meaning.specs.View.{stride_of, struct_of};

use crate::found::{bad_type, pointed};
use elab_meaning::{Stride, Struct};
use nesc_core::{CoreType, Layout};
use nesc_types::Constant;
use nm_base::{Fault, IntType, Pos};
use std::alloc::Global;

/// The greatest size of a type in bytes.
pub const MAX_SIZE: u64 = 32_767;

/// The layout, where it is not too large.
pub fn small(size: u64, align: u32) -> Option<Layout>
    ensures { result ≡ spec.small (layout size align) }
{
    if size <= MAX_SIZE {
        Some(Layout {
            size: size as u32,
            align,
        })
    } else {
        None
    }
}

fn layout_of_int(t: IntType) -> Layout
    ensures { result ≡ int_layout t }
{
    match t {
        IntType::I8 | IntType::U8 => Layout { size: 1, align: 1 },
        IntType::I16 | IntType::U16 => Layout { size: 2, align: 2 },
        IntType::I32 | IntType::U32 => Layout { size: 4, align: 2 },
    }
}

fn repeated(one: Option<Layout>, n: u32) -> Option<Layout>
    ensures { result ≡ option_and_then (spec.repeated n) one }
{
    match one {
        None => None,
        Some(one) => small(u64::from(one.size) * u64::from(n), one.align),
    }
}

#[tactic(auto, using(crate::proofs::Tables::structs))]
fn struct_layout(structs: &[Struct], k: u32) -> Option<Layout>
    ensures { result ≡ option_map (λ s. s.layout) (slice_get (map struct_of structs.now) k) }
{
    match structs.get(k as usize) {
        None => None,
        Some(found) => Some(found.layout),
    }
}

/// How a value of the type lies in memory; None where that is nothing, is not known yet, or is too large.
pub fn layout_in(structs: &[Struct], t: &CoreType) -> Option<Layout>
    ensures { result ≡ spec.layout_in (map struct_of structs.now) (type_of t.now) }
{
    match t {
        CoreType::Void => None,
        CoreType::Int(int) => Some(layout_of_int(*int)),
        CoreType::Pointer(_) => Some(Layout { size: 2, align: 2 }),
        CoreType::Array(part, n) => repeated(layout_in(structs, part), *n),
        CoreType::Struct(k) => struct_layout(structs, *k),
    }
}

/// The size of a type in bytes.
pub fn size(structs: &[Struct], at: Pos, t: &CoreType) -> Result<u32, Fault>
    ensures { Follows (λ n. n) result (spec.size (map struct_of structs.now) at (type_of t.now)) }
{
    match layout_in(structs, t) {
        None => bad_type(at),
        Some(found) => Ok(found.size),
    }
}

/// `sizeof`.
pub fn sized(structs: &[Struct], at: Pos, t: &CoreType) -> Result<Constant, Fault>
    ensures { Follows (λ x. x) result (operators.sized (map struct_of structs.now) at (type_of t.now)) }
{
    let n = size(structs, at, t)?;
    Ok((IntType::U16, i64::from(n)))
}

fn some_bytes(at: Pos, n: u32) -> Result<u32, Fault>
    ensures { Follows (λ n. n) result (spec.some_bytes at n) }
{
    if n == 0 {
        return bad_type(at);
    }
    Ok(n)
}

/// The size of what a pointer may point to.
pub fn size_behind(structs: &[Struct], at: Pos, t: &CoreType) -> Result<u32, Fault>
    ensures { Follows (λ n. n) result (spec.size_behind (map struct_of structs.now) at (type_of t.now)) }
{
    let n = size(structs, at, t)?;
    some_bytes(at, n)
}

/// What a pointer of the type moves over.
pub fn stride(structs: &[Struct], at: Pos, t: CoreType) -> Result<Stride, Fault>
    ensures { Follows stride_of result (spec.stride (map struct_of structs.now) at (type_of t)) }
{
    let part = pointed(at, t)?;
    let bytes = size_behind(structs, at, &part)?;
    Ok(Stride { part, bytes })
}

/// A pointer to the type.
pub fn pointer_to(
    alloc: Global,
    structs: &[Struct],
    at: Pos,
    t: CoreType,
) -> Result<CoreType, Fault>
    ensures { Follows type_of result (spec.pointer_to (map struct_of structs.now) at (type_of t)) }
{
    size_behind(structs, at, &t)?;
    Ok(CoreType::Pointer(Box::new(alloc, t)?))
}
