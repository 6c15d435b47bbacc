//! The layouts of all structs of any program, well formed or not.

ghost use Rattle.std.specs.Prelude.{◌≡◌, ◌<◌, ℕ, [], true, IfOk, length, map, slice_index_or};
ghost use Rattle.std.specs.List.{AllByRecursion};
ghost use Rattle.nesc_core.specs.Layouts.{at, made_of};
ghost use Rattle.nesc_core.specs.Size.{NamesBelow, layout_of, struct_at};
ghost use Rattle.nesc_core.specs.View.{field_of, structs_of, type_of};
ghost use Rattle.kernel_code.specs.Sizes.{AreInOrder, cut};

use crate::layouts::{layout_among, made, struct_in};
use nesc_core::{CoreType, Field, Layout, Structs};
use nm_base::NoMemory;
use std::alloc::Global;

// ---- structs in order

#[tactic(auto, using(crate::proofs::Orders::below))]
fn is_below(number: usize, t: &CoreType) -> bool
    ensures { result ≡ true → NamesBelow number (type_of t.now) }
{
    match struct_in(t) {
        None => true,
        Some(k) => (k as usize) < number,
    }
}

// Whether the fields name structs below this number alone.
fn are_below(number: usize, fields: &[Field]) -> bool
    ensures { result ≡ true → AllByRecursion (λ f. NamesBelow number f.ty) (map field_of fields.now) }
{
    for field in fields {
        if !is_below(number, &field.ty) {
            return false;
        }
    }
    true
}

// Whether the fields of each struct name structs of lower numbers alone.
fn are_in_order(s: &Structs) -> bool
    ensures { result ≡ true → AreInOrder (structs_of s.now) }
{
    let structs = s.structs.as_slice();
    for (number, fields) in structs.iter().enumerate() {
        if !are_below(number, fields.as_slice()) {
            return false;
        }
    }
    true
}

// The layouts of structs that are in order, each made once.
fn in_order(alloc: Global, s: &Structs) -> Result<Vec<Layout>, NoMemory>
    requires { AreInOrder (structs_of s.now) }
    ensures { IfOk result (λ v. (k : ℕ) → at v.items k ≡ cut (struct_at (structs_of s.now) (length (structs_of s.now)) k)) }
{
    let mut layouts = Vec::new(alloc);
    for fields in s.structs.as_slice() {
        layouts.push(made(&layouts, fields.as_slice()))?;
    }
    Ok(layouts)
}

// ---- others

// The layouts of all structs, whose own structs have these layouts.
fn next_layouts(alloc: Global, s: &Structs, layouts: &[Layout]) -> Result<Vec<Layout>, NoMemory>
    ensures { IfOk result (λ v. v.items ≡ map (λ fields. cut (made_of layouts.now fields)) (structs_of s.now)) }
{
    let mut next = Vec::new(alloc);
    for fields in s.structs.as_slice() {
        next.push(made(layouts, fields.as_slice()))?;
    }
    Ok(next)
}

// The layouts of any structs, each made as often as structs may stand in one another.
fn by_depth(alloc: Global, s: &Structs) -> Result<Vec<Layout>, NoMemory>
    ensures { IfOk result (λ v. (k : ℕ) → at v.items k ≡ cut (struct_at (structs_of s.now) (length (structs_of s.now)) k)) }
{
    let mut layouts = Vec::new(alloc);
    for _depth in 0..s.structs.as_slice().len() {
        layouts = next_layouts(alloc, s, &layouts)?;
    }
    Ok(layouts)
}

// ---- both

fn struct_layouts(alloc: Global, s: &Structs) -> Result<Vec<Layout>, NoMemory>
    ensures { IfOk result (λ v. (k : ℕ) → at v.items k ≡ cut (struct_at (structs_of s.now) (length (structs_of s.now)) k)) }
{
    if are_in_order(s) {
        in_order(alloc, s)
    } else {
        by_depth(alloc, s)
    }
}

/// The layout of a type. Time grows with the fields of all structs where these are in order, as in each well-formed program, and else with
/// these fields times the number of structs.
pub(crate) fn layout(alloc: Global, s: &Structs, t: &CoreType) -> Result<Layout, NoMemory>
    ensures { IfOk result (λ l. l ≡ cut (layout_of (structs_of s.now) (type_of t.now))) }
{
    let layouts = struct_layouts(alloc, s)?;
    Ok(layout_among(&layouts, t))
}
