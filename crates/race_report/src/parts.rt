//! Whether values of a type have a part of another type.

ghost use Rattle.std.specs.Prelude.{◌≡◌, ℕ, IfOk, length, map};
ghost use Rattle.std.specs.List.{list_any};
ghost use Rattle.nesc_core.specs.Size.{AreSized};
ghost use Rattle.nesc_core.specs.View.{field_of, structs_of, type_of};
ghost use Rattle.race_report.specs.Parts as specs;
ghost use Rattle.race_report.specs.Parts.{struct_has};

use nesc_core::{CoreType, Field, Structs, is_same_type};
use nm_base::NoMemory;
use std::alloc::Global;

/// Whether the type is the wanted one, or elements or fields of it, again, are; `inside` tells which structs have such fields.
pub(crate) fn has_part(inside: &[bool], t: &CoreType, wanted: &CoreType) -> bool
    ensures { result ≡ specs.has_part (type_of wanted.now) (specs.is_marked inside.now) (type_of t.now) }
{
    if is_same_type(t, wanted) {
        return true;
    }
    match t {
        CoreType::Void | CoreType::Int(_) | CoreType::Pointer(_) => false,
        CoreType::Array(element, count) => *count != 0 && has_part(inside, element, wanted),
        CoreType::Struct(k) => is_marked(inside, *k),
    }
}

/// Mark `k`; false where there is none.
pub(crate) fn is_marked(marks: &[bool], k: u32) -> bool
    ensures { result ≡ specs.is_marked marks.now k }
{
    match marks.get(k as usize) {
        Some(is_marked) => *is_marked,
        None => false,
    }
}

#[tactic(auto, using(crate::proofs::PartLemmas::steps))]
fn any_field(inside: &[bool], fields: &[Field], wanted: &CoreType) -> bool
    ensures { result ≡ list_any (λ f. specs.has_part (type_of wanted.now) (specs.is_marked inside.now) f.ty) (map field_of fields.now) }
{
    for field in fields {
        if has_part(inside, &field.ty, wanted) {
            return true;
        }
    }
    false
}

/// Which structs have a part of the wanted type in their fields, in time linear in all fields.
pub(crate) fn structs_with(
    alloc: Global,
    s: &Structs,
    wanted: &CoreType,
) -> Result<Vec<bool>, NoMemory>
    requires { AreSized (structs_of s.now) }
    ensures { IfOk result (λ v. (k : ℕ) → specs.is_marked v.items k ≡ struct_has (structs_of s.now) (type_of wanted.now) (length (structs_of s.now)) k) }
{
    let mut inside = Vec::new(alloc);
    for fields in s.structs.as_slice() {
        let has = any_field(&inside, fields.as_slice(), wanted);
        inside.push(has)?;
    }
    Ok(inside)
}
