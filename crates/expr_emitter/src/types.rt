//! Types of places, their sizes, and where the parts of a program lie.

ghost use Rattle.std.specs.Prelude.{◌≡◌, ◌+◌, ◌<◌, ◌≤◌, ◌^◌, length, map, option_copied, slice_get};
ghost use Rattle.core_meaning.specs.Layout as layout;
ghost use Rattle.core_meaning.specs.Work as work;
ghost use Rattle.lower_expr.specs.Code as spec;
ghost use Rattle.lower_expr.specs.Held as held;
ghost use Rattle.nesc_core.specs.Parts as parts;
ghost use Rattle.nesc_core.specs.PlaceTypes as places;
ghost use Rattle.nesc_core.specs.PlaceTypes.{fields_of, type_in};
ghost use Rattle.nesc_core.specs.Size.{AreSized, IsSized, layout_of};
ghost use Rattle.nesc_core.specs.View.{field_of, object_of, program_of, structs_of, type_of};

use nesc_core::{CoreType, Program, Structs, is_same_type};
use nm_base::IntType;

/// As which integer a value of the type is held.
pub fn number_of(t: Option<&CoreType>) -> IntType
    ensures { result ≡ work.number_of (type_in (option_copied t.entry)) }
{
    match t {
        None => IntType::U16,
        Some(CoreType::Int(int)) => *int,
        Some(CoreType::Void | CoreType::Pointer(_) | CoreType::Array(_, _) | CoreType::Struct(_)) =>
            IntType::U16,
    }
}

/// Whether there is no value of the type.
pub fn is_void(t: Option<&CoreType>) -> bool
    ensures { result ≡ spec.is_void (type_in (option_copied t.entry)) }
{
    match t {
        None | Some(CoreType::Void) => true,
        Some(
            CoreType::Int(_) | CoreType::Pointer(_) | CoreType::Array(_, _) | CoreType::Struct(_),
        ) => false,
    }
}

/// How many elements an array has.
pub(crate) fn count_of(t: Option<&CoreType>) -> u32
    ensures { result ≡ places.count_of (type_in (option_copied t.entry)) }
{
    match t {
        None => 0,
        Some(CoreType::Array(_, count)) => *count,
        Some(CoreType::Void | CoreType::Int(_) | CoreType::Pointer(_) | CoreType::Struct(_)) => 0,
    }
}

/// The size of a type in bytes.
pub fn size_of(s: &Structs, t: Option<&CoreType>) -> u32
    requires structs { AreSized (structs_of s.now) }
    requires sized { IsSized (structs_of s.now) (type_in (option_copied t)) }
    ensures { result ≡ (layout_of (structs_of s.now) (type_in (option_copied t.entry))).size }
{
    match t {
        None => 0,
        Some(t) => nesc_core::size(s, t),
    }
}

/// How far from its struct's address a field lies.
pub(crate) fn field_offset(s: &Structs, t: Option<&CoreType>, k: u32) -> u16
    requires structs { AreSized (structs_of s.now) }
    requires sized { IsSized (structs_of s.now) (type_in (option_copied t)) }
    requires inside { k < length (fields_of (structs_of s.now) (type_in (option_copied t))) }
    ensures { result ≡ places.field_offset (structs_of s.now) (type_in (option_copied t.entry)) k }
{
    match t {
        None => 0,
        Some(t) => offset_in(s, t, k),
    }
}

// A struct is less than 32,768 bytes large.
fn offset_in(s: &Structs, t: &CoreType, k: u32) -> u16
    requires structs { AreSized (structs_of s.now) }
    requires sized { IsSized (structs_of s.now) (type_of t.now) }
    requires inside { k < length (fields_of (structs_of s.now) (type_of t.now)) }
    ensures { result ≡ places.field_offset (structs_of s.now) (type_of t.now) k }
{
    nesc_core::field_offset(s, t, k) as u16
}

/// The type of a variable of the program.
pub(crate) fn object_type(p: &Program, k: u32) -> Option<&CoreType>
    ensures { type_in (option_copied result) ≡ places.object_type (slice_get (program_of p.now).objects k) }
{
    let o = p.objects.as_slice().get(k as usize)?;
    Some(&o.ty)
}

/// The address of a variable of the program.
pub(crate) fn object_address(p: &Program, k: u32) -> u16
    ensures { result ≡ layout.object_address (slice_get (program_of p.now).objects k) }
{
    match p.objects.as_slice().get(k as usize) {
        None => 0,
        Some(o) => o.addr,
    }
}

/// The type of a body's result.
pub(crate) fn result_type(p: &Program, f: u32) -> Option<&CoreType>
    ensures { type_in (option_copied result) ≡ held.result_of (slice_get (program_of p.now).bodies f) }
{
    let body = p.bodies.as_slice().get(f as usize)?;
    Some(&body.result)
}

/// The place of a type in the list of checks, or the place behind them.
pub(crate) fn check_of(checks: &[CoreType], t: &CoreType) -> u32
    requires { length checks.now < 2 ^ 31 }
    ensures value { result ≡ spec.check_of (map type_of checks.now) (type_of t.now) }
    ensures inside { result ≤ length checks.now }
{
    let mut rest = checks;
    let mut place = 0;
    while let [first, others @ ..] = rest {
        if is_same_type(first, t) {
            return place;
        }
        place += 1;
        rest = others;
    }
    place
}
