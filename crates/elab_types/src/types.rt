//! Types from their parts, and new names.

ghost use Rattle.std.specs.Prelude.{◌≡◌, IfOk, drop, map};
ghost use Rattle.std.specs.Option.{option_map};
ghost use Rattle.nesc_core.specs.View.{type_of};
ghost use Rattle.elab_meaning.specs.Answers.{Follows};
ghost use Rattle.elab_meaning.specs.Operators as spec;
ghost use Rattle.elab_meaning.specs.View.{based_of, entry_of, kind_of, meaning_of, struct_of, tag_of};

use crate::scope::{declares, declares_tag};
use elab_meaning::{Based, Entry, Kind, Meaning, Struct, Tag};
use elab_values::{bad_type, copied, not_constant, size, size_behind, unknown_name};
use nesc_core::CoreType;
use nm_base::{Fault, IntType, Name, NoMemory, Pos, Refusal};
use std::alloc::Global;

/// A type that is not const.
pub fn plain_base(ty: CoreType) -> Based
    ensures { based_of result ≡ spec.plain_base (type_of ty) }
{
    Based {
        ty,
        is_const: false,
    }
}

fn type_meant(alloc: Global, at: Pos, meaning: &Meaning) -> Result<Based, Fault>
    ensures { Follows based_of result (spec.type_meant at (meaning_of meaning.now)) }
{
    match meaning {
        Meaning::Type(t, is_const) => Ok(Based {
            ty: copied(alloc, t)?,
            is_const: *is_const,
        }),
        Meaning::Object(_, _, _)
        | Meaning::Local(_, _, _)
        | Meaning::Function(_, _, _)
        | Meaning::Task(_)
        | Meaning::Constant(_, _) => unknown_name(at),
    }
}

/// A type by its name.
pub fn type_named(alloc: Global, at: Pos, meaning: Option<&Meaning>) -> Result<Based, Fault>
    ensures { Follows based_of result (spec.type_named at (option_map (λ m. meaning_of m.now) meaning.entry)) }
{
    match meaning {
        None => unknown_name(at),
        Some(meaning) => type_meant(alloc, at, meaning),
    }
}

/// A struct by its tag.
pub fn struct_tagged(at: Pos, kind: Option<Kind>) -> Result<Based, Fault>
    ensures { Follows based_of result (spec.struct_tagged at (option_map kind_of kind)) }
{
    match kind {
        None => unknown_name(at),
        Some(Kind::Struct(k)) => Ok(plain_base(CoreType::Struct(k))),
        Some(Kind::Enum) => bad_type(at),
    }
}

/// An enum by its tag.
pub fn enum_tagged(at: Pos, kind: Option<Kind>) -> Result<Based, Fault>
    ensures { Follows based_of result (spec.enum_tagged at (option_map kind_of kind)) }
{
    match kind {
        None => unknown_name(at),
        Some(Kind::Struct(_)) => bad_type(at),
        Some(Kind::Enum) => Ok(plain_base(CoreType::Int(IntType::I16))),
    }
}

// ---- stars and lengths

// A struct whose definition has not ended.
fn is_open(structs: &[Struct], t: &CoreType) -> bool
    ensures { result ≡ spec.is_open (map struct_of structs.now) (type_of t.now) }
{
    match t {
        CoreType::Struct(k) => structs.len() <= *k as usize,
        CoreType::Void | CoreType::Int(_) | CoreType::Pointer(_) | CoreType::Array(_, _) => false,
    }
}

fn stars_on(alloc: Global, stars: u8, base: CoreType) -> Result<CoreType, NoMemory>
    ensures { IfOk result (λ r. type_of r ≡ spec.stars_on stars (type_of base)) }
{
    let mut t = base;
    for _depth in 0..stars {
        t = CoreType::Pointer(Box::new(alloc, t)?);
    }
    Ok(t)
}

pub(crate) fn base_behind(structs: &[Struct], at: Pos, t: &CoreType) -> Result<(), Fault>
    ensures { Follows (λ _. tt) result (spec.base_behind (map struct_of structs.now) at (type_of t.now)) }
{
    if is_open(structs, t) {
        return Ok(());
    }
    size_behind(structs, at, t)?;
    Ok(())
}

fn base_alone(structs: &[Struct], at: Pos, t: &CoreType) -> Result<(), Fault>
    ensures { Follows (λ _. tt) result (spec.base_alone (map struct_of structs.now) at (type_of t.now)) }
{
    if is_open(structs, t) {
        return unknown_name(at);
    }
    Ok(())
}

/// The most arrays and pointers around one another in a type; what is deeper is answered by want of memory, since types are looked
/// through by calls as deep as they are.
const MAX_TYPE_LEVELS: usize = 3_000;

fn has_at_most(t: &CoreType, levels: usize) -> bool {
    let mut inner = t;
    for _ in 0..=levels {
        match inner {
            CoreType::Array(part, _) => inner = part,
            CoreType::Pointer(part) => inner = part,
            CoreType::Void | CoreType::Int(_) | CoreType::Struct(_) => return true,
        }
    }
    false
}

// Whether so many arrays or pointers more may stand around a type.
fn has_room(t: &CoreType, more: usize) -> bool {
    match MAX_TYPE_LEVELS.checked_sub(more) {
        Some(levels) => has_at_most(t, levels),
        None => false,
    }
}

/// A base with its stars.
pub fn pointers(
    alloc: Global,
    structs: &[Struct],
    at: Pos,
    stars: u8,
    base: CoreType,
) -> Result<CoreType, Fault>
    ensures { Follows type_of result (spec.pointers (map struct_of structs.now) at stars (type_of base)) }
{
    if stars == 0 {
        base_alone(structs, at, &base)?;
        return Ok(base);
    }
    if !has_room(&base, usize::from(stars)) {
        return Err(Fault::NoMemory);
    }
    base_behind(structs, at, &base)?;
    Ok(stars_on(alloc, stars, base)?)
}

/// The number of elements that a constant stands for.
pub fn array_length(at: Pos, n: i64) -> Result<u32, Fault>
    ensures { Follows (λ n. n) result (spec.array_length at n) }
{
    match u32::try_from(n) {
        Ok(n) => Ok(n),
        Err(_) => not_constant(at),
    }
}

// An array of so many parts, whose size is known and not too large.
fn array_of(
    alloc: Global,
    structs: &[Struct],
    at: Pos,
    part: CoreType,
    n: u32,
) -> Result<CoreType, Fault>
    ensures { Follows type_of result (spec.array_of (map struct_of structs.now) at (type_of part) n) }
{
    let array = CoreType::Array(Box::new(alloc, part)?, n);
    size(structs, at, &array)?;
    Ok(array)
}

/// Arrays of these lengths, of which the last is that of the innermost.
#[tactic(auto, using(crate::proofs::Lengths::lengths))]
pub fn arrays(
    alloc: Global,
    structs: &[Struct],
    at: Pos,
    part: CoreType,
    lengths: Vec<u32>,
) -> Result<CoreType, Fault>
    ensures { Follows type_of result (spec.arrays (map struct_of structs.now) at (type_of part) lengths.items) }
{
    if !has_room(&part, lengths.len()) {
        return Err(Fault::NoMemory);
    }
    let mut t = part;
    let mut rest = lengths;
    'lengths: while let Some(n) = rest.pop() {
        t = array_of(alloc, structs, at, t, n)?;
    }
    Ok(t)
}

// ---- new names

// The entries from the first of a scope on.
#[tactic(auto, using(crate::proofs::Scopes::scopes))]
fn scope_from(first: usize, names: &[Entry]) -> &[Entry]
    ensures { map entry_of result.now ≡ drop first (map entry_of names.now) }
{
    match names.get(first..) {
        Some(scope) => scope,
        None => &[],
    }
}

/// A name that the scope, which begins with the first entry, does not declare yet.
pub fn new_name(at: Pos, first: usize, names: &[Entry], name: &Name) -> Result<(), Fault>
    ensures { Follows (λ _. tt) result (spec.new_name at first (map entry_of names.now) name.now) }
{
    if declares(scope_from(first, names), name) {
        return Err(Fault::Refused(Refusal::DuplicateName(at)));
    }
    Ok(())
}

#[tactic(auto, using(crate::proofs::Scopes::scopes))]
fn tags_from(first: usize, tags: &[Tag]) -> &[Tag]
    ensures { map tag_of result.now ≡ drop first (map tag_of tags.now) }
{
    match tags.get(first..) {
        Some(scope) => scope,
        None => &[],
    }
}

/// A tag that the scope, which begins with the first entry, does not declare yet.
pub fn new_tag(at: Pos, first: usize, tags: &[Tag], name: &Name) -> Result<(), Fault>
    ensures { Follows (λ _. tt) result (spec.new_tag at first (map tag_of tags.now) name.now) }
{
    if declares_tag(tags_from(first, tags), name) {
        return Err(Fault::Refused(Refusal::DuplicateName(at)));
    }
    Ok(())
}
