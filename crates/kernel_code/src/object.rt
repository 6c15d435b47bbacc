//! The object of the bytes that hold the list.

ghost use Rattle.std.specs.Prelude.{◌≡◌, ◌++◌, ◌∷◌, [], false, codes, IfOk, map};
ghost use Rattle.nm_base.specs.declared.int_type.IntType.TheVariants.{U8};
ghost use Rattle.nesc_core.specs.Plain.{array, int};
ghost use Rattle.nesc_core.specs.View.{object_of, type_of};

use crate::forms::{boxed, grow};
use nesc_core::{CoreType, Object};
use nm_base::{IntType, List, Name, NoMemory, beside};
use std::alloc::Global;

fn byte_array(alloc: Global, count: u32) -> Result<CoreType, NoMemory>
    ensures { IfOk result (λ t. type_of t ≡ array (int U8) count) }
{
    Ok(CoreType::Array(boxed(alloc, CoreType::Int(IntType::U8))?, count))
}

fn bytes_object(alloc: Global, count: u32, addr: u16) -> Result<Object, NoMemory>
    ensures { IfOk result (λ o. object_of o ≡ record { name = codes "queue"; ty = array (int U8) count; addr = addr; norace = false; taken = false }) }
{
    let ty = byte_array(alloc, count)?;
    let (ty, name) = beside(ty, Name::new(alloc, b"queue"))?;
    Ok(Object {
        name,
        ty,
        addr,
        norace: false,
        taken: false,
    })
}

/// So many bytes at this address are one object more.
pub(crate) fn push_bytes(
    alloc: Global,
    count: u32,
    addr: u16,
    objects: &mut List<Object>,
) -> Result<(), NoMemory>
    ensures { IfOk result (λ _. map object_of objects.new ≡ map object_of objects.old ++ (record { name = codes "queue"; ty = array (int U8) count; addr = addr; norace = false; taken = false } ∷ [])) }
{
    let bytes = bytes_object(alloc, count, addr)?;
    grow(alloc, objects, bytes)
}
