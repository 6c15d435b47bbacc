//! Copies of types.

ghost use Rattle.std.specs.Prelude.{◌≡◌, map, IfOk};
ghost use Rattle.nesc_core.specs.View.{type_of};

use nesc_core::CoreType;
use nm_base::NoMemory;
use std::alloc::Global;

#[cycle(copies)]
pub(crate) fn copied(alloc: Global, t: &CoreType) -> Result<CoreType, NoMemory>
    ensures { IfOk result (λ r. type_of r ≡ type_of t.now) }
{
    match t {
        CoreType::Void => Ok(CoreType::Void),
        CoreType::Int(width) => Ok(CoreType::Int(*width)),
        CoreType::Pointer(to) => Ok(CoreType::Pointer(copied_boxed(alloc, to)?)),
        CoreType::Array(of, count) => Ok(CoreType::Array(copied_boxed(alloc, of)?, *count)),
        CoreType::Struct(number) => Ok(CoreType::Struct(*number)),
    }
}

#[cycle(copies)]
fn copied_boxed(alloc: Global, t: &Box<CoreType>) -> Result<Box<CoreType>, NoMemory>
    ensures { IfOk result (λ r. type_of r.value ≡ type_of t.now.value) }
{
    Ok(Box::new(alloc, copied(alloc, t)?)?)
}

pub(crate) fn copied_all(alloc: Global, types: &[CoreType]) -> Result<Vec<CoreType>, NoMemory>
    ensures { IfOk result (λ v. map type_of v.items ≡ map type_of types.now) }
{
    let mut copies = Vec::new(alloc);
    for t in types {
        copies.push(copied(alloc, t)?)?;
    }
    Ok(copies)
}
