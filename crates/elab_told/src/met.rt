//! Numbers of structs in types that wires name.

ghost use Rattle.std.specs.Prelude.{◌≡◌, ◌+◌, IfOk};
ghost use Rattle.nesc_core.specs.View.{type_of};
ghost use Rattle.program_meaning.specs.Modules as spec;
ghost use Rattle.elab_told.specs.View.{met_of};

use nesc_core::CoreType;
use nm_base::NoMemory;
use std::alloc::Global;

/// Which structs the types in wires name: the numbers of those that headers declare outside functions, and the number of the first behind all
/// of headers.
#[derive(Drop)]
pub struct Met {
    pub headers: Vec<u32>,
    pub behind: u32,
}

// The number so many places behind those of headers; one that is no u32 finds no memory.
fn number_behind(met: &Met, place: usize) -> Result<u32, NoMemory>
    ensures { IfOk result (λ n. n ≡ met.now.behind + place) }
{
    let Ok(place) = u32::try_from(place) else {
        return Err(NoMemory);
    };
    met.behind.checked_add(place).ok_or(NoMemory)
}

// The number in the program of a struct that wires name by this number.
fn number_of(met: &Met, number: u32) -> Result<u32, NoMemory>
    ensures { IfOk result (λ n. n ≡ spec.number_of (met_of met.now) number) }
{
    let place = number as usize;
    let headers = met.headers.as_slice();
    match headers.get(place) {
        Some(number) => Ok(*number),
        None => number_behind(met, place.saturating_sub(headers.len())),
    }
}

/// The type with the numbers that its structs have in the program. It recurses as deep as the type, as copies of types do.
pub(crate) fn type_as(alloc: Global, met: &Met, t: &CoreType) -> Result<CoreType, NoMemory>
    ensures { IfOk result (λ r. type_of r ≡ spec.type_as (met_of met.now) (type_of t.now)) }
{
    Ok(match t {
        CoreType::Void => CoreType::Void,
        CoreType::Int(int) => CoreType::Int(*int),
        CoreType::Pointer(part) => CoreType::Pointer(Box::new(alloc, type_as(alloc, met, part)?)?),
        CoreType::Array(part, n) => {
            CoreType::Array(Box::new(alloc, type_as(alloc, met, part)?)?, *n)
        }
        CoreType::Struct(number) => CoreType::Struct(number_of(met, *number)?),
    })
}
