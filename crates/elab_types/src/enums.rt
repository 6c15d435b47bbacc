//! Constants of enums.

ghost use Rattle.std.specs.Prelude.{◌≡◌};
ghost use Rattle.elab_meaning.specs.Answers.{Follows};
ghost use Rattle.elab_meaning.specs.Operators as spec;

use elab_values::bad_type;
use nesc_types::Constant;
use nm_base::{Fault, IntType, Pos};

// The first type that holds the number.
fn enum_type(n: i64) -> Option<IntType>
    ensures { result ≡ spec.enum_type n }
{
    if -32_768 <= n && n <= 32_767 {
        Some(IntType::I16)
    } else if 0 <= n && n <= 65_535 {
        Some(IntType::U16)
    } else if -2_147_483_648 <= n && n <= 2_147_483_647 {
        Some(IntType::I32)
    } else if 0 <= n && n <= 4_294_967_295 {
        Some(IntType::U32)
    } else {
        None
    }
}

/// A constant of an enum, at the first type that holds its number.
pub fn enum_constant(at: Pos, n: i64) -> Result<Constant, Fault>
    ensures { Follows (λ x. x) result (spec.enum_constant at n) }
{
    match enum_type(n) {
        None => bad_type(at),
        Some(t) => Ok((t, n)),
    }
}
