//! The integer promotions and the usual arithmetic conversions.

ghost use Rattle.std.specs.Prelude.{◌≡◌};
ghost use Rattle.nesc_types.specs.Conversions as spec;

use nm_base::IntType;

/// The type that a number of this type is promoted to (C99, 6.3.1.1).
pub fn promoted(t: IntType) -> IntType
    ensures { result ≡ spec.promoted t }
{
    match t {
        IntType::I8 | IntType::U8 | IntType::I16 => IntType::I16,
        IntType::U16 => IntType::U16,
        IntType::I32 => IntType::I32,
        IntType::U32 => IntType::U32,
    }
}

fn rank(t: IntType) -> u8
    ensures { result ≡ spec.rank t }
{
    match t {
        IntType::I8 => 0,
        IntType::U8 => 1,
        IntType::I16 => 2,
        IntType::U16 => 3,
        IntType::I32 => 4,
        IntType::U32 => 5,
    }
}

// Of two promoted types.
fn higher(a: IntType, b: IntType) -> IntType
    ensures { result ≡ spec.higher a b }
{
    if rank(a) <= rank(b) { b } else { a }
}

/// The type that two numbers of these types are converted to (C99, 6.3.1.8).
pub fn common(a: IntType, b: IntType) -> IntType
    ensures { result ≡ spec.common a b }
{
    higher(promoted(a), promoted(b))
}
