//! The types and numbers of literals.

ghost use Rattle.std.specs.Prelude.{◌≡◌, ◌||◌, int_le, nat_eq, pos};
ghost use Rattle.std.specs.List.{list_any};
ghost use Rattle.nm_base.specs.IntType as int_type;
ghost use Rattle.nesc_types.specs.Literals as spec;

use crate::values::Constant;
use nesc_conditions::literals;
use nm_base::IntType;

// The types that a literal may have, of which it has the first that holds its number (C99, 6.4.4.1).
fn candidates(decimal: bool, unsigned: bool, long: bool) -> &'static [IntType]
    ensures { result.now ≡ spec.candidates decimal unsigned long }
{
    match (decimal, unsigned, long) {
        (true, false, false) => &[IntType::I16, IntType::I32],
        (true, false, true) => &[IntType::I32],
        (false, false, false) => &[IntType::I16, IntType::U16, IntType::I32, IntType::U32],
        (false, false, true) => &[IntType::I32, IntType::U32],
        (true, true, false) | (false, true, false) => &[IntType::U16, IntType::U32],
        (true, true, true) | (false, true, true) => &[IntType::U32],
    }
}

fn greatest(t: IntType) -> i64
    ensures { result ≡ int_type.greatest t }
{
    match t {
        IntType::I8 => 127,
        IntType::U8 => 255,
        IntType::I16 => 32_767,
        IntType::U16 => 65_535,
        IntType::I32 => 2_147_483_647,
        IntType::U32 => 4_294_967_295,
    }
}

fn holds(t: IntType, n: u32) -> bool
    ensures { result ≡ int_le (pos n) (int_type.greatest t) }
{
    i64::from(n) <= greatest(t)
}

fn first_holding(n: u32, types: &[IntType]) -> Option<IntType>
    ensures { result ≡ spec.first_holding n types.now }
{
    for t in types {
        if holds(*t, n) {
            return Some(*t);
        }
    }
    None
}

fn is_unsigned(text: &[u8]) -> bool
    ensures { result ≡ spec.is_unsigned text.now }
{
    text.contains(&b'u') || text.contains(&b'U')
}

fn is_long(text: &[u8]) -> bool
    ensures { result ≡ spec.is_long text.now }
{
    text.contains(&b'l') || text.contains(&b'L')
}

// None where the number has more than 32 bits.
fn short(n: Option<u128>) -> Option<u32>
    ensures { result ≡ spec.short n }
{
    match n {
        None => None,
        Some(n) => within_32_bits(n),
    }
}

fn within_32_bits(n: u128) -> Option<u32>
    ensures { result ≡ spec.within_32_bits n }
{
    if n <= 4_294_967_295 {
        Some(n as u32)
    } else {
        None
    }
}

fn typed(n: u32, t: Option<IntType>) -> Option<Constant>
    ensures { result ≡ spec.typed n t }
{
    match t {
        None => None,
        Some(t) => Some((t, i64::from(n))),
    }
}

fn of_types(n: Option<u32>, types: &[IntType]) -> Option<Constant>
    ensures { result ≡ spec.of_types n types.now }
{
    match n {
        None => None,
        Some(n) => typed(n, first_holding(n, types)),
    }
}

/// The type and the number of a number's literal; None where no type holds it.
pub fn number(text: &[u8]) -> Option<Constant>
    ensures { result ≡ spec.number text.now }
{
    let (radix, bytes) = literals::radix(text);
    let n = short(literals::digits(radix, bytes));
    of_types(n, candidates(radix == 10, is_unsigned(text), is_long(text)))
}

/// The type and the number of a character's literal; None where the text is none.
pub fn character(text: &[u8]) -> Option<Constant>
    ensures { result ≡ spec.character text.now }
{
    match literals::character(text) {
        None => None,
        Some(value) => Some((IntType::I16, value)),
    }
}
