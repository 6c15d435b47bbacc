//! The bodies of a generated program: which parameters, locals and results they have.

use crate::sketch::TYPES;
use nm_base::IntType;

/// The number of the body that is compared, which calls those below it.
pub(crate) const COMPARED: u32 = 13;

/// How many loops stand in one another at most.
pub(crate) const MOST_LOOPS: u32 = 3;

/// The local of the compared body that is a pointer.
pub(crate) const POINTER: u32 = 6;

/// The local of the compared body that is an array.
pub(crate) const ARRAY: u32 = 7;

/// The local of the compared body that is a struct.
pub(crate) const STRUCT: u32 = 8;

/// The local of the compared body in which its outermost loops count; those inside of others count in the locals behind it.
pub(crate) const COUNTER: u32 = 9;

/// How many parameters a body has: none to five, and the compared body none.
pub(crate) fn parameters(body: u32) -> u32 {
    if body == COMPARED || body == 0 {
        0
    } else {
        (body - 1) % 6
    }
}

/// The type of a parameter of a body, or of one of the first six locals of the compared body.
pub(crate) fn local_type(body: u32, k: u32) -> IntType {
    if body == COMPARED {
        TYPES[(k % 6) as usize]
    } else {
        TYPES[((body % 6 * 5 + k % 6 * 3) % 6) as usize]
    }
}

/// How many locals of a body are numbers that expressions may name.
pub(crate) fn numbers(body: u32) -> u32 {
    if body == COMPARED {
        6
    } else {
        parameters(body)
    }
}

/// The type of what a body gives that is not compared.
pub(crate) fn result_type(body: u32) -> IntType {
    TYPES[((body % 12 + body % 12 / 7) % 6) as usize]
}
