//! The numbers of functions in the code of an image.

ghost use Rattle.std.specs.Prelude.{◌≡◌, ◌+◌, ◌<◌, ◌≤◌, ◌^◌, length, true};
ghost use Rattle.std.specs.List.{range_with_len};
ghost use Rattle.image_code.specs.Code.{IsCountable};

use msp_isa::CodeFn;

/// The functions of reset and of the eight lines, which stand last.
const PIECES: usize = 9;

/// The fewest items of a function whose bytes 32 bits do not count.
const MOST_ITEMS: usize = 1 << 28;

/// Whether 32 bits count the bytes of each function, whatever its jumps take.
pub fn are_countable(code: &[CodeFn]) -> bool
    ensures { result ≡ true → IsCountable code.now }
{
    code.iter()
        .all(|function| function.items.as_slice().len() < MOST_ITEMS)
}

/// The place of the code of reset, behind which those of the lines stand alone.
pub fn reset_place(code: &[CodeFn]) -> u32
    requires some { 9 ≤ length code.now }
    requires few { length code.now < 2 ^ 32 }
    ensures { result + 9 ≡ length code.now }
{
    (code.len() - PIECES) as u32
}

/// The places of the code of the lines, from the first on.
pub fn lines_from(first: u32) -> [u32; 8]
    requires { first + 8 < 2 ^ 32 }
    ensures { result ≡ range_with_len first 8 }
{
    [
        first,
        first + 1,
        first + 2,
        first + 3,
        first + 4,
        first + 5,
        first + 6,
        first + 7,
    ]
}
