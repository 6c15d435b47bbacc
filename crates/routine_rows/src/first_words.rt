//! The words that begin an instruction.

use msp_isa::{Decoded, decode};

/// How many words begin an instruction, and how many begin none, whatever words follow.
pub fn first_words() -> (u32, u32) {
    let mut legal: u32 = 0;
    let mut illegal: u32 = 0;
    for first in 0..=u16::MAX {
        match decode(&[first, 0, 0]) {
            Decoded::Is(..) => legal = legal.wrapping_add(1),
            Decoded::Illegal => illegal = illegal.wrapping_add(1),
            Decoded::Short => {}
        }
    }
    (legal, illegal)
}
