//! Code to an image: places, vectors, and the bounds of code, data and stack.

ghost use Rattle.std.specs.Prelude.{◌≡◌, IfOk, IfErr};
ghost use Rattle.msp_layout.specs.Laid.{IsGoodCode, IsPlaced, FitsRam, HasCause};

use crate::image::{code_bytes, entries_of, form_all, vectors_of, words_of_all};
use crate::stack::stack_bytes;
use msp_isa::{CodeFn, Image};
use nm_base::{CODE_BYTES, Fault, RAM_BYTES, Room};
use std::alloc::Global;

/// Lays functions out behind one another, from 0x4000 on. A jump has one word where it reaches its label, and else a longer
/// form. Vectors 0 to 7 lead to the functions of `lines`, all others to `reset`. `ram` is the bytes of data; the image's
/// `stack` is the greatest sum of frames, and of two bytes for each call, along a path of calls from `reset`, plus the
/// greatest such sum from one of `lines`.
///
/// Errors: `TooLarge(Code, need)` where the code has more than 49,120 bytes; else `TooLarge(Ram, need)` where data and
/// stack have more than 10,240; `NoMemory`. A `need` of more than 32 bits is told as the last number of 32 bits.
pub fn layout(
    alloc: Global,
    code: &[CodeFn],
    lines: &[u32; 8],
    reset: u32,
    ram: u32,
) -> Result<Image, Fault>
    requires { IsGoodCode code.now lines.now reset }
    ensures placed { IfOk result (λ i. IsPlaced code.now lines.now reset i.code.items i.vectors) }
    ensures data { IfOk result (λ i. i.ram ≡ ram) }
    ensures stack { IfOk result (λ i. FitsRam code.now lines.now reset ram i.stack) }
    ensures cause { IfErr result (λ e. HasCause code.now lines.now reset ram e) }
{
    let forms = form_all(alloc, code)?;
    let bytes = code_bytes(&forms);
    if bytes > CODE_BYTES {
        return Err(Fault::TooLarge(Room::Code, bytes));
    }
    let stack = stack_bytes(alloc, code, lines, reset)?;
    let need = ram.saturating_add(stack);
    if need > RAM_BYTES {
        return Err(Fault::TooLarge(Room::Ram, need));
    }
    let entries = entries_of(alloc, &forms)?;
    let words = words_of_all(alloc, code, &forms, &entries)?;
    let vectors = vectors_of(&entries, lines, reset);
    Ok(Image {
        code: words,
        vectors,
        ram,
        stack,
    })
}
