//! From a program to its image.

ghost use Rattle.std.specs.Prelude.{◌≡◌, ◌*◌, Err, IfOk, IfErr, length};
ghost use Rattle.nesc_core.specs.View.{program_of};
ghost use Rattle.msp_isa.specs.Image.{IsImage};
ghost use Rattle.msp_layout.specs.Bytes.{HasBytes};
ghost use Rattle.msp_layout.specs.Laid.{FitsRam, HasCause};
ghost use Rattle.program_image.specs.Order.{lines_of, reset_place};
ghost use Rattle.image_code.specs.Code.{code_of, data_bytes};
ghost use Rattle.image_code.specs.Laws.{CanBeChecked, IsCompilable, RunsProgram};
ghost use Rattle.lower_stmt.specs.Bodies.{lowered};

use crate::code::code_of;
use crate::data::data_bytes;
use crate::numbers::{are_countable, lines_from, reset_place};
use image_code::{code_can_be_laid, laid_code_runs};
use msp_isa::Image;
use msp_layout::layout;
use nesc_core::Program;
use nm_base::Fault;
use std::alloc::Global;

/// The image of a program without tasks. The mote with this image does what the program does, at its pace and within the image's
/// `stack`: on every board whose registers hold words, with every schedule of words, after every number of slots. `ram` is the bytes
/// of its objects, an even number.
///
/// Errors: `TooLarge(Code, need)` exactly where the code has more than 49,120 bytes; else `TooLarge(Ram, need)` exactly where data and
/// stack have more than 10,240; `NoMemory`, also where one function has 2^28 items or a check 2^24 runs.
pub fn build(alloc: Global, p: &Program) -> Result<Image, Fault>
    requires { IsCompilable (program_of p.now) }
    ensures image { IfOk result (λ i. IsImage i.code.items i.vectors) }
    ensures runs { IfOk result (λ i. RunsProgram (program_of p.now) i.code.items i.vectors i.stack) }
    ensures bytes { IfOk result (λ i. HasBytes (code_of (program_of p.now)) (2 * length i.code.items)) }
    ensures data { IfOk result (λ i. i.ram ≡ data_bytes (program_of p.now)) }
    ensures stack { IfOk result (λ i. FitsRam (code_of (program_of p.now)) (lines_of (program_of p.now)) (reset_place (program_of p.now)) i.ram i.stack) }
    ensures checked { (result ≡ Err Fault.NoMemory → ⊥) → CanBeChecked (lowered (program_of p.now)).checks }
    ensures cause { IfErr result (λ e. HasCause (code_of (program_of p.now)) (lines_of (program_of p.now)) (reset_place (program_of p.now)) (data_bytes (program_of p.now)) e) }
{
    code_can_be_laid();
    laid_code_runs();
    let code = code_of(alloc, p)?;
    if !are_countable(&code) {
        return Err(Fault::NoMemory);
    }
    let ram = data_bytes(alloc, p)?;
    let reset = reset_place(&code);
    layout(alloc, &code, &lines_from(reset + 1), reset, ram)
}
