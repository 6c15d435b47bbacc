//! From a wired program to its image.

ghost use Rattle.std.specs.Prelude.{◌≡◌, ◌*◌, Err, [], IfOk, IfErr, length, true, false};
ghost use Rattle.nesc_core.specs.Calls.{HasNoCycle};
ghost use Rattle.nesc_core.specs.View.{program_of};
ghost use Rattle.nesc_core.specs.WellFormed.{IsWellFormed};
ghost use Rattle.msp_isa.specs.Image.{IsImage};
ghost use Rattle.msp_layout.specs.Bytes.{HasBytes};
ghost use Rattle.msp_layout.specs.Laid.{FitsRam};
ghost use Rattle.image_code.specs.Laws.{CanBeChecked, RunsProgram};
ghost use Rattle.program_builder.specs.Built.{IsCause, IsCompilable, code_of, data_bytes, lines_of, middle_of, reset_place};

use crate::taskless::build_plain;
use crate::tasks::build_tasks;
use msp_isa::Image;
use nesc_core::Program;
use nm_base::Fault;
use std::alloc::Global;

fn has_tasks(p: &Program) -> bool
    ensures some { result ≡ true → (program_of p.now).tasks ≡ [] → ⊥ }
    ensures none { result ≡ false → (program_of p.now).tasks ≡ [] }
{
    !p.tasks.as_slice().is_empty()
}

/// The image of a program. The mote with this image does what the program does, at its pace and within the image's `stack`: on every board whose
/// registers hold words, with every schedule of words, after every number of slots. `ram` is the bytes of its data, an even number.
///
/// Errors: `TooLarge(Code, need)` exactly where the code has more than 49,120 bytes; else `TooLarge(Ram, need)` exactly where data and stack have
/// more than 10,240; `NoMemory`, also for what no program of elaboration has: too many nodes or cases, 2^28 items in one function, 2^24 runs in a
/// check, or past the limits of a kernel.
pub fn build(alloc: Global, p: Program) -> Result<Image, Fault>
    requires formed { IsWellFormed (program_of p) }
    requires no_cycle { HasNoCycle (program_of p) }
    ensures image { IfOk result (λ i. IsImage i.code.items i.vectors) }
    ensures runs { IfOk result (λ i. RunsProgram (program_of p) i.code.items i.vectors i.stack) }
    ensures bytes { IfOk result (λ i. HasBytes (code_of (program_of p)) (2 * length i.code.items)) }
    ensures data { IfOk result (λ i. i.ram ≡ data_bytes (program_of p)) }
    ensures stack { IfOk result (λ i. FitsRam (code_of (program_of p)) (lines_of (program_of p)) (reset_place (program_of p)) i.ram i.stack) }
    ensures compilable { (result ≡ Err Fault.NoMemory → ⊥) → IsCompilable (program_of p) }
    ensures checked { (result ≡ Err Fault.NoMemory → ⊥) → CanBeChecked (middle_of (program_of p)).checks }
    ensures cause { IfErr result (λ e. IsCause (program_of p) e) }
{
    if has_tasks(&p) {
        return build_tasks(alloc, p);
    }
    build_plain(alloc, &p)
}
