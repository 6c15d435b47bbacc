//! The image of a program without tasks.

ghost use Rattle.std.specs.Prelude.{◌≡◌, ◌*◌, Err, [], IfOk, IfErr, length};
ghost use Rattle.nesc_core.specs.Calls.{HasNoCycle};
ghost use Rattle.nesc_core.specs.View.{program_of};
ghost use Rattle.nesc_core.specs.WellFormed.{IsWellFormed};
ghost use Rattle.msp_isa.specs.Image.{IsImage};
ghost use Rattle.lower_stmt.specs.Bodies.{lowered};
ghost use Rattle.lean_pace.specs.Lean.{IsLean};
ghost use Rattle.msp_layout.specs.Bytes.{HasBytes};
ghost use Rattle.msp_layout.specs.Laid.{FitsRam, HasCause};
ghost use Rattle.program_image.specs.Order.{lines_of, reset_place};
ghost use Rattle.image_code.specs.Code.{code_of, data_bytes};
ghost use Rattle.image_code.specs.Laws.{CanBeChecked, IsCompilable, RunsProgram};

use compilable_programs::is_compilable;
use image_builder::build;
use msp_isa::Image;
use nesc_core::Program;
use nm_base::Fault;
use std::alloc::Global;

/// The image of a program without tasks.
pub(crate) fn build_plain(alloc: Global, p: &Program) -> Result<Image, Fault>
    requires formed { IsWellFormed (program_of p.now) }
    requires no_cycle { HasNoCycle (program_of p.now) }
    requires no_tasks { (program_of p.now).tasks ≡ [] }
    ensures image { IfOk result (λ i. IsImage i.code.items i.vectors) }
    ensures runs { IfOk result (λ i. RunsProgram (program_of p.now) i.code.items i.vectors i.stack) }
    ensures bytes { IfOk result (λ i. HasBytes (code_of (program_of p.now)) (2 * length i.code.items)) }
    ensures data { IfOk result (λ i. i.ram ≡ data_bytes (program_of p.now)) }
    ensures stack { IfOk result (λ i. FitsRam (code_of (program_of p.now)) (lines_of (program_of p.now)) (reset_place (program_of p.now)) i.ram i.stack) }
    ensures compilable { (result ≡ Err Fault.NoMemory → ⊥) → IsCompilable (program_of p.now) }
    ensures lean { (result ≡ Err Fault.NoMemory → ⊥) → IsLean (program_of p.now) }
    ensures checked { (result ≡ Err Fault.NoMemory → ⊥) → CanBeChecked (lowered (program_of p.now)).checks }
    ensures cause { IfErr result (λ e. HasCause (code_of (program_of p.now)) (lines_of (program_of p.now)) (reset_place (program_of p.now)) (data_bytes (program_of p.now)) e) }
{
    if !is_compilable(p) {
        return Err(Fault::NoMemory);
    }
    build(alloc, p)
}
