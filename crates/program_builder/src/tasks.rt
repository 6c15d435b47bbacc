//! The image of a program with tasks.

ghost use Rattle.std.specs.Prelude.{◌≡◌, ◌*◌, Err, IfOk, IfErr, length};
ghost use Rattle.nesc_core.specs.Calls.{HasNoCycle};
ghost use Rattle.nesc_core.specs.View.{program_of};
ghost use Rattle.nesc_core.specs.WellFormed.{IsWellFormed};
ghost use Rattle.task_queue.specs.Kernel.{kernel};
ghost use Rattle.msp_isa.specs.Image.{IsImage};
ghost use Rattle.lower_stmt.specs.Bodies.{lowered};
ghost use Rattle.msp_layout.specs.Bytes.{HasBytes};
ghost use Rattle.msp_layout.specs.Laid.{FitsRam, HasCause};
ghost use Rattle.image_code.specs.Laws.{CanBeChecked, RunsProgram};
ghost use Rattle.task_image.specs.Order.{lines_of, loop_place};
ghost use Rattle.task_code.specs.Code.{code_of, data_bytes};
ghost use Rattle.task_code.specs.Laws.{IsCompilable};

use crate::kernels::parts_of;
use image_builder::lines_from;
use msp_isa::Image;
use msp_layout::layout;
use nesc_core::Program;
use nm_base::Fault;
use std::alloc::Global;
use task_code::{laid_task_code_runs, task_code_can_be_laid};

/// The image of a program with tasks: the code of its kernel, with the loop of tasks from reset on.
pub(crate) fn build_tasks(alloc: Global, p: Program) -> Result<Image, Fault>
    requires formed { IsWellFormed (program_of p) }
    requires no_cycle { HasNoCycle (program_of p) }
    ensures image { IfOk result (λ i. IsImage i.code.items i.vectors) }
    ensures runs { IfOk result (λ i. RunsProgram (program_of p) i.code.items i.vectors i.stack) }
    ensures bytes { IfOk result (λ i. HasBytes (code_of (program_of p)) (2 * length i.code.items)) }
    ensures data { IfOk result (λ i. i.ram ≡ data_bytes (program_of p)) }
    ensures stack { IfOk result (λ i. FitsRam (code_of (program_of p)) (lines_of (program_of p)) (loop_place (program_of p)) i.ram i.stack) }
    ensures compilable { (result ≡ Err Fault.NoMemory → ⊥) → IsCompilable (program_of p) }
    ensures checked { (result ≡ Err Fault.NoMemory → ⊥) → CanBeChecked (lowered (kernel (program_of p)).program).checks }
    ensures cause { IfErr result (λ e. HasCause (code_of (program_of p)) (lines_of (program_of p)) (loop_place (program_of p)) (data_bytes (program_of p)) e) }
{
    task_code_can_be_laid();
    laid_task_code_runs();
    let parts = parts_of(alloc, p)?;
    let lines = lines_from(parts.reset + 1);
    layout(alloc, &parts.code, &lines, parts.reset, parts.ram)
}
