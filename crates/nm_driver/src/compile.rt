//! From the wired program of an application to its image.

ghost use Rattle.std.specs.Prelude.{ℕ, List, IfOk, IfErr};
ghost use Rattle.nesc_core.specs.Calls.{HasNoCycle};
ghost use Rattle.nesc_core.specs.View.{program_of};
ghost use Rattle.nesc_core.specs.WellFormed.{IsWellFormed};
ghost use Rattle.nm_words.specs.declared.mode.Mode.{Mode};
ghost use Rattle.nm_driver.specs.Applications.{Builds, CanBeBuilt, IsAccepted, IsUnbuilt};
ghost use Rattle.nm_driver.specs.MeetsProgram.{MeetsProgram};
ghost use Rattle.nm_driver.specs.Prepared.{IfSays, SaysOfProgram};

use crate::answer::Stop;
use crate::faults::unbuilt;
use compilable_programs::laid_images_have_room;
use msp_isa::Image;
use nesc_core::Program;
use nesc_programs::Application;
use nm_base::Fault;
use program_builder::{
    build, code_is_within_weight, memory_is_within_weights, stack_is_within_weight,
};
use std::alloc::Global;

// The image of a program without a cycle of calls.
fn image_of(alloc: Global, p: Program) -> Result<Image, Fault>
    requires formed { IsWellFormed (program_of p) }
    requires no_cycle { HasNoCycle (program_of p) }
    ensures meets { IfOk result (λ i. MeetsProgram (program_of p) i.code.items i.vectors i.ram i.stack) }
    ensures builds { IfOk result (λ _. CanBeBuilt (program_of p)) }
    ensures unbuilt { IfErr result (λ e. IsUnbuilt (program_of p) e) }
{
    laid_images_have_room();
    code_is_within_weight();
    stack_is_within_weight();
    memory_is_within_weights();
    build(alloc, p)
}

/// The image of an application's program. Refuses what is too large.
pub(crate) fn compile(alloc: Global, a: Application) -> Result<Image, Stop>
    requires formed { IsWellFormed (program_of a.program) }
    requires accepted { IsAccepted (program_of a.program) }
    ensures meets { IfOk result (λ i. MeetsProgram (program_of a.program) i.code.items i.vectors i.ram i.stack) }
    ensures builds { IfOk result (λ _. CanBeBuilt (program_of a.program)) }
    ensures says { IfErr result (λ s. IfSays s (λ answer. (app : List ℕ) (mode : Mode) → Builds mode → SaysOfProgram mode app a answer)) }
{
    match image_of(alloc, a.program) {
        Ok(image) => Ok(image),
        Err(fault) => Err(unbuilt(fault)),
    }
}
