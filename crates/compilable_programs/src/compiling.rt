//! Which programs can be compiled.

ghost use Rattle.std.specs.Prelude.{◌≡◌, [], true};
ghost use Rattle.nesc_core.specs.Calls.{HasNoCycle};
ghost use Rattle.nesc_core.specs.View.{program_of};
ghost use Rattle.nesc_core.specs.WellFormed.{IsWellFormed};
ghost use Rattle.lean_pace.specs.Lean.{IsLean};
ghost use Rattle.image_code.specs.Laws.{IsCompilable};

use crate::measuring::is_lean;
use lower_form::is_short;
use nesc_core::Program;
use well_formed::has_few_nodes;

/// Whether a program without tasks and without a cycle of calls can be compiled, where it is well formed: it has few nodes and cases, and
/// no switch has more cases than statements that do anything but clear a local. It tests what `has_few_nodes` of well_formed and
/// `is_short` of lower_form do, and that no call is inlined: it is false for no program that is elaborated, where each case begins at an
/// empty statement of its own. Time is linear in the nodes, and statements are walked at most `MOST_DEPTH` of well_formed deep.
pub fn is_compilable(p: &Program) -> bool
    ensures compilable { result ≡ true → IsWellFormed (program_of p.now) → HasNoCycle (program_of p.now) → (program_of p.now).tasks ≡ [] → IsCompilable (program_of p.now) }
    ensures lean { result ≡ true → IsLean (program_of p.now) }
{
    if !has_few_nodes(p) {
        return false;
    }
    is_short(p) && is_lean(p)
}
