//! Which programs are counted in 32 bits.

ghost use Rattle.std.specs.Prelude.{◌≡◌, ◌<◌, ◌^◌, length, true};
ghost use Rattle.nesc_core.specs.Size.{AreSized};
ghost use Rattle.nesc_core.specs.View.{program_of, structs_of};
ghost use Rattle.nesc_core.specs.WellFormed.{IsWellFormed};
ghost use Rattle.call_graph.specs.Graph.{IsCounted};

use nesc_core::Program;
use well_formed::has_few_nodes;

// Whether each of so many has a number of 32 bits.
fn are_few(count: usize) -> bool
    ensures { result ≡ true → count < 2 ^ 32 }
{
    count <= u32::MAX as usize
}

/// Whether bodies, nodes and objects of a well-formed program are numbers of 32 bits, as the graph of its calls and its race report
/// take them. It tests what `has_few_nodes` of well_formed does, and how many bodies and objects there are: it is false for no program
/// that is elaborated. Time is linear in the nodes.
pub fn is_counted(p: &Program) -> bool
    ensures counted { result ≡ true → IsWellFormed (program_of p.now) → IsCounted (program_of p.now) }
    ensures objects { result ≡ true → length p.now.objects < 2 ^ 32 }
    ensures sized { IsWellFormed (program_of p.now) → AreSized (structs_of p.now.structs) }
{
    if !has_few_nodes(p) {
        return false;
    }
    are_few(p.bodies.as_slice().len()) && are_few(p.objects.as_slice().len())
}
