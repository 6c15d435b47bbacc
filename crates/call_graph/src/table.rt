//! The bodies that each body calls.

ghost use Rattle.std.specs.Prelude.{◌≡◌, ◌<◌, IfOk, map, length, option_to_list};
ghost use Rattle.std.specs.List.{flat_map};
ghost use Rattle.nesc_core.specs.View.{program_of};
ghost use Rattle.call_graph.specs.Graph.{IsCounted, called, callees_by, row_at};
ghost use Rattle.call_graph.specs.View.{use_of};

use crate::uses::{Use, uses_in};
use nesc_core::Program;
use nm_base::{List, NoMemory};
use std::alloc::Global;

/// The bodies that each body calls, by body, in the order of its nodes; where `is_bare` holds, those alone that it calls
/// outside every atomic statement.
#[tactic(auto, using(crate::proofs::Tables::bodies))]
pub fn callees(alloc: Global, p: &Program, is_bare: bool) -> Result<Vec<List<u32>>, NoMemory>
    requires { IsCounted (program_of p.now) }
    ensures rows { IfOk result (λ t. row_at t.items ≡ callees_by is_bare (program_of p.now)) }
    ensures size { IfOk result (λ t. length t.items ≡ length p.now.bodies) }
{
    let mut table = Vec::new(alloc);
    for body in p.bodies.as_slice() {
        let uses = uses_in(alloc, &body.code)?;
        table.push(List::new(called_in(alloc, &uses, is_bare)?))?;
    }
    Ok(table)
}

#[tactic(auto, using(crate::proofs::Tables::steps))]
fn called_in(alloc: Global, uses: &[Use], is_bare: bool) -> Result<Vec<u32>, NoMemory>
    ensures { IfOk result (λ v. v.items ≡ flat_map (called is_bare) (map use_of uses.now)) }
{
    let mut bodies = Vec::new(alloc);
    for u in uses {
        if let Some(callee) = callee_of(u, is_bare) {
            bodies.push(callee)?;
        }
    }
    Ok(bodies)
}

fn callee_of(u: &Use, is_bare: bool) -> Option<u32>
    ensures { option_to_list result ≡ called is_bare (use_of u.now) }
{
    match *u {
        Use::Access { .. } => None,
        Use::Call {
            is_inside,
            callee,
            ..
        } => {
            if is_bare && is_inside {
                None
            } else {
                Some(callee)
            }
        }
    }
}

/// Row `f` of the table; none where there is no such row.
pub fn row(table: &[List<u32>], f: u32) -> &[u32]
    ensures { result.now ≡ row_at table.now f }
{
    match table.get(f as usize) {
        Some(bodies) => bodies.as_slice(),
        None => &[],
    }
}
