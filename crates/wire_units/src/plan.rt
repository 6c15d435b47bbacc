//! What creation sees of files.

ghost use Rattle.std.specs.Prelude.{◌≡◌, IfOk};
ghost use Rattle.wire_units.specs.Plans.{count_of, head_plan, plan_of, plans_of};

use crate::head::head_refusal;
use crate::line::lines_of;
use crate::loaded::{Loaded, head_of, lines_in};
use crate::table::Table;
use nesc_tree::{ConfLine, GenericParam, Head};
use nm_base::{List, NoMemory, Pos};
use std::alloc::Global;
use wire_instances::Plan;

fn count_of(params: &Option<List<GenericParam>>) -> Option<usize>
    ensures { result ≡ count_of params.now }
{
    match params {
        Some(params) => Some(params.as_slice().len()),
        None => None,
    }
}

fn head_plan(
    alloc: Global,
    table: &Table,
    at: Pos,
    lines: &[ConfLine],
    head: &Head,
) -> Result<Plan, NoMemory>
    ensures { IfOk result (λ plan. plan ≡ head_plan table.now.units.now at lines.now head.now) }
{
    let refused = head_refusal(alloc, table, at, head)?;
    let lines = List::new(lines_of(alloc, table, lines)?);
    Ok(Plan {
        generic: count_of(&head.generic),
        refused,
        lines,
    })
}

fn plan_of(alloc: Global, table: &Table, loaded: &Loaded) -> Result<Plan, NoMemory>
    ensures { IfOk result (λ plan. plan ≡ plan_of table.now.units.now loaded.now) }
{
    match head_of(&loaded.unit.part) {
        Some(head) => head_plan(alloc, table, loaded.at, lines_in(&loaded.unit.part), head),
        None => Ok(Plan {
            generic: None,
            refused: None,
            lines: List::new(Vec::new(alloc)),
        }),
    }
}

/// What creation sees of these files, in their order.
#[tactic(auto, using(crate::proofs::Lists::plans))]
pub fn plans_of(alloc: Global, units: &[Loaded]) -> Result<Vec<Plan>, NoMemory>
    ensures { IfOk result (λ plans. plans.items ≡ plans_of units.now) }
{
    let table = Table::new(alloc, units)?;
    let mut plans = Vec::new(alloc);
    for loaded in units {
        plans.push(plan_of(alloc, &table, loaded)?)?;
    }
    Ok(plans)
}
