//! What the lines of a configuration ask of creation.

ghost use Rattle.std.specs.Prelude.{◌≡◌, ◌++◌, Ok, Err, IfOk, OnOk};
ghost use Rattle.wire_instances.specs.declared.plan.Unmet.{Unmet as UnmetOf};
ghost use Rattle.wire_units.specs.Lines.{decl_in, given, asked, lines_from, lines_of};

use crate::block::Block;
use crate::table::Table;
use crate::types::declare_type;
use nesc_tree::{ConfLine, Decl, GenericArg};
use nm_base::{List, Name, NoMemory, Pos};
use std::alloc::Global;
use wire_instances::{Line, Stop, Unmet};

fn declare_in(alloc: Global, block: &mut Block, decl: &Decl) -> Result<(), Stop>
    ensures declared { OnOk result (decl_in decl.now block.old ≡ Ok block.new) }
    ensures refused { (unmet : UnmetOf) → result ≡ Err (Stop.Unmet unmet) → decl_in decl.now block.old ≡ Err unmet }
{
    match decl {
        Decl::Typedef { name, ty, pos, .. } => {
            declare_type(alloc, block, ty, *pos)?;
            block.name(name, *pos)
        }
        Decl::TypeOnly(ty, pos) => declare_type(alloc, block, ty, *pos),
        Decl::Vars(_) | Decl::Func { .. } => Ok(()),
    }
}

fn given(args: &Option<List<GenericArg>>) -> Option<usize>
    ensures { result ≡ given args.now }
{
    match args {
        Some(args) => Some(args.as_slice().len()),
        None => None,
    }
}

fn asked(alloc: Global, table: &Table, block: &mut Block, line: &ConfLine) -> Result<Line, Stop>
    ensures asked { IfOk result (λ asks. asked table.now.units.now block.old line.now ≡ Ok (asks, block.new)) }
    ensures refused { (unmet : UnmetOf) → result ≡ Err (Stop.Unmet unmet) → asked table.now.units.now block.old line.now ≡ Err unmet }
{
    match line {
        ConfLine::Component {
            name,
            new_args,
            alias,
            pos,
        } => {
            let Some(component) = table.component(name) else {
                return Err(Stop::Unmet(Unmet::UnknownName(*pos)));
            };
            block.name(alias, *pos)?;
            Ok(Line::Names {
                component,
                given: given(new_args),
                pos: *pos,
            })
        }
        ConfLine::Link { .. } | ConfLine::Equate { .. } => Ok(Line::Nothing),
        ConfLine::Decl(decl) => {
            declare_in(alloc, block, decl)?;
            Ok(Line::Nothing)
        }
    }
}

// Adds what these lines ask of creation, up to the first that is refused.
#[tactic(auto, using(crate::proofs::Lists::lines))]
fn ask(
    alloc: Global,
    table: &Table,
    block: &mut Block,
    lines: &[ConfLine],
    asks: &mut Vec<Line>,
) -> Result<(), NoMemory>
    ensures { OnOk result (asks.new.items ≡ asks.old.items ++ lines_from table.now.units.now block.old lines.now) }
{
    for line in lines {
        match asked(alloc, table, block, line) {
            Ok(asks_for) => asks.push(asks_for)?,
            Err(Stop::Unmet(unmet)) => {
                asks.push(Line::Refused(unmet))?;
                return Ok(());
            }
            Err(Stop::Instances | Stop::NoMemory) => return Err(NoMemory),
        }
    }
    Ok(())
}

/// What the lines of a configuration ask of creation, up to the first that is refused.
pub fn lines_of(alloc: Global, table: &Table, lines: &[ConfLine]) -> Result<Vec<Line>, NoMemory>
    ensures { IfOk result (λ asks. asks.items ≡ lines_of table.now.units.now lines.now) }
{
    let mut block = Block::new(alloc);
    let mut asks = Vec::new(alloc);
    ask(alloc, table, &mut block, lines, &mut asks)?;
    Ok(asks)
}
