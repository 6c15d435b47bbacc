//! The report of a program.

ghost use Rattle.std.specs.Prelude.{◌≡◌, ◌<◌, ◌≤◌, ◌^◌, IfErr, IfOk, length};
ghost use Rattle.nesc_core.specs.Size.{AreSized};
ghost use Rattle.nesc_core.specs.View.{program_of, structs_of};
ghost use Rattle.call_graph.specs.Graph.{IsCounted, IsGraph};
ghost use Rattle.race_checker.specs.Computed.{report_of};
ghost use Rattle.race_report.specs.Known.{IsKnown};
ghost use Rattle.race_report.specs.Limit.{IsUpToLimit, IsWhy};
ghost use Rattle.race_report.specs.Sites.{IsByObject};

use crate::bodies::sources;
use crate::rows::all_rows;
use crate::sources::Sources;
use call_graph::CallGraph;
use nesc_core::Program;
use nm_base::{Fault, Limit, MAX_ROWS, NoMemory, Which};
use race_checker::Row;
use std::alloc::Global;

/// The race report of a program, given the graph of its calls: the rows by object, body and node. A program with more rows
/// than `MAX_ROWS` is refused by the limit `Rows`.
///
/// Each body is walked once. The least chains to all bodies are found by one search from the boot body and the tasks and one from
/// the handlers, and those of a row are read off in time linear in their length. Each access is looked at once for what handlers
/// touch and once for its rows, which are sorted by object at the end. A type to which pointers are followed is tried for every
/// object and compared with that of each access through a pointer, so the time is linear only while these types are few.
pub fn report(alloc: Global, p: &Program, g: &CallGraph) -> Result<Vec<Row>, Fault>
    requires counted { IsCounted (program_of p.now) }
    requires graph { IsGraph (program_of p.now) g.now }
    requires sized { AreSized (structs_of p.now.structs) }
    requires objects { length p.now.objects < 2 ^ 32 }
    ensures rows { IfOk result (λ rows. rows.items ≡ report_of (program_of p.now)) }
    ensures few { IfOk result (λ rows. length rows.items ≤ 10000) }
    ensures refused { IfErr result (λ e. IsWhy (program_of p.now) e) }
{
    let s = sources(alloc, p, g)?;
    let rows = rows_of(alloc, &s)?;
    if rows.len() > MAX_ROWS as usize {
        return Err(Fault::Limit(Limit {
            which: Which::Rows,
            have: MAX_ROWS + 1,
        }));
    }
    Ok(rows)
}

// The rows by object, up to one past the limit.
fn rows_of(alloc: Global, s: &Sources) -> Result<Vec<Row>, NoMemory>
    requires known { IsKnown s.now }
    requires objects { length s.now.p.now.objects < 2 ^ 32 }
    ensures { IfOk result (λ rows. IsUpToLimit (report_of (program_of s.now.p.now)) rows.items) }
{
    let mut rows = all_rows(alloc, s)?;
    arrange(&mut rows)?;
    Ok(rows)
}

fn arrange(rows: &mut Vec<Row>) -> Result<(), NoMemory>
    ensures { IfOk result (λ _. IsByObject rows.old.items rows.new.items) }
{
    rows.sort_by_key(|row| row.object)?;
    Ok(())
}
