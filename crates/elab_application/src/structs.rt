//! What the headers declare, and the structs that were met behind them where types stand in wires.

ghost use Rattle.std.specs.Prelude.{◌≡◌, IfOk, drop, map};
ghost use Rattle.elab_meaning.specs.View.{state_of, struct_of};
ghost use Rattle.wire_facts.specs.Seen.{start};
ghost use Rattle.wire_told.specs.View.{application_of, sight_of};
ghost use Rattle.elab_application.specs.Given as spec;

use elab_meaning::{Struct, Work};
use nm_base::NoMemory;
use std::alloc::Global;
use wire_elements::headers_declared;
use wire_told::{Sight, Sources};

fn no_work(alloc: Global) -> Work
    ensures { state_of result ≡ start }
{
    Work {
        names: Vec::new(alloc),
        tags: Vec::new(alloc),
        first_name: 0,
        first_tag: 0,
        structs: Vec::new(alloc),
        locals: Vec::new(alloc),
        taken: Vec::new(alloc),
        asked: Vec::new(alloc),
    }
}

/// What is in force behind the headers. What is seen of the application passed over the same headers, which refuse nothing: only memory can
/// be missing.
pub fn header_work(alloc: Global, sources: &Sources) -> Result<Work, NoMemory>
    ensures { IfOk result (λ w. state_of w ≡ spec.header_state (application_of sources.now)) }
{
    let mut work = no_work(alloc);
    match headers_declared(alloc, sources.headers, &mut work, sources.units) {
        Ok(()) => Ok(work),
        Err(_) => Err(NoMemory),
    }
}

/// How many structs the headers declare.
pub fn header_structs(alloc: Global, sources: &Sources) -> Result<usize, NoMemory>
    ensures { IfOk result (λ n. n ≡ spec.header_structs (application_of sources.now)) }
{
    let work = header_work(alloc, sources)?;
    Ok(work.structs.len())
}

// What stands behind the first of the items, taken off.
fn taken_off<T>(items: &mut Vec<T>, first: usize) -> Result<Vec<T>, NoMemory>
    ensures { IfOk result (λ v. v.items ≡ drop first items.old.items) }
{
    let first = first.min(items.len());
    Ok(items.split_off(first)?)
}

/// The structs that were met behind the first of them, taken off.
#[tactic(auto, using(crate::proofs::Found::takes))]
pub fn structs_behind(
    alloc: Global,
    sight: &mut Sight,
    first: usize,
) -> Result<Vec<Struct>, NoMemory>
    ensures { IfOk result (λ v. map struct_of v.items ≡ spec.structs_behind first (sight_of sight.old).course) }
{
    if !sight.is_whole {
        return Ok(Vec::new(alloc));
    }
    let structs = taken_off(&mut sight.work.structs, first)?;
    Ok(structs)
}
