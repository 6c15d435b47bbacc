//! A table of instances by the lines that made them.

ghost use Rattle.std.specs.Prelude.{◌≡◌, ℕ, Some, IfOk, OnOk, cond};
ghost use Rattle.indexmap.specs.IndexMap.{get};
ghost use Rattle.wire_pairs.specs.Application.{is_maker, made_at};
ghost use Rattle.wire_pairs.specs.Makers.{same_line};

use indexmap::IndexMap;
use nm_base::NoMemory;
use std::alloc::Global;
use wire_instances::{Made, Maker};

/// The instance that each line made.
pub type Makers = IndexMap<(usize, usize), usize>;

fn put(makers: &mut Makers, maker: Option<Maker>, number: usize) -> Result<(), NoMemory>
    ensures { OnOk result ((instance line : ℕ) → get same_line makers.new (instance, line) ≡ cond (is_maker instance line maker) (Some number) (get same_line makers.old (instance, line))) }
{
    if let Some(maker) = maker {
        makers.insert((maker.instance, maker.line), number)?;
    }
    Ok(())
}

/// The table of these instances.
pub fn makers_of(alloc: Global, made: &[Made]) -> Result<Makers, NoMemory>
    ensures { IfOk result (λ t. (instance line : ℕ) → get same_line t (instance, line) ≡ made_at made.now instance line) }
{
    let mut makers = IndexMap::new(alloc);
    let mut at = made.len();
    while at > 0 {
        at -= 1;
        put(&mut makers, made[at].maker, at)?;
    }
    Ok(makers)
}

/// The instance that a line of an instance made.
pub fn made_at(makers: &Makers, instance: usize, line: usize) -> Option<usize>
    ensures { result ≡ get same_line makers.now (instance, line) }
{
    makers.get(&(instance, line)).copied()
}
