//! Where the labels of jumps stand.

ghost use Rattle.std.specs.Prelude.{◌≡◌, ℕ, ◌<◌, IfOk, length};
ghost use Rattle.msp_isa.specs.declared.instr.Cond.{Cond as CondOf};
ghost use Rattle.msp_isa.specs.declared.code.Item.TheVariants.{Jump};
ghost use Rattle.msp_isa.specs.Stands.{item_at, LeadsTo};
ghost use Rattle.msp_layout.specs.Laid.{StandsOnce};
ghost use Rattle.msp_layout.specs.Rounds.{AreTargets};
ghost use Rattle.msp_layout.specs.Labels.{HasLabels};

use msp_isa::Item;
use nm_base::NoMemory;
use std::alloc::Global;
use std::collections::BTreeMap;

/// For each jump the place of its label; for every other item its own place.
pub(crate) fn targets_of(alloc: Global, items: &[Item]) -> Result<Vec<usize>, NoMemory>
    requires { (k l : ℕ) (c : CondOf) → item_at items.now k ≡ Jump c l → StandsOnce items.now l }
    ensures { IfOk result (λ targets. AreTargets items.now targets.items) }
{
    let labels = labels_of(alloc, items)?;
    let mut targets = Vec::with_capacity(alloc, items.len())?;
    for (k, item) in items.iter().enumerate() {
        targets.push(target(items, *item, k, &labels))?;
    }
    Ok(targets)
}

// The place of an item's label; its own place where it is no jump.
fn target(items: &[Item], item: Item, k: usize, labels: &BTreeMap<u32, usize>) -> usize
    requires k { k < length items.now }
    requires labels { HasLabels items.now (length items.now) labels.now }
    requires once { (l : ℕ) (c : CondOf) → item ≡ Jump c l → StandsOnce items.now l }
    ensures lead { LeadsTo items.now item result }
    ensures within { result < length items.now }
{
    match item {
        Item::Jump(_, label) => labels.get(&label).copied().unwrap_or(k),
        _ => k,
    }
}

fn labels_of(alloc: Global, items: &[Item]) -> Result<BTreeMap<u32, usize>, NoMemory>
    ensures { IfOk result (λ labels. HasLabels items.now (length items.now) labels) }
{
    let mut labels = BTreeMap::new(alloc);
    for (k, item) in items.iter().enumerate() {
        if let Item::Label(label) = item {
            labels.insert(*label, k)?;
        }
    }
    Ok(labels)
}
