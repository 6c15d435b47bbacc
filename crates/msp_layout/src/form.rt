//! The form of each item of a function: the shortest sizes with which jumps of one word reach.

ghost use Rattle.std.specs.Prelude.{◌≡◌, ℕ, ◌<◌, ◌^◌, IfOk, length, sum};
ghost use Rattle.std.specs.List.{AllByRecursion};
ghost use Rattle.msp_isa.specs.declared.instr.Cond.{Cond as CondOf};
ghost use Rattle.msp_isa.specs.declared.code.Item.TheVariants.{Jump};
ghost use Rattle.msp_isa.specs.Stands.{item_at};
ghost use Rattle.msp_layout.specs.Laid.{StandsOnce};
ghost use Rattle.msp_layout.specs.Rounds.{IsWrittenItem, AreTargets, ArePlaces};
ghost use Rattle.msp_layout.specs.Sizes.{IsShortest};

use crate::labels::targets_of;
use crate::sizes::{fill_places, short_sizes, widen};
use msp_isa::Item;
use nm_base::NoMemory;
use std::alloc::Global;

/// For each item of a function its bytes, the place of its label where it is a jump, and the bytes before it; behind
/// these the bytes of all.
#[derive(Drop)]
pub(crate) struct Formed {
    pub sizes: Vec<u32>,
    pub targets: Vec<usize>,
    pub places: Vec<u32>,
}

impl Formed {
    /// The bytes of the function.
    pub fn bytes(&self) -> u32
        requires { ArePlaces self.now.sizes.items self.now.places.items }
        ensures { result ≡ sum self.now.sizes.items }
    {
        self.places[self.sizes.len()]
    }
}

/// Forms the items of a function.
pub(crate) fn form(alloc: Global, items: &[Item]) -> Result<Formed, NoMemory>
    requires few { length items.now < 2 ^ 28 }
    requires written { AllByRecursion IsWrittenItem items.now }
    requires once { (k l : ℕ) (c : CondOf) → item_at items.now k ≡ Jump c l → StandsOnce items.now l }
    ensures sizes { IfOk result (λ f. IsShortest items.now f.sizes.items) }
    ensures targets { IfOk result (λ f. AreTargets items.now f.targets.items) }
    ensures places { IfOk result (λ f. ArePlaces f.sizes.items f.places.items) }
{
    let targets = targets_of(alloc, items)?;
    let mut sizes = short_sizes(alloc, items)?;
    let mut places = vec![in alloc; 0; items.len() + 1]?;
    fill_places(&sizes, &mut places);
    while widen(items, &targets, &places, &mut sizes) {
        fill_places(&sizes, &mut places);
    }
    Ok(Formed {
        sizes,
        targets,
        places,
    })
}
