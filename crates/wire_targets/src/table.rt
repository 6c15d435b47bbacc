//! A table of wires, which finds those of an element without a look at the others.

ghost use Rattle.std.specs.Prelude.{◌≡◌, ℕ, ◌<◌, ◌≤◌, ◌^◌, IfOk, None, Some, length, slice_index_or};
ghost use Rattle.wire_targets.specs.declared.end.End.{End as EndOf};
ghost use Rattle.wire_targets.specs.Paths.{step};
ghost use Rattle.wire_targets.specs.Next.{Follows, IsTableOf, first_from};

use crate::end::{End, Wire};
use crate::steps::along;
use indexmap::IndexMap;
use nm_base::NoMemory;
use std::alloc::Global;

/// The first wire of each element, and the next one of the same element behind each wire.
#[derive(Drop)]
pub struct Table {
    first: IndexMap<(u32, u32), usize>,
    after: Vec<usize>,
}

impl Table {
    /// The table of these wires, in time and memory linear in their number.
    pub fn new(alloc: Global, wires: &[Wire]) -> Result<Table, NoMemory>
        ensures table { IfOk result (λ t. IsTableOf wires.now t) }
    {
        let count = wires.len();
        let mut first = IndexMap::new(alloc);
        let mut after = vec![in alloc; count; count]?;
        let mut at = count;
        while at > 0 {
            at -= 1;
            let place = (wires[at].from.instance, wires[at].from.element);
            after[at] = first.insert(place, at)?.unwrap_or(count);
        }
        Ok(Table { first, after })
    }

    // The first wire of this end's element, or the number of the wires.
    pub(crate) fn first(&self, wires: &[Wire], end: &End) -> usize
        requires { IsTableOf wires.now self.now }
        ensures { result ≡ first_from wires.now end.now 0 }
    {
        match self.first.get(&(end.instance, end.element)) {
            Some(at) => *at,
            None => wires.len(),
        }
    }

    // The next wire of the same element behind a wire.
    pub(crate) fn behind(&self, wire: usize) -> usize
        requires { wire < length self.now.after.items }
        ensures { result ≡ slice_index_or self.now.after.items wire 0 }
    {
        self.after[wire]
    }

    // The first wire that leads on from this end, among those of its element from wire `first` on.
    pub(crate) fn leading(&self, wires: &[Wire], end: &End, first: usize) -> Option<(usize, End)>
        requires { Follows wires.now self.now.after.items }
        ensures small { length wires.now < 2 ^ 64 }
        ensures none { (from k : ℕ) → first ≡ first_from wires.now end.now from → result ≡ None → from ≤ k → step wires.now end.now k ≡ None }
        ensures some { (from k : ℕ) (to : EndOf) → first ≡ first_from wires.now end.now from → result ≡ Some (k, to) → (from ≤ k) × (step wires.now end.now k ≡ Some to) × ((j : ℕ) → from ≤ j → j < k → step wires.now end.now j ≡ None) }
    {
        let mut at = first;
        while at < wires.len() {
            if let Some(to) = along(&wires[at], end) {
                return Some((at, to));
            }
            at = self.after[at];
        }
        None
    }
}
