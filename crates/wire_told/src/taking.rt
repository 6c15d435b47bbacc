//! What wires need, taken out of what is seen.

ghost use Rattle.std.specs.Prelude.{◌≡◌, map, IfOk, OnOk};
ghost use Rattle.wire_facts.specs.Seen.{facts_in};
ghost use Rattle.wire_elements.specs.View.{seen_of};
ghost use Rattle.wire_told.specs.View.{scopes_of};

use nm_base::{List, NoMemory};
use std::alloc::Global;
use std::mem::replace;
use wire_elements::Seen;
use wire_pairs::InstanceFacts;

// What wires need of an instance, of which the scope is left.
fn taken(alloc: Global, one: &mut Seen) -> InstanceFacts
    ensures facts { result ≡ facts_in (seen_of one.old) }
    ensures scope { one.new.scope ≡ one.old.scope }
{
    InstanceFacts {
        elements: List::new(replace(&mut one.elements, Vec::new(alloc))),
        lines: List::new(replace(&mut one.lines, Vec::new(alloc))),
    }
}

/// What wires need of the instances, of which their scopes are left.
pub fn taken_facts(alloc: Global, seen: &mut Vec<Seen>) -> Result<Vec<InstanceFacts>, NoMemory>
    ensures facts { IfOk result (λ v. v.items ≡ map facts_in (map seen_of seen.old.items)) }
    ensures scopes { OnOk result (scopes_of (map seen_of seen.new.items) ≡ scopes_of (map seen_of seen.old.items)) }
{
    let mut facts = Vec::new(alloc);
    let mut at = 0;
    while at < seen.len() {
        facts.push(taken(alloc, &mut seen[at]))?;
        at += 1;
    }
    Ok(facts)
}
