//! The constants of `unique` and `uniqueCount` in an application.

ghost use Rattle.std.specs.Prelude.{◌≡◌, ◌++◌, [], IfOk, OnOk, length, slice_get, unwrap_or, List as ListOf, ℕ};
ghost use Rattle.wire_names.specs.Places.{place_of};
ghost use Rattle.wire_uniques.specs.Expressions.{Uses};
ghost use Rattle.wire_uniques.specs.Numbers.{AreNumbers, numbered, count_of, starts_from, starts_of};
ghost use Rattle.wire_uniques.specs.Parts as spec;
ghost use Rattle.wire_uniques.specs.Parts.{uses_of};
ghost use Rattle.wire_uniques.specs.Statements.{or_none};

use crate::counter::Counter;
use crate::part::{in_decls, in_part};
use crate::used::Use;
use nm_base::{List, Name, NoMemory};
use std::alloc::Global;
use wire_instances::Made;
use wire_names::Places;
use wire_units::Loaded;

/// The constants of the uses of `unique`: headers' first, in the order of reading, and then those of each instance, in the order
/// of its source. `starts` tells for each instance where its first one stands; `headers` and, for each file, `files` are the uses.
/// What asks for a count stands among them, with a number that means nothing.
#[derive(Debug, Drop)]
pub struct Uniques {
    pub numbers: Vec<usize>,
    pub starts: Vec<usize>,
    pub counts: Places,
    pub headers: Vec<Use>,
    pub files: Vec<List<Use>>,
}

impl Uniques {
    /// The value of `uniqueCount` for this text, 0 where `unique` is never used with it.
    pub fn count(&self, text: &Name) -> usize
        ensures { result ≡ unwrap_or (place_of self.now.counts text.now) 0 }
    {
        self.counts.get(text).unwrap_or(0)
    }
}

#[tactic(auto, using(crate::proofs::Parts::parts))]
fn header_uses(alloc: Global, units: &[Loaded]) -> Result<Vec<Use>, NoMemory>
    ensures { IfOk result (λ uses. uses.items ≡ spec.in_headers units.now) }
{
    let mut uses = Vec::new(alloc);
    for loaded in units {
        in_decls(&mut uses, &loaded.unit.decls)?;
    }
    Ok(uses)
}

fn own_uses(alloc: Global, loaded: &Loaded) -> Result<List<Use>, NoMemory>
    ensures { IfOk result (λ uses. uses ≡ spec.in_own loaded.now) }
{
    let mut uses = Vec::new(alloc);
    in_part(&mut uses, &loaded.unit.part)?;
    Ok(List::new(uses))
}

#[tactic(auto, using(crate::proofs::Parts::files))]
fn parts_of(alloc: Global, units: &[Loaded]) -> Result<Vec<List<Use>>, NoMemory>
    ensures { IfOk result (λ parts. parts.items ≡ spec.parts_of units.now) }
{
    let mut parts = Vec::new(alloc);
    for loaded in units {
        parts.push(own_uses(alloc, loaded)?)?;
    }
    Ok(parts)
}

fn uses_at(parts: &[List<Use>], component: usize) -> &[Use]
    ensures { result.now ≡ or_none (slice_get parts.now component) }
{
    match parts.get(component) {
        Some(uses) => uses.as_slice(),
        None => &[],
    }
}

#[tactic(auto, using(crate::proofs::Parts::instances))]
fn count_instances(
    alloc: Global,
    counter: &mut Counter,
    parts: &[List<Use>],
    made: &[Made],
) -> Result<Vec<usize>, NoMemory>
    ensures numbered { OnOk result ((uses : Uses) → AreNumbers counter.old.counts counter.old.numbers.items uses → AreNumbers counter.new.counts counter.new.numbers.items (uses ++ spec.in_instances parts.now made.now)) }
    ensures starts { IfOk result (λ starts. starts.items ≡ starts_from parts.now (length counter.old.numbers.items) made.now) }
{
    let mut starts = Vec::new(alloc);
    for instance in made {
        starts.push(counter.numbers.len())?;
        counter.take_all(uses_at(parts, instance.component))?;
    }
    Ok(starts)
}

/// Numbers the uses of `unique` in the headers of these files and in these instances, in time that grows with the uses of each
/// instance's file.
pub fn number_uses(alloc: Global, units: &[Loaded], made: &[Made]) -> Result<Uniques, NoMemory>
    ensures numbers { IfOk result (λ u. u.numbers.items ≡ numbered [] (uses_of units.now made.now)) }
    ensures counts { IfOk result (λ u. (text : ListOf ℕ) → unwrap_or (place_of u.counts text) 0 ≡ count_of (uses_of units.now made.now) text) }
    ensures starts { IfOk result (λ u. u.starts.items ≡ starts_of units.now made.now) }
    ensures headers { IfOk result (λ u. u.headers.items ≡ spec.in_headers units.now) }
    ensures files { IfOk result (λ u. u.files.items ≡ spec.parts_of units.now) }
{
    let headers = header_uses(alloc, units)?;
    let parts = parts_of(alloc, units)?;
    let mut counter = Counter::new(alloc);
    counter.take_all(headers.as_slice())?;
    let starts = count_instances(alloc, &mut counter, parts.as_slice(), made)?;
    let Counter { counts, numbers } = counter;
    Ok(Uniques {
        numbers,
        starts,
        counts,
        headers,
        files: parts,
    })
}
