//! The numbers of uses of texts.

ghost use Rattle.std.specs.Prelude.{◌≡◌, ◌+◌, ◌++◌, ◌∷◌, [], Some, OnOk, cond, length, unwrap_or, ℕ, List as ListOf};
ghost use Rattle.wire_names.specs.Places.{place_of};
ghost use Rattle.wire_uniques.specs.Expressions.{Uses};
ghost use Rattle.wire_uniques.specs.Numbers.{AreNumbers, uses_text};

use crate::used::Use;
use nm_base::{Name, NoMemory};
use std::alloc::Global;
use wire_names::Places;

// Counts one use more of its text, which is used so often; a text that is asked for its count is not used.
fn note(counts: &mut Places, one: &Use, before: usize) -> Result<(), NoMemory>
    ensures { OnOk result ((other : ListOf ℕ) → place_of counts.new other ≡ cond (uses_text other one.now) (Some (before + 1)) (place_of counts.old other)) }
{
    if one.is_count {
        return Ok(());
    }
    let Some(more) = before.checked_add(1) else {
        return Err(NoMemory);
    };
    counts.set(&one.text, more)?;
    Ok(())
}

/// The number of uses of each text, and the number that each use got.
#[derive(Debug, Drop)]
pub struct Counter {
    pub counts: Places,
    pub numbers: Vec<usize>,
}

impl Counter {
    /// No text is used.
    pub fn new(alloc: Global) -> Counter
        ensures { AreNumbers result.counts result.numbers.items [] }
    {
        Counter {
            counts: Places::new(alloc),
            numbers: Vec::new(alloc),
        }
    }

    /// How often the text is used.
    pub fn count(&self, text: &Name) -> usize
        ensures { result ≡ unwrap_or (place_of self.now.counts text.now) 0 }
    {
        self.counts.get(text).unwrap_or(0)
    }

    fn take(&mut self, one: &Use) -> Result<(), NoMemory>
        ensures numbered { OnOk result ((uses : Uses) → AreNumbers self.old.counts self.old.numbers.items uses → AreNumbers self.new.counts self.new.numbers.items (uses ++ one.now ∷ [])) }
        ensures grows { OnOk result (length self.new.numbers.items ≡ length self.old.numbers.items + 1) }
    {
        let count = self.count(&one.text);
        note(&mut self.counts, one, count)?;
        self.numbers.push(count)?;
        Ok(())
    }

    /// Numbers these uses behind the earlier ones.
    pub fn take_all(&mut self, more: &[Use]) -> Result<(), NoMemory>
        ensures numbered { OnOk result ((uses : Uses) → AreNumbers self.old.counts self.old.numbers.items uses → AreNumbers self.new.counts self.new.numbers.items (uses ++ more.now)) }
        ensures grows { OnOk result (length self.new.numbers.items ≡ length self.old.numbers.items + length more.now) }
    {
        for one in more {
            self.take(one)?;
        }
        Ok(())
    }
}
