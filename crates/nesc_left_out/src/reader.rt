//! A phrase of the grammar, and how it is read.

ghost use Rattle.std.specs.Prelude.{◌≡◌, IfOk, ℕ, suc};
ghost use Rattle.nesc_tree.specs.Phrase.{Phrase};
ghost use Rattle.nesc_tree.specs.Reading.{Answer};
ghost use Rattle.nesc_tree.specs.Sorts.{Names};
ghost use Rattle.nesc_grammar.specs.Laws.{answer};
ghost use Rattle.nesc_parse_types.specs.Gives.{Gives};
ghost use Rattle.nesc_left_out.specs.Probes.{is_ended};

use nesc_parse_types::{Found, Stop};
use nesc_tree::TypeNames;
use nm_base::{NoMemory, Token};
use std::alloc::Global;

/// What reads a phrase with one level more than `spare`.
pub trait Reader {
    ghost phrase: { Self → Phrase };

    ghost spare: { Self → ℕ };

    /// Whether reading these tokens comes to the last of them. The names are afterwards what they were.
    fn reads_all(
        &self,
        alloc: Global,
        names: &mut TypeNames,
        ts: &[Token],
    ) -> Result<bool, NoMemory>
        ensures told { IfOk result (λ b. b ≡ is_ended (answer (suc (spare self.now)) (phrase self.now) names.old ts.now)) }
        ensures back { names.new ≡ names.old };
}

/// Whether reading came to the last token, which alone may be too deep.
pub fn is_ended<T: Drop>(found: Found<'_, T>) -> Result<bool, NoMemory>
    ensures { IfOk result (λ b. (names : Names) (y : Answer T) → Gives names found.entry y → b ≡ is_ended y) }
{
    match found {
        Ok((_, rest)) => Ok(rest.is_empty()),
        Err(Stop::Memory) => Err(NoMemory),
        Err(Stop::Syntax(rest)) => Ok(rest.is_empty()),
        Err(Stop::Deep(_)) => Ok(true),
    }
}
