//! What the definition of expansion implies.

ghost use Rattle.nesc_preproc.specs.OneExpansion.{OneExpansion};

use nesc_tokens::one_lexing;

/// Files that are told have one answer at most for each name and what is kept before, and one thing that is kept behind it,
/// but for want of memory and reads that fail.
pub fn one_expansion()
    ensures { OneExpansion }
{
    one_lexing();
}
