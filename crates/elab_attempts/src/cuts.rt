//! Work that is cut back.

ghost use Rattle.std.specs.Prelude.{◌≡◌};
ghost use Rattle.elab_meaning.specs.View.{state_of};
ghost use Rattle.elab_attempts.specs.Parts as parts;

use elab_meaning::Work;

/// Of each list as much stays as the other work has, with the scope that is open.
#[tactic(auto, using(crate::proofs::Cut::lengths))]
pub(crate) fn cut_to(kept: &Work, work: &mut Work)
    ensures { state_of work.new ≡ parts.cut_to (state_of kept.now) (state_of work.old) }
{
    work.names.truncate(kept.names.len());
    work.tags.truncate(kept.tags.len());
    work.structs.truncate(kept.structs.len());
    work.locals.truncate(kept.locals.len());
    work.taken.truncate(kept.taken.len());
    work.asked.truncate(kept.asked.len());
}
