//! The calls and signals in initialisers that reach nothing and have no default.

ghost use Rattle.std.specs.Prelude.{map};
ghost use Rattle.std.specs.Option.{option_map};
ghost use Rattle.body_meaning.specs.View.{init_of, inits as inits_of};
ghost use Rattle.item_targets.specs.Search.{Adds};
ghost use Rattle.item_targets.specs.Walk.{init_at, init_of_at, inits_at};

use crate::elements::Reaches;
use crate::expressions::in_expr;
use crate::search::Search;
use crate::walk::Walk;
use nesc_tree::Init;
use nm_base::{List, NoMemory};

#[cycle(initialisers)]
#[tactic(auto, unfolding(crate::specs::Search::Adds, crate::specs::Walk::expr_at, crate::specs::Walk::init_at, crate::specs::Walk::inits_at))]
fn in_init<R: Reaches>(walk: &Walk<'_, R>, search: &mut Search, init: &Init) -> Result<(), NoMemory>
    ensures { Adds result (init_at R.reach walk.now (init_of init.now)) search.old search.new }
{
    match init {
        Init::One(e) => in_expr(walk, search, e),
        Init::Many(inits) => in_inits(walk, search, inits),
    }
}

#[cycle(initialisers)]
#[tactic(auto, unfolding(crate::specs::Search::Adds))]
fn in_inits<R: Reaches>(
    walk: &Walk<'_, R>,
    search: &mut Search,
    inits: &List<Init>,
) -> Result<(), NoMemory>
    ensures { Adds result (inits_at R.reach walk.now (inits_of (map init_of inits.now))) search.old search.new }
{
    for init in inits.as_slice() {
        in_init(walk, search, init)?;
    }
    Ok(())
}

/// Adds those in an initialiser, if there is one.
#[tactic(auto, unfolding(crate::specs::Search::Adds, crate::specs::Walk::init_at, crate::specs::Walk::init_of_at))]
pub(crate) fn in_maybe_init<R: Reaches>(
    walk: &Walk<'_, R>,
    search: &mut Search,
    init: &Option<Init>,
) -> Result<(), NoMemory>
    ensures { Adds result (init_of_at R.reach walk.now (option_map init_of init.now)) search.old search.new }
{
    match init {
        None => Ok(()),
        Some(init) => in_init(walk, search, init),
    }
}
