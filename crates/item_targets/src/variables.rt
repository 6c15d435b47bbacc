//! Declarations in blocks: the names that they bring in force, and the calls and signals in their initialisers.

ghost use Rattle.std.specs.Prelude.{map};
ghost use Rattle.std.specs.Option.{option_map};
ghost use Rattle.nesc_tree.specs.View.{base_of, spec_of};
ghost use Rattle.elab_meaning.specs.View.{based_of};
ghost use Rattle.body_meaning.specs.View.{decl_of, start_of, variable_of};
ghost use Rattle.item_targets.specs.Search.{Adds};
ghost use Rattle.item_targets.specs.Walk.{local_at, started_at, type_at, typed_at, variable_at, variables_at, variables_by_at};

use crate::elements::Reaches;
use crate::expressions::in_expr;
use crate::initialisers::in_maybe_init;
use crate::search::Search;
use crate::walk::Walk;
use elab_meaning::Based;
use nesc_tree::{Base, Decl, ForStart, TypeSpec, Variable};
use nm_base::{List, NoMemory, Pos};

#[tactic(auto, unfolding(crate::specs::Search::Adds))]
fn in_variable<R: Reaches>(
    walk: &Walk<'_, R>,
    search: &mut Search,
    b: &Option<Based>,
    said: bool,
    v: &Variable,
) -> Result<(), NoMemory>
    ensures { Adds result (variable_at R.reach walk.now (option_map based_of b.now) said (variable_of v.now)) search.old search.new }
{
    search.scopes.variable(walk.alloc, walk.early, b, said, v)?;
    in_maybe_init(walk, search, &v.init)
}

#[tactic(auto, unfolding(crate::specs::Search::Adds))]
fn in_variables_by<R: Reaches>(
    walk: &Walk<'_, R>,
    search: &mut Search,
    b: &Option<Based>,
    said: bool,
    variables: &List<Variable>,
) -> Result<(), NoMemory>
    ensures { Adds result (variables_by_at R.reach walk.now (option_map based_of b.now) said (map variable_of variables.now)) search.old search.new }
{
    for v in variables.as_slice() {
        in_variable(walk, search, b, said, v)?;
    }
    Ok(())
}

#[tactic(auto, unfolding(crate::specs::Search::Adds))]
fn in_typed<R: Reaches>(
    walk: &Walk<'_, R>,
    search: &mut Search,
    at: Pos,
    base: &Base,
    said: bool,
    variables: &List<Variable>,
) -> Result<(), NoMemory>
    ensures { Adds result (typed_at R.reach walk.now at (base_of base.now) said (map variable_of variables.now)) search.old search.new }
{
    let b = search.scopes.base(walk.alloc, walk.early, base, at)?;
    in_variables_by(walk, search, &b, said, variables)
}

/// Declares variables, and adds what is in their initialisers.
#[tactic(auto, unfolding(crate::specs::Search::Adds, crate::specs::Walk::typed_at, crate::specs::Walk::variables_at))]
pub(crate) fn in_variables<R: Reaches>(
    walk: &Walk<'_, R>,
    search: &mut Search,
    at: Pos,
    t: &TypeSpec,
    variables: &List<Variable>,
) -> Result<(), NoMemory>
    ensures { Adds result (variables_at R.reach walk.now at (spec_of t.now) (map variable_of variables.now)) search.old search.new }
{
    in_typed(walk, search, at, &t.base, t.is_const, variables)
}

#[tactic(auto, unfolding(crate::specs::Search::Adds))]
fn in_type<R: Reaches>(
    walk: &Walk<'_, R>,
    search: &mut Search,
    at: Pos,
    d: &Decl,
) -> Result<(), NoMemory>
    ensures { Adds result (type_at R.reach walk.now at (decl_of d.now)) search.old search.new }
{
    search.scopes.declare_type(walk.alloc, walk.early, d, at)
}

/// A declaration in a block.
#[tactic(auto, unfolding(crate::specs::Search::Adds, crate::specs::Walk::local_at, crate::specs::Walk::type_at, crate::specs::Walk::variables_at))]
pub(crate) fn in_local<R: Reaches>(
    walk: &Walk<'_, R>,
    search: &mut Search,
    at: Pos,
    d: &Decl,
) -> Result<(), NoMemory>
    ensures { Adds result (local_at R.reach walk.now at (decl_of d.now)) search.old search.new }
{
    match d {
        Decl::Typedef { .. } => in_type(walk, search, at, d),
        Decl::TypeOnly(_, _) => in_type(walk, search, at, d),
        Decl::Vars(group) => in_variables(walk, search, at, &group.ty, &group.vars),
        Decl::Func { .. } => Ok(()),
    }
}

/// What stands before a loop.
#[tactic(auto, unfolding(crate::specs::Search::Adds, crate::specs::Walk::expr_at, crate::specs::Walk::started_at, crate::specs::Walk::variables_at))]
pub(crate) fn in_start<R: Reaches>(
    walk: &Walk<'_, R>,
    search: &mut Search,
    at: Pos,
    start: &ForStart,
) -> Result<(), NoMemory>
    ensures { Adds result (started_at R.reach walk.now at (start_of start.now)) search.old search.new }
{
    match start {
        ForStart::Nothing => Ok(()),
        ForStart::Eval(e) => in_expr(walk, search, e),
        ForStart::Vars(group) => in_variables(walk, search, at, &group.ty, &group.vars),
    }
}
