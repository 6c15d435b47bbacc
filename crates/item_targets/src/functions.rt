//! The declarations of a module: functions, and all of them in the order of the text.

ghost use Rattle.std.specs.Prelude.{◌≡◌, map, Ok, OnOk};
ghost use Rattle.std.specs.Option.{option_map};
ghost use Rattle.body_meaning.specs.View.{decl_of, head_of, maybe_stmt, param_of, stmt_of, variable_of, variables_of};
ghost use Rattle.body_meaning.specs.Tree as tree;
ghost use Rattle.nesc_tree.specs.View.{spec_of};
ghost use Rattle.elab_meaning.specs.Scope.{Env};
ghost use Rattle.nesc_unwired.specs.Calls as spec;
ghost use Rattle.nesc_unwired.specs.Calls.{Module};
ghost use Rattle.elab_attempts.specs.View.{now};
ghost use Rattle.item_targets.specs.Search.{Adds};
ghost use Rattle.item_targets.specs.Walk.{all_declared_at, behind_bracket_at, body_at, declared_at, env_in, function_at, module_of, within_at};

use crate::elements::Reaches;
use crate::search::Search;
use crate::statements::in_outermost;
use crate::variables::{in_local, in_variables};
use crate::walk::Walk;
use elab_attempts::Scopes;
use nesc_tree::{Decl, FuncHead, FuncKind, Param, Stmt, VarGroup, Variable};
use nm_base::{List, NoMemory, Pos};

fn params_in_force<R: Reaches>(
    walk: &Walk<'_, R>,
    scopes: &mut Scopes,
    at: Pos,
    params: &List<Param>,
) -> Result<(), NoMemory>
    ensures { OnOk result (spec.params_in_force (env_in R.reach walk.now) (module_of R.reach walk.now) at (map param_of params.now) (now scopes.old) ≡ Ok (tt, now scopes.new)) }
{
    for p in params.as_slice() {
        scopes.parameter(walk.alloc, walk.early, at, p)?;
    }
    Ok(())
}

fn own_name(scopes: &mut Scopes, head: &FuncHead) -> Result<(), NoMemory>
    ensures { (env : Env) (m : Module) → OnOk result (spec.own_name env m (head_of head.now) head.now.kind (now scopes.old) ≡ Ok (tt, now scopes.new)) }
{
    match head.kind {
        FuncKind::Plain => scopes.hide(&head.name),
        FuncKind::Task => scopes.hide(&head.name),
        FuncKind::Command => Ok(()),
        FuncKind::Event => Ok(()),
    }
}

// The parameters behind the bracket, and the body in their scope.
#[tactic(auto, unfolding(crate::specs::Search::Adds))]
fn behind_bracket<R: Reaches>(
    walk: &Walk<'_, R>,
    search: &mut Search,
    head: &FuncHead,
    x: &Stmt,
) -> Result<(), NoMemory>
    ensures { Adds result (behind_bracket_at R.reach walk.now (head_of head.now) (stmt_of x.now)) search.old search.new }
{
    params_in_force(walk, &mut search.scopes, head.pos, &head.params)?;
    in_outermost(walk, search, x)
}

// All parameters, and the body in their scope.
#[tactic(auto, unfolding(crate::specs::Search::Adds))]
fn within<R: Reaches>(
    walk: &Walk<'_, R>,
    search: &mut Search,
    head: &FuncHead,
    x: &Stmt,
) -> Result<(), NoMemory>
    ensures { Adds result (within_at R.reach walk.now (head_of head.now) (stmt_of x.now)) search.old search.new }
{
    search
        .scopes
        .bracket(walk.alloc, walk.early, head.pos, &head.bracket)?;
    behind_bracket(walk, search, head, x)
}

#[tactic(auto, unfolding(crate::specs::Search::Adds, crate::specs::Walk::body_at))]
fn in_body<R: Reaches>(
    walk: &Walk<'_, R>,
    search: &mut Search,
    head: &FuncHead,
    body: &Option<Stmt>,
) -> Result<(), NoMemory>
    ensures { Adds result (body_at R.reach walk.now (head_of head.now) (maybe_stmt (option_map stmt_of body.now))) search.old search.new }
{
    match body {
        None => Ok(()),
        Some(x) => {
            let outer = search.scopes.enter();
            within(walk, search, head, x)?;
            search.scopes.leave(outer);
            Ok(())
        }
    }
}

#[tactic(auto, unfolding(crate::specs::Search::Adds))]
fn in_function<R: Reaches>(
    walk: &Walk<'_, R>,
    search: &mut Search,
    head: &FuncHead,
    body: &Option<Stmt>,
) -> Result<(), NoMemory>
    ensures { Adds result (function_at R.reach walk.now (head_of head.now) (maybe_stmt (option_map stmt_of body.now))) search.old search.new }
{
    own_name(&mut search.scopes, head)?;
    in_body(walk, search, head, body)
}

fn first_at(variables: &List<Variable>) -> Pos
    ensures { (env : Env) (m : Module) → result ≡ spec.first_at env m (record { file = 0; line = 1; col = 1 }) (map variable_of variables.now) }
{
    match variables.as_slice().first() {
        None => Pos {
            file: 0,
            line: 1,
            col: 1,
        },
        Some(v) => v.pos,
    }
}

#[tactic(auto, unfolding(crate::specs::Search::Adds))]
fn in_group<R: Reaches>(
    walk: &Walk<'_, R>,
    search: &mut Search,
    group: &VarGroup,
) -> Result<(), NoMemory>
    ensures { Adds result (declared_at R.reach walk.now (tree.variables (spec_of group.now.ty) group.now.norace (variables_of group.now))) search.old search.new }
{
    let at = first_at(&group.vars);
    in_variables(walk, search, at, &group.ty, &group.vars)
}

#[tactic(auto, unfolding(crate::specs::Search::Adds, crate::specs::Walk::declared_at, crate::specs::Walk::function_at, crate::specs::Walk::local_at, crate::specs::Walk::variables_at))]
fn in_decl<R: Reaches>(walk: &Walk<'_, R>, search: &mut Search, d: &Decl) -> Result<(), NoMemory>
    ensures { Adds result (declared_at R.reach walk.now (decl_of d.now)) search.old search.new }
{
    match d {
        Decl::Typedef { pos, .. } => in_local(walk, search, *pos, d),
        Decl::TypeOnly(_, pos) => in_local(walk, search, *pos, d),
        Decl::Vars(group) => in_group(walk, search, group),
        Decl::Func { head, body } => in_function(walk, search, head, body),
    }
}

/// Adds the calls and signals in declarations, in the order of the text.
#[tactic(auto, unfolding(crate::specs::Search::Adds))]
pub(crate) fn in_decls<R: Reaches>(
    walk: &Walk<'_, R>,
    search: &mut Search,
    decls: &[Decl],
) -> Result<(), NoMemory>
    ensures { Adds result (all_declared_at R.reach walk.now (map decl_of decls.now)) search.old search.new }
{
    for d in decls {
        in_decl(walk, search, d)?;
    }
    Ok(())
}
