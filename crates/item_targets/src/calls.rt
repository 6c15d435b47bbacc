//! One call or signal of an item.

ghost use Rattle.std.specs.Prelude.{◌≡◌, Some, IfOk, OnOk};
ghost use Rattle.body_meaning.specs.View.{maybe_of};
ghost use Rattle.nesc_unwired.specs.Calls as spec;
ghost use Rattle.elab_attempts.specs.View.{now};
ghost use Rattle.item_targets.specs.Search.{Adds};
ghost use Rattle.item_targets.specs.Walk as parts;
ghost use Rattle.item_targets.specs.Walk.{call_at, env_in, of_element_at, unanswered_at};
ghost use Rattle.item_targets.specs.View.{element_of};

use crate::elements::{Element, Reaches};
use crate::items::{calls, element_named, has};
use crate::search::Search;
use crate::walk::Walk;
use elab_attempts::Scopes;
use nesc_tree::Expr;
use nesc_types::Constant;
use nm_base::{Boxed, IntType, Name, NoMemory, Pos, wrap};

fn natural(z: i64) -> u64
    ensures { result ≡ spec.natural z }
{
    u64::try_from(z).unwrap_or(0)
}

// With a value of the bracket, or none that is constant.
fn reaches_by<R: Reaches>(reach: &R, k: usize, t: IntType, c: Option<Constant>) -> bool
    ensures { result ≡ spec.reaches_by (R.reach reach.now k) t c }
{
    match c {
        None => false,
        Some(c) => reach.reaches(k, Some(natural(wrap(t, c.1)))),
    }
}

fn reaches_at<R: Reaches>(
    walk: &Walk<'_, R>,
    scopes: &mut Scopes,
    k: usize,
    t: IntType,
    param: &Option<Boxed<Expr>>,
) -> Result<bool, NoMemory>
    ensures value { IfOk result (λ b. b ≡ spec.reaches_with (env_in R.reach walk.now) (now scopes.old) (R.reach walk.now.reach.now k) (Some t) (maybe_of param.now)) }
    ensures kept { OnOk result (now scopes.new ≡ now scopes.old) }
{
    match param {
        None => Ok(true),
        Some(e) => {
            let c = scopes.constant(walk.alloc, walk.early, e.get())?;
            Ok(reaches_by(walk.reach, k, t, c))
        }
    }
}

fn reaches_with<R: Reaches>(
    walk: &Walk<'_, R>,
    scopes: &mut Scopes,
    k: usize,
    parameter: Option<IntType>,
    param: &Option<Boxed<Expr>>,
) -> Result<bool, NoMemory>
    ensures value { IfOk result (λ b. b ≡ spec.reaches_with (env_in R.reach walk.now) (now scopes.old) (R.reach walk.now.reach.now k) parameter (maybe_of param.now)) }
    ensures kept { OnOk result (now scopes.new ≡ now scopes.old) }
{
    match parameter {
        None => match param {
            None => Ok(walk.reach.reaches(k, None)),
            Some(_) => Ok(true),
        },
        Some(t) => reaches_at(walk, scopes, k, t, param),
    }
}

fn is_answered<R: Reaches>(
    walk: &Walk<'_, R>,
    scopes: &mut Scopes,
    k: usize,
    e: &Element,
    item: &Name,
    param: &Option<Boxed<Expr>>,
) -> Result<bool, NoMemory>
    ensures value { IfOk result (λ b. b ≡ parts.is_answered R.reach walk.now (now scopes.old) k (element_of e.now) item.now (maybe_of param.now)) }
    ensures kept { OnOk result (now scopes.new ≡ now scopes.old) }
{
    if has(walk.decls, e.name, item, true) {
        return Ok(true);
    }
    reaches_with(walk, scopes, k, e.parameter, param)
}

#[tactic(auto, unfolding(crate::specs::Search::Adds, crate::specs::Walk::unanswered_at))]
fn add_call_of<R: Reaches>(
    walk: &Walk<'_, R>,
    search: &mut Search,
    k: usize,
    e: &Element,
    item: &Name,
    param: &Option<Boxed<Expr>>,
    at: Pos,
) -> Result<(), NoMemory>
    ensures { Adds result (unanswered_at R.reach walk.now k (element_of e.now) item.now (maybe_of param.now) at) search.old search.new }
{
    if !is_answered(walk, &mut search.scopes, k, e, item, param)? {
        search.found.push(at)?;
    }
    Ok(())
}

#[tactic(auto, unfolding(crate::specs::Search::Adds, crate::specs::Walk::of_element_at, crate::specs::Walk::unanswered_at))]
fn add_called<R: Reaches>(
    walk: &Walk<'_, R>,
    search: &mut Search,
    k: usize,
    e: &Element,
    signal: bool,
    item: &Name,
    param: &Option<Boxed<Expr>>,
    at: Pos,
) -> Result<(), NoMemory>
    ensures { Adds result (of_element_at R.reach walk.now signal item.now (maybe_of param.now) at (Some (k, element_of e.now))) search.old search.new }
{
    if calls(e, signal, item) {
        add_call_of(walk, search, k, e, item, param, at)
    } else {
        Ok(())
    }
}

/// Adds a call or a signal that reaches nothing and has no default.
#[tactic(auto, unfolding(crate::specs::Search::Adds, crate::specs::Walk::call_at, crate::specs::Walk::of_element_at))]
pub(crate) fn add_call<R: Reaches>(
    walk: &Walk<'_, R>,
    search: &mut Search,
    signal: bool,
    element: &Name,
    item: &Name,
    param: &Option<Boxed<Expr>>,
    at: Pos,
) -> Result<(), NoMemory>
    ensures { Adds result (call_at R.reach walk.now signal element.now item.now (maybe_of param.now) at) search.old search.new }
{
    match element_named(walk.elements, element) {
        None => Ok(()),
        Some((k, e)) => add_called(walk, search, k, e, signal, item, param, at),
    }
}
