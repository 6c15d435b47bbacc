//! Scopes that take each other's place.

ghost use Rattle.std.specs.Prelude.{◌≡◌, IfOk, ◌++◌, take, drop};
ghost use Rattle.elab_meaning.specs.View.{state_of};
ghost use Rattle.wire_facts.specs.Scopes as spec;
ghost use Rattle.wire_scopes.specs.View.{base_view, own_of, scope_of};

use elab_meaning::{Entry, Tag, Work};
use nm_base::{NoMemory, beside};
use std::alloc::Global;

/// How many names and tags the headers have.
#[derive(Clone, Copy)]
pub struct Base {
    pub names: usize,
    pub tags: usize,
}

/// The names and tags behind those of the headers.
#[derive(Drop)]
pub struct Scope {
    pub names: Vec<Entry>,
    pub tags: Vec<Tag>,
}

/// What is in force of one component at a time, and where the innermost scope begins.
#[derive(Drop)]
pub struct Own {
    pub scope: Scope,
    pub first_name: usize,
    pub first_tag: usize,
}

/// The names and tags of headers, which are all that are in force.
pub fn base_of(work: &Work) -> Base
    ensures { base_view result ≡ spec.base_of (state_of work.now) }
{
    Base {
        names: work.names.len(),
        tags: work.tags.len(),
    }
}

/// A scope without names and tags.
pub fn no_scope(alloc: Global) -> Scope
    ensures { scope_of result ≡ spec.no_scope }
{
    Scope {
        names: Vec::new(alloc),
        tags: Vec::new(alloc),
    }
}

/// A scope in which names are declared.
pub fn declaring(base: Base, scope: Scope) -> Own
    ensures { own_of result ≡ spec.declaring (base_view base) (scope_of scope) }
{
    Own {
        scope,
        first_name: base.names,
        first_tag: base.tags,
    }
}

/// A scope with a block inside it, in which names are declared.
pub fn in_block(base: Base, scope: Scope) -> Result<Own, NoMemory>
    ensures { IfOk result (λ own. own_of own ≡ spec.in_block (base_view base) (scope_of scope)) }
{
    let Some(first_name) = base.names.checked_add(scope.names.len()) else {
        return Err(NoMemory);
    };
    let Some(first_tag) = base.tags.checked_add(scope.tags.len()) else {
        return Err(NoMemory);
    };
    Ok(Own {
        scope,
        first_name,
        first_tag,
    })
}

// What stands behind the first of the items, taken off.
fn taken_off<T>(items: &mut Vec<T>, first: usize) -> Result<Vec<T>, NoMemory>
    ensures left { IfOk result (λ _. items.new.items ≡ take first items.old.items) }
    ensures taken { IfOk result (λ v. v.items ≡ drop first items.old.items) }
{
    let first = first.min(items.len());
    Ok(items.split_off(first)?)
}

// Puts others behind the first of the items, in place of those that stood there.
fn put_behind<T: Drop>(items: &mut Vec<T>, first: usize, others: Vec<T>) -> Result<Vec<T>, NoMemory>
    ensures put { IfOk result (λ _. items.new.items ≡ take first items.old.items ++ others.items) }
    ensures taken { IfOk result (λ v. v.items ≡ drop first items.old.items) }
{
    let (others, was) = beside(others, taken_off(items, first))?;
    let mut others = others;
    items.append(&mut others)?;
    Ok(was)
}

/// Brings this in force behind the names of headers, and gives what was in force there.
#[tactic(auto, using(crate::proofs::Cuts::cuts))]
pub fn exchange(work: &mut Work, base: Base, own: Own) -> Result<Own, NoMemory>
    ensures was { IfOk result (λ was. own_of was ≡ spec.own_in (base_view base) (state_of work.old)) }
    ensures now { IfOk result (λ _. state_of work.new ≡ spec.with_own (base_view base) (own_of own) (state_of work.old)) }
{
    let Own {
        scope,
        first_name,
        first_tag,
    } = own;
    let Scope { names, tags } = scope;
    let (tags, names) = beside(tags, put_behind(&mut work.names, base.names, names))?;
    let (names, tags) = beside(names, put_behind(&mut work.tags, base.tags, tags))?;
    let was = Own {
        scope: Scope { names, tags },
        first_name: work.first_name,
        first_tag: work.first_tag,
    };
    work.first_name = first_name;
    work.first_tag = first_tag;
    Ok(was)
}
