//! Heads of functions and items of interfaces: their types, and the scope of their parameters.

ghost use Rattle.std.specs.Prelude.{◌≡◌, IfOk, drop, map, take};
ghost use Rattle.std.specs.Option.{option_map};
ghost use Rattle.nesc_core.specs.View.{type_of as core_type_of};
ghost use Rattle.nesc_tree.specs.View.{spec_of};
ghost use Rattle.elab_facts.specs.View.{form_of};
ghost use Rattle.elab_meaning.specs.Answers.{Follows, Gives};
ghost use Rattle.elab_meaning.specs.View.{entry_of, env_of, state_of, tag_of};
ghost use Rattle.elab_pieces.specs.Flow.{left, outer_of};
ghost use Rattle.body_meaning.specs.View.{head_of, param_of};
ghost use Rattle.program_meaning.specs.Heads as spec;
ghost use Rattle.program_meaning.specs.Items as items;
ghost use Rattle.elab_heads.specs.Parts as parts;
ghost use Rattle.elab_heads.specs.View.{heading_of, parameters_of, sig_of};

use crate::bodies::no_locals;
use crate::params::{bracketed, inside, parameters};
use crate::shapes::Heading;
use elab_exprs::{Told, type_of};
use elab_facts::Form;
use elab_meaning::{Entry, Tag, Work};
use elab_pieces::{Outer, enter};
use elab_values::bad_type;
use nesc_core::CoreType;
use nesc_tree::{FuncHead, FuncKind, Param, Sig, TypeSpec};
use nm_base::{Fault, IntType, List, NoMemory, Pos, beside};
use std::alloc::Global;

/// The parameter in the bracket and the others, with the names and tags of their scope.
#[derive(Drop)]
pub(crate) struct Parameters {
    pub bracket: Option<IntType>,
    pub types: Vec<CoreType>,
    pub names: Vec<Entry>,
    pub tags: Vec<Tag>,
}

// ---- results

// Nothing, a number or a pointer.
fn resulting(at: Pos, t: CoreType) -> Result<CoreType, Fault>
    ensures { Follows core_type_of result (spec.resulting at (core_type_of t)) }
{
    match t {
        CoreType::Void => Ok(CoreType::Void),
        CoreType::Int(int) => Ok(CoreType::Int(int)),
        CoreType::Pointer(part) => Ok(CoreType::Pointer(part)),
        CoreType::Array(_, _) => bad_type(at),
        CoreType::Struct(_) => bad_type(at),
    }
}

fn result_of(
    alloc: Global,
    told: &Told,
    work: &mut Work,
    at: Pos,
    t: &TypeSpec,
) -> Result<CoreType, Fault>
    ensures { Gives core_type_of result (state_of work.new) (spec.result (env_of told.now.env) told.now.values at (spec_of t.now) (state_of work.old)) }
{
    let t = type_of(alloc, told, work, t, at)?;
    resulting(at, t)
}

// ---- the scope of the parameters

// What stands behind the first of the items, taken off.
fn taken_off<T>(items: &mut Vec<T>, first: usize) -> Result<Vec<T>, NoMemory>
    ensures left { IfOk result (λ _. items.new.items ≡ take first items.old.items) }
    ensures taken { IfOk result (λ v. v.items ≡ drop first items.old.items) }
{
    let first = first.min(items.len());
    Ok(items.split_off(first)?)
}

// Ends the scope, and gives the names and tags that were declared in it.
#[tactic(auto, using(crate::proofs::Scopes::cuts))]
fn ended(work: &mut Work, outer: Outer) -> Result<(Vec<Entry>, Vec<Tag>), NoMemory>
    ensures names { IfOk result (λ r. map entry_of r.0.items ≡ drop outer.names (map entry_of work.old.names.items)) }
    ensures tags { IfOk result (λ r. map tag_of r.1.items ≡ drop outer.tags (map tag_of work.old.tags.items)) }
    ensures left { IfOk result (λ _. state_of work.new ≡ left (outer_of outer) (state_of work.old)) }
{
    let names = taken_off(&mut work.names, outer.names)?;
    let (names, tags) = beside(names, taken_off(&mut work.tags, outer.tags))?;
    work.first_name = outer.first_name;
    work.first_tag = outer.first_tag;
    Ok((names, tags))
}

fn declared(
    alloc: Global,
    told: &Told,
    work: &mut Work,
    at: Pos,
    p: Option<&Param>,
    params: &List<Param>,
) -> Result<Parameters, Fault>
    ensures { Gives parameters_of result (state_of work.new) (parts.declared (env_of told.now.env) told.now.values at (option_map (λ q. param_of q.now) p.entry) (map param_of params.now) (state_of work.old)) }
{
    let outer = enter(work);
    no_locals(work);
    let bracket = bracketed(alloc, told, work, at, p)?;
    let types = parameters(alloc, told, work, at, params)?;
    let (types, (names, tags)) = beside(types, ended(work, outer))?;
    Ok(Parameters {
        bracket,
        types,
        names,
        tags,
    })
}

// The result, and the parameters behind it.
fn typed(
    alloc: Global,
    told: &Told,
    work: &mut Work,
    at: Pos,
    t: &TypeSpec,
    p: Option<&Param>,
    params: &List<Param>,
) -> Result<(CoreType, Parameters), Fault>
    ensures { Gives (λ x. (core_type_of x.0, parameters_of x.1)) result (state_of work.new) (parts.typed (env_of told.now.env) told.now.values at (spec_of t.now) (option_map (λ q. param_of q.now) p.entry) (map param_of params.now) (state_of work.old)) }
{
    let result = result_of(alloc, told, work, at, t)?;
    beside(result, declared(alloc, told, work, at, p, params))
}

// ---- heads

/// What a head declares, with the scope of its parameters, which are the first locals. Errors: BadType for types that are not passed or not
/// given, DuplicateName, and what a type itself is refused for, all at the function's name.
pub fn heading(alloc: Global, told: &Told, work: &mut Work, h: &FuncHead) -> Result<Heading, Fault>
    ensures { Gives heading_of result (state_of work.new) (spec.heading (env_of told.now.env) told.now.values (head_of h.now) (state_of work.old)) }
{
    let bracket = inside(&h.bracket);
    let (result, p) = typed(alloc, told, work, h.pos, &h.result, bracket, &h.params)?;
    Ok(Heading {
        form: Form {
            kind: h.kind,
            is_async: h.is_async,
            is_default: h.is_default,
            bracket: p.bracket,
            params: List::new(p.types),
            result,
        },
        names: p.names,
        tags: p.tags,
    })
}

fn kind_of(is_event: bool) -> FuncKind
    ensures { result ≡ items.kind_of is_event }
{
    if is_event {
        FuncKind::Event
    } else {
        FuncKind::Command
    }
}

/// What an item of an interface declares; nothing of it stays in force, and there are no locals behind it. Errors: those of a head.
pub fn signature(alloc: Global, told: &Told, work: &mut Work, item: &Sig) -> Result<Form, Fault>
    ensures { Gives form_of result (state_of work.new) (parts.signature (env_of told.now.env) told.now.values (sig_of item.now) (state_of work.old)) }
{
    let (result, p) = typed(
        alloc,
        told,
        work,
        item.pos,
        &item.result,
        None,
        &item.params,
    )?;
    no_locals(work);
    Ok(Form {
        kind: kind_of(item.is_event),
        is_async: item.is_async,
        is_default: false,
        bracket: p.bracket,
        params: List::new(p.types),
        result,
    })
}
