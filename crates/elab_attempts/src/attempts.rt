//! Declarations that may be refused, and the names that are in force behind a refusal.

ghost use Rattle.std.specs.Prelude.{◌≡◌, [], IfOk, Ok, OnOk, map};
ghost use Rattle.std.specs.Option.{option_map};
ghost use Rattle.elab_meaning.specs.Answers.{Gives};
ghost use Rattle.elab_meaning.specs.View.{env_of, state_of};
ghost use Rattle.body_meaning.specs.Stmts as stmts;
ghost use Rattle.body_meaning.specs.View.{decl_of, param_of};
ghost use Rattle.program_meaning.specs.Heads as heads;
ghost use Rattle.nesc_unwired.specs.Calls as spec;
ghost use Rattle.wire_elements.specs.View.{early_env};
ghost use Rattle.elab_attempts.specs.Given.{Says};
ghost use Rattle.elab_attempts.specs.Parts as parts;
ghost use Rattle.elab_attempts.specs.Parts.{done, hidden};
ghost use Rattle.elab_attempts.specs.View.{attempt_of};

use crate::refusals::unless_refused;
use crate::variables::placed_variable;
use elab_exprs::Told;
use elab_heads::{bracket, parameter, passed_by};
use elab_locals::declaration;
use elab_meaning::{Based, Entry, Meaning, Work};
use nesc_tree::{Decl, Param, Variable};
use nm_base::{Fault, Name, NoMemory, Pos};
use std::alloc::Global;
use wire_elements::Early;

/// What declares names and may be refused: a variable behind the type before its stars, which its declaration may say is const, the name
/// of a type or a tag, a parameter, and one in a bracket.
#[derive(Clone, Copy)]
pub(crate) enum Attempt<'a> {
    Variable(&'a Based, bool, &'a Variable),
    Type(&'a Decl, Pos),
    Parameter(&'a Param, Pos),
    Bracket(&'a Option<Param>, Pos),
}

// ---- what an attempt does

fn type_declared(
    alloc: Global,
    told: &Told,
    work: &mut Work,
    d: &Decl,
    at: Pos,
) -> Result<(), Fault>
    ensures { Gives (λ _. tt) result (state_of work.new) (done (stmts.declaration (env_of told.now.env) told.now.values at (decl_of d.now)) (state_of work.old)) }
{
    declaration(alloc, told, work, d, at)?;
    Ok(())
}

fn placed_type(alloc: Global, told: &Told, work: &mut Work, d: &Decl, at: Pos) -> Result<(), Fault>
    ensures { Gives (λ _. tt) result (state_of work.new) (parts.placed_type (env_of told.now.env) told.now.values at (decl_of d.now) (state_of work.old)) }
{
    match d {
        Decl::Typedef {
            name: _,
            ty: _,
            attrs: _,
            pos: _,
        } => type_declared(alloc, told, work, d, at),
        Decl::TypeOnly(_, _) => type_declared(alloc, told, work, d, at),
        Decl::Vars(_) => Ok(()),
        Decl::Func { head: _, body: _ } => Ok(()),
    }
}

fn placed_parameter(
    alloc: Global,
    told: &Told,
    work: &mut Work,
    p: &Param,
    at: Pos,
) -> Result<(), Fault>
    ensures { Gives (λ _. tt) result (state_of work.new) (parts.placed_parameter (env_of told.now.env) told.now.values at (param_of p.now) (state_of work.old)) }
{
    let t = passed_by(alloc, told, work, at, &p.ty)?;
    parameter(alloc, work, at, t, &p.name)
}

fn placed_bracket(
    alloc: Global,
    told: &Told,
    work: &mut Work,
    p: &Option<Param>,
    at: Pos,
) -> Result<(), Fault>
    ensures { Gives (λ _. tt) result (state_of work.new) (done (heads.bracket (env_of told.now.env) told.now.values at (option_map param_of p.now)) (state_of work.old)) }
{
    bracket(alloc, told, work, at, p)?;
    Ok(())
}

fn run(alloc: Global, told: &Told, work: &mut Work, attempt: &Attempt) -> Result<(), Fault>
    ensures { Gives (λ _. tt) result (state_of work.new) (parts.work_of (env_of told.now.env) told.now.values (attempt_of attempt.now) (state_of work.old)) }
{
    match attempt {
        Attempt::Variable(b, said, v) => placed_variable(alloc, told, work, b, *said, v),
        Attempt::Type(d, at) => placed_type(alloc, told, work, d, *at),
        Attempt::Parameter(p, at) => placed_parameter(alloc, told, work, p, *at),
        Attempt::Bracket(p, at) => placed_bracket(alloc, told, work, p, *at),
    }
}

// What the attempt does by what is told early.
fn run_early(alloc: Global, early: &Early, work: &mut Work, attempt: &Attempt) -> Result<(), Fault>
    ensures { Gives (λ _. tt) result (state_of work.new) (parts.work_of (early_env early.now) [] (attempt_of attempt.now) (state_of work.old)) }
{
    run(alloc, &early.told, work, attempt)
}

/// Does what is attempted, or tells that it is refused, which leaves the work in any state.
pub(crate) fn run_or_refuse(
    alloc: Global,
    early: &Early,
    work: &mut Work,
    attempt: &Attempt,
) -> Result<Option<()>, NoMemory>
    ensures { IfOk result (λ found. Says (λ _. tt) found (state_of work.new) (parts.work_of (early_env early.now) [] (attempt_of attempt.now) (state_of work.old))) }
{
    unless_refused(run_early(alloc, early, work, attempt))
}

// ---- what is in force behind a refusal

/// A name comes in force that is neither a constant nor a type.
pub(crate) fn hide(work: &mut Work, name: &Name) -> Result<(), NoMemory>
    ensures { OnOk result (state_of work.new ≡ hidden name.now (state_of work.old)) }
{
    let name = name.clone()?;
    work.names.push(Entry {
        name,
        meaning: Meaning::Task(0),
    })?;
    Ok(())
}

fn hide_any(work: &mut Work, name: &Option<Name>) -> Result<(), NoMemory>
    ensures { OnOk result (spec.hides_any name.now (state_of work.old) ≡ Ok (tt, state_of work.new)) }
{
    match name {
        None => Ok(()),
        Some(name) => hide(work, name),
    }
}

fn hide_type(work: &mut Work, d: &Decl) -> Result<(), NoMemory>
    ensures { OnOk result (spec.hides_any (parts.type_name (decl_of d.now)) (state_of work.old) ≡ Ok (tt, state_of work.new)) }
{
    match d {
        Decl::Typedef {
            name,
            ty: _,
            attrs: _,
            pos: _,
        } => hide(work, name),
        Decl::TypeOnly(_, _) => Ok(()),
        Decl::Vars(_) => Ok(()),
        Decl::Func { head: _, body: _ } => Ok(()),
    }
}

fn hide_bracket(work: &mut Work, p: &Option<Param>) -> Result<(), NoMemory>
    ensures { OnOk result (spec.hides_any (parts.bracket_name (option_map param_of p.now)) (state_of work.old) ≡ Ok (tt, state_of work.new)) }
{
    match p {
        None => Ok(()),
        Some(p) => hide_any(work, &p.name),
    }
}

/// The name that an attempt declares comes in force, where it has one, and is neither a constant nor a type.
pub(crate) fn hide_declared(work: &mut Work, attempt: &Attempt) -> Result<(), NoMemory>
    ensures { OnOk result (spec.hides_any (parts.name_of (attempt_of attempt.now)) (state_of work.old) ≡ Ok (tt, state_of work.new)) }
{
    match attempt {
        Attempt::Variable(_, _, v) => hide(work, &v.declarator.name),
        Attempt::Type(d, _) => hide_type(work, d),
        Attempt::Parameter(p, _) => hide_any(work, &p.name),
        Attempt::Bracket(p, _) => hide_bracket(work, p),
    }
}
