//! Declarations in a block.

ghost use Rattle.std.specs.Prelude.{◌≡◌, map, Err};
ghost use Rattle.nm_base.specs.declared.fault.Fault.TheVariants as Fault;
ghost use Rattle.nm_base.specs.declared.refusal.Refusal.TheVariants as Refusal;
ghost use Rattle.nesc_core.specs.View.{stmt_of};
ghost use Rattle.nesc_tree.specs.View.{spec_of};
ghost use Rattle.elab_meaning.specs.Answers.{Gives};
ghost use Rattle.elab_meaning.specs.View.{env_of, state_of};
ghost use Rattle.body_meaning.specs.Stmts as spec;
ghost use Rattle.body_meaning.specs.View.{decl_of, variables_of};
ghost use Rattle.elab_locals.specs.Parts as parts;

use crate::locals::{all_variables, new_type, shaped};
use elab_exprs::{Told, base};
use elab_forms::is_const_at;
use elab_meaning::Work;
use nesc_core::CoreStmt;
use nesc_tree::{Decl, TypeSpec, VarGroup};
use nm_base::{Fault, Name, Pos, Refusal};
use std::alloc::Global;

/// What may not stand here.
pub fn syntax<T>(at: Pos) -> Result<T, Fault>
    ensures { result ≡ Err (Fault.Refused (Refusal.Syntax at)) }
{
    Err(Fault::Refused(Refusal::Syntax(at)))
}

/// Variables that share a type, whose declaration stands at a place.
pub fn declares(
    alloc: Global,
    told: &Told,
    work: &mut Work,
    g: &VarGroup,
    at: Pos,
) -> Result<Vec<CoreStmt>, Fault>
    ensures { Gives (λ v. map stmt_of v.items) result (state_of work.new) (spec.declares (env_of told.now.env) told.now.values at (spec_of g.now.ty) (variables_of g.now) (state_of work.old)) }
{
    let b = base(alloc, told, work, &g.ty.base, at)?;
    all_variables(alloc, told, work, &g.vars, &b, g.ty.is_const)
}

fn type_name(
    alloc: Global,
    told: &Told,
    work: &mut Work,
    t: &TypeSpec,
    name: &Name,
    at: Pos,
) -> Result<Vec<CoreStmt>, Fault>
    ensures { Gives (λ v. map stmt_of v.items) result (state_of work.new) (parts.type_name (env_of told.now.env) told.now.values at name.now (spec_of t.now) (state_of work.old)) }
{
    let b = base(alloc, told, work, &t.base, at)?;
    let ty = shaped(alloc, told, work, at, &b, t.stars, &t.dims)?;
    let is_const = is_const_at(t.stars, t.is_const, b.is_const);
    new_type(work, at, name, ty, is_const)?;
    Ok(Vec::new(alloc))
}

// The name of a type.
fn type_named(
    alloc: Global,
    told: &Told,
    work: &mut Work,
    t: &TypeSpec,
    name: &Name,
    at: Pos,
) -> Result<Vec<CoreStmt>, Fault>
    ensures { Gives (λ v. map stmt_of v.items) result (state_of work.new) (spec.type_named (env_of told.now.env) told.now.values at name.now (spec_of t.now) (state_of work.old)) }
{
    type_name(alloc, told, work, t, name, at)
}

// A struct or an enum.
fn type_declared(
    alloc: Global,
    told: &Told,
    work: &mut Work,
    t: &TypeSpec,
    at: Pos,
) -> Result<Vec<CoreStmt>, Fault>
    ensures { Gives (λ v. map stmt_of v.items) result (state_of work.new) (spec.type_declared (env_of told.now.env) told.now.values at (spec_of t.now) (state_of work.old)) }
{
    base(alloc, told, work, &t.base, at)?;
    Ok(Vec::new(alloc))
}

/// A declaration in a block, at its first token.
pub fn declaration(
    alloc: Global,
    told: &Told,
    work: &mut Work,
    d: &Decl,
    at: Pos,
) -> Result<Vec<CoreStmt>, Fault>
    ensures { Gives (λ v. map stmt_of v.items) result (state_of work.new) (spec.declaration (env_of told.now.env) told.now.values at (decl_of d.now) (state_of work.old)) }
{
    match d {
        Decl::Typedef {
            name,
            ty,
            attrs: _,
            pos,
        } => type_named(alloc, told, work, ty, name, *pos),
        Decl::TypeOnly(t, pos) => type_declared(alloc, told, work, t, *pos),
        Decl::Vars(g) => declares(alloc, told, work, g, at),
        Decl::Func { .. } => syntax(at),
    }
}
