//! Constants and declarations by what is told to an instance.

ghost use Rattle.std.specs.Prelude.{[]};
ghost use Rattle.body_meaning.specs.Stmts.{declaration};
ghost use Rattle.body_meaning.specs.View.{decl_of};
ghost use Rattle.elab_meaning.specs.Answers.{Gives};
ghost use Rattle.elab_meaning.specs.View.{env_of, state_of};
ghost use Rattle.elab_meaning.specs.Wired.{whole_constant};
ghost use Rattle.nesc_tree.specs.View.{expr_of};
ghost use Rattle.wire_facts.specs.Seen.{done};
ghost use Rattle.wire_elements.specs.View.{early_env};

use elab_exprs::constant;
use elab_locals::declaration;
use elab_meaning::Work;
use nesc_tree::{Decl, Expr};
use nesc_types::Constant;
use nm_base::{Fault, Pos};
use std::alloc::Global;
use wire_elements::Early;

/// The type and the number of a whole constant.
pub fn constant_told(
    alloc: Global,
    early: &Early,
    work: &mut Work,
    e: &Expr,
) -> Result<Constant, Fault>
    ensures { Gives (λ x. x) result (state_of work.new) (whole_constant (early_env early.now) [] (expr_of e.now) (state_of work.old)) }
{
    constant(alloc, &early.told, work, e)
}

// A declaration, with the values that items have.
fn declared(alloc: Global, early: &Early, work: &mut Work, d: &Decl, at: Pos) -> Result<(), Fault>
    ensures { Gives (λ _. tt) result (state_of work.new) (done (declaration (env_of early.now.told.env) early.now.told.values at (decl_of d.now)) (state_of work.old)) }
{
    declaration(alloc, &early.told, work, d, at)?;
    Ok(())
}

/// What a declaration declares, at its first token.
pub fn declares(
    alloc: Global,
    early: &Early,
    work: &mut Work,
    d: &Decl,
    at: Pos,
) -> Result<(), Fault>
    ensures { Gives (λ _. tt) result (state_of work.new) (done (declaration (early_env early.now) [] at (decl_of d.now)) (state_of work.old)) }
{
    declared(alloc, early, work, d, at)
}
