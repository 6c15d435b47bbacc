//! Types, constants and declarations by what is told early.

ghost use Rattle.std.specs.Prelude.{◌≡◌, []};
ghost use Rattle.nesc_core.specs.View.{type_of as core_type_of};
ghost use Rattle.nesc_tree.specs.View.{expr_of, spec_of};
ghost use Rattle.elab_meaning.specs.Answers.{Gives};
ghost use Rattle.elab_meaning.specs.View.{env_of, state_of};
ghost use Rattle.elab_meaning.specs.Wired as wired;
ghost use Rattle.body_meaning.specs.Stmts as stmts;
ghost use Rattle.body_meaning.specs.View.{decl_of};
ghost use Rattle.wire_facts.specs.Seen.{done};
ghost use Rattle.wire_elements.specs.View.{early_env};

use crate::early::Early;
use elab_exprs::{Told, constant, type_of};
use elab_locals::declaration;
use elab_meaning::{Env, Work};
use nesc_core::CoreType;
use nesc_tree::{Decl, Expr, TypeSpec};
use nesc_types::Constant;
use nm_base::{Fault, List, Pos};
use std::alloc::Global;

impl Early {
    /// What an instance, or the headers, are told.
    pub fn new(alloc: Global, env: Env) -> Early
        ensures { early_env result ≡ env_of env }
    {
        Early {
            told: Told {
                env,
                values: List::new(Vec::new(alloc)),
            },
        }
    }

    // The type that is written, whose declaration stands at a place.
    pub(crate) fn type_of(
        &self,
        alloc: Global,
        work: &mut Work,
        t: &TypeSpec,
        at: Pos,
    ) -> Result<CoreType, Fault>
        ensures { Gives core_type_of result (state_of work.new) (wired.type_of (early_env self.now) [] at (spec_of t.now) (state_of work.old)) }
    {
        type_of(alloc, &self.told, work, t, at)
    }

    // The type and the number of a whole constant.
    pub(crate) fn constant(
        &self,
        alloc: Global,
        work: &mut Work,
        e: &Expr,
    ) -> Result<Constant, Fault>
        ensures { Gives (λ x. x) result (state_of work.new) (wired.whole_constant (early_env self.now) [] (expr_of e.now) (state_of work.old)) }
    {
        constant(alloc, &self.told, work, e)
    }

    // A declaration, at its first token.
    fn declared(&self, alloc: Global, work: &mut Work, d: &Decl, at: Pos) -> Result<(), Fault>
        ensures { Gives (λ _. tt) result (state_of work.new) (done (stmts.declaration (env_of self.now.told.env) self.now.told.values at (decl_of d.now)) (state_of work.old)) }
    {
        declaration(alloc, &self.told, work, d, at)?;
        Ok(())
    }

    // What a declaration declares, at its first token.
    pub(crate) fn declares(
        &self,
        alloc: Global,
        work: &mut Work,
        d: &Decl,
        at: Pos,
    ) -> Result<(), Fault>
        ensures { Gives (λ _. tt) result (state_of work.new) (done (stmts.declaration (early_env self.now) [] at (decl_of d.now)) (state_of work.old)) }
    {
        self.declared(alloc, work, d, at)
    }
}
