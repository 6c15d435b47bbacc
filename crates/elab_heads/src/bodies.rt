//! Bodies of functions in the scope of their parameters.

ghost use Rattle.std.specs.Prelude.{◌≡◌, Ok};
ghost use Rattle.nesc_core.specs.View.{stmt_of as core_stmt_of, type_of};
ghost use Rattle.elab_facts.specs.View.{form_of};
ghost use Rattle.elab_meaning.specs.Answers.{Gives};
ghost use Rattle.elab_meaning.specs.View.{env_of, state_of};
ghost use Rattle.body_meaning.specs.View.{stmt_of};
ghost use Rattle.program_meaning.specs.Heads as spec;
ghost use Rattle.elab_heads.specs.Parts as parts;
ghost use Rattle.elab_heads.specs.View.{heading_of};

use crate::shapes::Heading;
use elab_exprs::Told;
use elab_meaning::Work;
use elab_pieces::{block_in, block_of, enter, leave};
use elab_stmts::{items, stmt};
use nesc_core::{CoreStmt, CoreType};
use nesc_tree::Stmt;
use nm_base::Fault;
use std::alloc::Global;

/// There are no locals.
pub fn no_locals(work: &mut Work)
    ensures { spec.no_locals (state_of work.old) ≡ Ok (tt, state_of work.new) }
{
    work.locals.clear();
}

// Brings the names and tags of the parameters in force.
#[tactic(auto, using(crate::proofs::Scopes::cuts))]
fn within(work: &mut Work, g: &mut Heading) -> Result<(), Fault>
    ensures gives { Gives (λ _. tt) result (state_of work.new) (parts.in_force (heading_of g.old) (state_of work.old)) }
    ensures kept { form_of g.new.form ≡ form_of g.old.form }
{
    work.names.append(&mut g.names)?;
    work.tags.append(&mut g.tags)?;
    Ok(())
}

// The scope of the parameters is that of the outermost block.
fn outermost(
    alloc: Global,
    told: &Told,
    work: &mut Work,
    x: &Stmt,
    due: &CoreType,
) -> Result<CoreStmt, Fault>
    ensures { Gives core_stmt_of result (state_of work.new) (spec.outermost (env_of told.now.env) told.now.values (type_of due.now) (stmt_of x.now) (state_of work.old)) }
{
    match block_in(x) {
        Some(xs) => {
            let code = items(alloc, told, work, xs, due)?;
            Ok(block_of(code))
        }
        None => stmt(alloc, told, work, x, due),
    }
}

/// The code of a body, in the scope of its parameters, whose names and tags it takes out of the heading. Errors: those of its statements.
pub fn code_of(
    alloc: Global,
    told: &Told,
    work: &mut Work,
    g: &mut Heading,
    body: &Stmt,
) -> Result<CoreStmt, Fault>
    ensures code { Gives core_stmt_of result (state_of work.new) (spec.code_of (env_of told.now.env) told.now.values (heading_of g.old) (stmt_of body.now) (state_of work.old)) }
    ensures kept { form_of g.new.form ≡ form_of g.old.form }
{
    let outer = enter(work);
    within(work, g)?;
    let code = outermost(alloc, told, work, body, &g.form.result)?;
    leave(work, outer);
    Ok(code)
}
