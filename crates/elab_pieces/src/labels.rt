//! The statements of a switch, and where in them each label begins.

ghost use Rattle.std.specs.Prelude.{◌≡◌, ◌++◌, [], IfOk, OnOk, map};
ghost use Rattle.nesc_core.specs.View.{expr_of, stmt_of};
ghost use Rattle.body_meaning.specs.Stmts as spec;
ghost use Rattle.elab_pieces.specs.Flow.{added, labelled_of};

use crate::pieces::empty;
use nesc_core::{CoreExpr, CoreStmt};
use nm_base::{List, NoMemory};
use std::alloc::Global;

/// The cases of a switch, each with the number of the statement at which it begins, and the statements.
#[derive(Drop)]
pub struct Labelled {
    pub cases: Vec<(Option<i64>, u32)>,
    pub code: Vec<CoreStmt>,
}

/// No statements.
pub fn no_labels(alloc: Global) -> Labelled
    ensures { labelled_of result ≡ spec.unlabelled [] }
{
    Labelled {
        cases: Vec::new(alloc),
        code: Vec::new(alloc),
    }
}

/// Statements without labels.
pub fn unlabelled(alloc: Global, code: Vec<CoreStmt>) -> Labelled
    ensures { labelled_of result ≡ spec.unlabelled (map stmt_of code.items) }
{
    Labelled {
        cases: Vec::new(alloc),
        code,
    }
}

/// One label more, which begins at an empty statement.
#[tactic(auto, using(crate::proofs::Statements::lists))]
pub fn add_label(alloc: Global, out: &mut Labelled, value: Option<i64>) -> Result<(), NoMemory>
    ensures { OnOk result (labelled_of out.new ≡ added value (labelled_of out.old)) }
{
    let Ok(start) = u32::try_from(out.code.len()) else {
        return Err(NoMemory);
    };
    out.cases.push((value, start))?;
    out.code.push(empty(alloc))?;
    Ok(())
}

/// More statements, without labels.
#[tactic(auto, using(crate::proofs::Statements::lists))]
pub fn add_code(out: &mut Labelled, code: Vec<CoreStmt>) -> Result<(), NoMemory>
    ensures { OnOk result (labelled_of out.new ≡ spec.followed_by (labelled_of out.old) (spec.unlabelled (map stmt_of code.items))) }
{
    let mut more = code;
    out.code.append(&mut more)?;
    Ok(())
}

/// A switch over what is labelled.
#[tactic(auto, using(crate::proofs::Statements::blocks))]
pub fn switch_on(e: CoreExpr, l: Labelled) -> CoreStmt
    ensures { stmt_of result ≡ spec.switch_on (expr_of e) (labelled_of l) }
{
    CoreStmt::Switch(e, List::new(l.cases), List::new(l.code))
}
