//! Bodies of functions, with the dispatch functions that they ask for.

ghost use Rattle.std.specs.Prelude.{◌≡◌, map};
ghost use Rattle.nesc_core.specs.View.{body_of, stmt_of as core_stmt_of, type_of};
ghost use Rattle.body_meaning.specs.View.{head_of, stmt_of};
ghost use Rattle.elab_facts.specs.View.{form_of};
ghost use Rattle.elab_heads.specs.View.{heading_of};
ghost use Rattle.elab_making.specs.Does.{Does};
ghost use Rattle.elab_making.specs.View.{whole_of};
ghost use Rattle.elab_rules.specs.Tells.{Tells};
ghost use Rattle.elab_walk.specs.Parts as parts;
ghost use Rattle.program_meaning.specs.Walk as spec;
ghost use Rattle.program_meaning.specs.Walk.{Told};

use crate::asking::dispatch_asked;
use elab_facts::Form;
use elab_heads::{Heading, code_of};
use elab_making::Whole;
use elab_objects::Boot;
use elab_rules::{ModuleTold, body};
use elab_weights::weighed;
use nesc_core::{Body, CoreStmt, CoreType};
use nesc_tree::{FuncHead, Stmt};
use nm_base::{Fault, Pos, beside};
use std::alloc::Global;
use std::mem::replace;

// ---- the boot function

// The boot function is known.
fn booted(whole: &mut Whole, at: Pos) -> Result<(), Fault>
    ensures { Does (λ _. tt) result (whole_of whole.new) (parts.booted at (whole_of whole.old)) }
{
    let number = whole.next_body()?;
    whole.boots_by(Boot { body: number, at })
}

fn boot_body(whole: &mut Whole, at: Pos, b: Body) -> Result<(), Fault>
    ensures { Does (λ _. tt) result (whole_of whole.new) (parts.boot_body at (body_of b) (whole_of whole.old)) }
{
    let (b, _) = beside(b, booted(whole, at))?;
    whole.add_body(b)
}

// The code of the boot function, with the locals that initial values have.
fn boot_code(
    alloc: Global,
    m: &ModuleTold,
    whole: &mut Whole,
    g: &mut Heading,
    x: &Stmt,
) -> Result<CoreStmt, Fault>
    ensures code { (t : Told) → Tells m.now t → Does core_stmt_of result (whole_of whole.new) (parts.boot_code t (heading_of g.old) (stmt_of x.now) (whole_of whole.old)) }
    ensures kept { form_of g.new.form ≡ form_of g.old.form }
{
    whole.enter_boot(alloc);
    let code = code_of(alloc, &m.told, &mut whole.work, g, x)?;
    whole.leave_boot(alloc);
    Ok(code)
}

/// The boot function. The initial values of variables come to it, so it is weighed when all are known.
pub(crate) fn boot_function(
    alloc: Global,
    m: &ModuleTold,
    whole: &mut Whole,
    h: &FuncHead,
    g: &mut Heading,
    x: &Stmt,
) -> Result<(), Fault>
    ensures { (t : Told) → Tells m.now t → Does (λ _. tt) result (whole_of whole.new) (spec.boot_function t (head_of h.now) (heading_of g.old) (stmt_of x.now) (whole_of whole.old)) }
{
    let code = boot_code(alloc, m, whole, g, x)?;
    let b = body(alloc, m, h, &g.form, Vec::new(alloc), code)?;
    boot_body(whole, h.pos, b)?;
    dispatch_asked(alloc, m, whole)
}

// ---- other functions

fn weighed_body(alloc: Global, whole: &mut Whole, at: Pos, b: Body) -> Result<(), Fault>
    ensures { Does (λ _. tt) result (whole_of whole.new) (parts.weighed_body at (body_of b) (whole_of whole.old)) }
{
    let weight = weighed(alloc, whole.work.structs.as_slice(), at, &b);
    let (b, _) = beside(b, weight)?;
    whole.add_body(b)
}

// The locals of the work, which has none then.
fn taken_locals(alloc: Global, whole: &mut Whole) -> Vec<CoreType>
    ensures taken { map type_of result.items ≡ (whole_of whole.old).work.locals }
    ensures left { whole_of whole.new ≡ parts.without_locals (whole_of whole.old) }
{
    replace(&mut whole.work.locals, Vec::new(alloc))
}

// A body with the locals that the work on it made.
fn finished(
    alloc: Global,
    m: &ModuleTold,
    whole: &mut Whole,
    h: &FuncHead,
    f: &Form,
    code: CoreStmt,
) -> Result<(), Fault>
    ensures { (t : Told) → Tells m.now t → Does (λ _. tt) result (whole_of whole.new) (parts.finished t (head_of h.now) (form_of f.now) (core_stmt_of code) (whole_of whole.old)) }
{
    let locals = taken_locals(alloc, whole);
    let b = body(alloc, m, h, f, locals, code)?;
    weighed_body(alloc, whole, h.pos, b)
}

fn work_code(
    alloc: Global,
    m: &ModuleTold,
    whole: &mut Whole,
    g: &mut Heading,
    x: &Stmt,
) -> Result<CoreStmt, Fault>
    ensures code { (t : Told) → Tells m.now t → Does core_stmt_of result (whole_of whole.new) (parts.work_code t (heading_of g.old) (stmt_of x.now) (whole_of whole.old)) }
    ensures kept { form_of g.new.form ≡ form_of g.old.form }
{
    code_of(alloc, &m.told, &mut whole.work, g, x)
}

/// A function, a task or the implementation of an item. Errors: BadType at its name where its frame is too large.
pub(crate) fn other_function(
    alloc: Global,
    m: &ModuleTold,
    whole: &mut Whole,
    h: &FuncHead,
    g: &mut Heading,
    x: &Stmt,
) -> Result<(), Fault>
    ensures { (t : Told) → Tells m.now t → Does (λ _. tt) result (whole_of whole.new) (parts.other_function t (head_of h.now) (heading_of g.old) (stmt_of x.now) (whole_of whole.old)) }
{
    let code = work_code(alloc, m, whole, g, x)?;
    finished(alloc, m, whole, h, &g.form, code)?;
    dispatch_asked(alloc, m, whole)
}
