//! Functions, tasks and items: what their heads declare, and their definitions.

ghost use Rattle.std.specs.Prelude.{◌≡◌, IfOk, option_copied};
ghost use Rattle.std.specs.Option.{option_map};
ghost use Rattle.body_meaning.specs.View.{head_of, maybe_stmt, stmt_of};
ghost use Rattle.elab_facts.specs.View.{declared_of, form_of};
ghost use Rattle.elab_heads.specs.View.{heading_of};
ghost use Rattle.elab_meaning.specs.View.{meaning_of};
ghost use Rattle.elab_making.specs.Does.{Does};
ghost use Rattle.elab_making.specs.View.{whole_of};
ghost use Rattle.elab_rules.specs.Tells.{Tells};
ghost use Rattle.elab_walk.specs.Parts as parts;
ghost use Rattle.elab_walk.specs.View.{before_of};
ghost use Rattle.program_meaning.specs.Walk as spec;
ghost use Rattle.program_meaning.specs.Walk.{Told};

use crate::bodies::{boot_function, other_function};
use elab_facts::{Declared, Form};
use elab_heads::{Heading, heading, line, no_locals};
use elab_making::Whole;
use elab_meaning::Meaning;
use elab_names::all_copied;
use elab_rules::{
    ModuleTold, agrees, boots, earlier, free_line, function_meaning, in_module, is_definition,
    is_known, is_new, line_before, one_line, prototype_stands, task_meaning, well_formed,
    well_named,
};
use elab_values::copied;
use nesc_tree::{FuncHead, FuncKind, Stmt};
use nm_base::{Fault, List, Name, NoMemory, Pos, beside};
use std::alloc::{AllocError, Global};

/// Whether a name was declared before, and the line that it handles.
#[derive(Clone, Copy)]
pub(crate) struct Before {
    pub is_declared: bool,
    pub line: Option<u32>,
}

// ---- handlers

// The next body handles the line.
fn handles(whole: &mut Whole, at: Pos, line: Option<u32>) -> Result<(), Fault>
    ensures { Does (λ _. tt) result (whole_of whole.new) (spec.handles at line (whole_of whole.old)) }
{
    let Some(line) = line else {
        return Ok(());
    };
    free_line(at, line, whole.handlers.as_slice())?;
    let body = whole.next_body()?;
    whole.add_handler(line, body)
}

// ---- names of functions and tasks

// A name comes in force.
fn named(whole: &mut Whole, name: &Name, meaning: Meaning) -> Result<(), Fault>
    ensures { Does (λ _. tt) result (whole_of whole.new) (parts.named name.now (meaning_of meaning) (whole_of whole.old)) }
{
    let copy: Result<Name, AllocError> = name.clone();
    let (meaning, copy) = beside(meaning, copy)?;
    whole.work.add_name(copy, meaning)
}

// The name of a function or a task that was not declared before comes in force.
fn first_in_force(
    alloc: Global,
    m: &ModuleTold,
    whole: &mut Whole,
    h: &FuncHead,
    f: &Form,
) -> Result<(), Fault>
    ensures { (t : Told) → Tells m.now t → Does (λ _. tt) result (whole_of whole.new) (parts.first_in_force t (head_of h.now) (form_of f.now) h.now.kind (whole_of whole.old)) }
{
    match h.kind {
        FuncKind::Plain => named(whole, &h.name, function_meaning(alloc, m, &h.name, f)?),
        FuncKind::Task => named(whole, &h.name, task_meaning(m, &h.name)?),
        FuncKind::Command => Ok(()),
        FuncKind::Event => Ok(()),
    }
}

fn in_force(
    alloc: Global,
    m: &ModuleTold,
    whole: &mut Whole,
    h: &FuncHead,
    f: &Form,
    is_declared: bool,
) -> Result<(), Fault>
    ensures { (t : Told) → Tells m.now t → Does (λ _. tt) result (whole_of whole.new) (parts.in_force t (head_of h.now) (form_of f.now) is_declared (whole_of whole.old)) }
{
    if is_declared {
        return Ok(());
    }
    first_in_force(alloc, m, whole, h, f)
}

// ---- definitions

fn bodied(
    alloc: Global,
    m: &ModuleTold,
    whole: &mut Whole,
    h: &FuncHead,
    g: &mut Heading,
    x: &Stmt,
) -> Result<(), Fault>
    ensures { (t : Told) → Tells m.now t → Does (λ _. tt) result (whole_of whole.new) (parts.bodied t (head_of h.now) (heading_of g.old) (stmt_of x.now) (whole_of whole.old)) }
{
    if boots(m, h) {
        boot_function(alloc, m, whole, h, g, x)
    } else {
        other_function(alloc, m, whole, h, g, x)
    }
}

// A prototype, or a body.
fn defined(
    alloc: Global,
    m: &ModuleTold,
    whole: &mut Whole,
    h: &FuncHead,
    g: &mut Heading,
    line: Option<u32>,
    body: &Option<Stmt>,
) -> Result<(), Fault>
    ensures { (t : Told) → Tells m.now t → Does (λ _. tt) result (whole_of whole.new) (parts.defined t (head_of h.now) (heading_of g.old) line (maybe_stmt (option_map stmt_of body.now)) (whole_of whole.old)) }
{
    match body {
        None => {
            prototype_stands(m, h, line)?;
            no_locals(&mut whole.work);
            Ok(())
        }
        Some(x) => {
            handles(whole, h.pos, line)?;
            bodied(alloc, m, whole, h, g, x)
        }
    }
}

// ---- what is known of earlier declarations

fn before_by(found: Option<&Declared>) -> Before
    ensures { before_of result ≡ parts.before_by (option_map declared_of (option_copied found.entry)) }
{
    Before {
        is_declared: is_known(found),
        line: line_before(found),
    }
}

// What was declared before agrees, and else the name is new.
fn agreed(whole: &Whole, h: &FuncHead, f: &Form, defines: bool) -> Result<Before, Fault>
    ensures { Does before_of result (whole_of whole.now) (parts.agreed (head_of h.now) (form_of f.now) defines (whole_of whole.now)) }
{
    let found = earlier(whole.declared.as_slice(), h);
    agrees(h.pos, defines, f, found)?;
    is_new(h, &whole.work, found)?;
    Ok(before_by(found))
}

// Whether the declarations stand in a module.
fn is_module(m: &ModuleTold) -> bool
    ensures { (t : Told) → Tells m.now t → result ≡ spec.in_module t.instance }
{
    in_module(&m.instance)
}

// The line that its own attributes give.
fn own_line(
    alloc: Global,
    m: &ModuleTold,
    whole: &mut Whole,
    h: &FuncHead,
    f: &Form,
) -> Result<Option<u32>, Fault>
    ensures { (t : Told) → Tells m.now t → Does (λ l. l) result (whole_of whole.new) (parts.own_line t (head_of h.now) (form_of f.now) (whole_of whole.old)) }
{
    line(alloc, &m.told, &mut whole.work, is_module(m), h, f)
}

// The line that it handles, by its own attributes and by those of its prototype.
fn lined(
    alloc: Global,
    m: &ModuleTold,
    whole: &mut Whole,
    h: &FuncHead,
    f: &Form,
    before: Option<u32>,
) -> Result<Option<u32>, Fault>
    ensures { (t : Told) → Tells m.now t → Does (λ l. l) result (whole_of whole.new) (parts.lined t (head_of h.now) (form_of f.now) before (whole_of whole.old)) }
{
    let own = own_line(alloc, m, whole, h, f)?;
    one_line(h.pos, own, before)
}

fn copied_form(alloc: Global, f: &Form) -> Result<Form, NoMemory>
    ensures { IfOk result (λ g. form_of g ≡ form_of f.now) }
{
    let params = all_copied(alloc, f.params.as_slice())?;
    let (params, result) = beside(params, copied(alloc, &f.result))?;
    Ok(Form {
        kind: f.kind,
        is_async: f.is_async,
        is_default: f.is_default,
        bracket: f.bracket,
        params: List::new(params),
        result,
    })
}

fn copied_names(h: &FuncHead) -> Result<(Name, Option<Name>), NoMemory>
    ensures name { IfOk result (λ x. x.0 ≡ (head_of h.now).name) }
    ensures item { IfOk result (λ x. x.1 ≡ (head_of h.now).item) }
{
    let name = h.name.clone()?;
    match &h.item {
        None => Ok((name, None)),
        Some(item) => Ok((name, Some(item.clone()?))),
    }
}

// It is noted what was declared.
fn noted(
    alloc: Global,
    whole: &mut Whole,
    h: &FuncHead,
    f: &Form,
    line: Option<u32>,
    is_defined: bool,
) -> Result<(), Fault>
    ensures { Does (λ _. tt) result (whole_of whole.new) (parts.noted_function (head_of h.now) (form_of f.now) line is_defined (whole_of whole.old)) }
{
    let form = copied_form(alloc, f)?;
    let (form, (name, item)) = beside(form, copied_names(h))?;
    whole.add_declared(Declared {
        name,
        item,
        form,
        line,
        is_defined,
    })
}

// The name is in force, and it is noted what was declared.
fn entered(
    alloc: Global,
    m: &ModuleTold,
    whole: &mut Whole,
    h: &FuncHead,
    f: &Form,
    is_declared: bool,
    line: Option<u32>,
    is_defined: bool,
) -> Result<(), Fault>
    ensures { (t : Told) → Tells m.now t → Does (λ _. tt) result (whole_of whole.new) (parts.entered t (head_of h.now) (form_of f.now) is_declared line is_defined (whole_of whole.old)) }
{
    in_force(alloc, m, whole, h, f, is_declared)?;
    noted(alloc, whole, h, f, line, is_defined)
}

// What was declared before agrees: the name is in force, and the line and the body are looked at.
fn placed(
    alloc: Global,
    m: &ModuleTold,
    whole: &mut Whole,
    h: &FuncHead,
    g: &mut Heading,
    before: Before,
    body: &Option<Stmt>,
) -> Result<(), Fault>
    ensures { (t : Told) → Tells m.now t → Does (λ _. tt) result (whole_of whole.new) (parts.placed t (head_of h.now) (heading_of g.old) (before_of before) (maybe_stmt (option_map stmt_of body.now)) (whole_of whole.old)) }
{
    let line = lined(alloc, m, whole, h, &g.form, before.line)?;
    let is_defined = is_definition(body);
    entered(
        alloc,
        m,
        whole,
        h,
        &g.form,
        before.is_declared,
        line,
        is_defined,
    )?;
    defined(alloc, m, whole, h, g, line, body)
}

fn with_heading(
    alloc: Global,
    m: &ModuleTold,
    whole: &mut Whole,
    h: &FuncHead,
    g: &mut Heading,
    body: &Option<Stmt>,
) -> Result<(), Fault>
    ensures { (t : Told) → Tells m.now t → Does (λ _. tt) result (whole_of whole.new) (parts.with_heading t (head_of h.now) (heading_of g.old) (maybe_stmt (option_map stmt_of body.now)) (whole_of whole.old)) }
{
    well_formed(m, h, &g.form)?;
    let before = agreed(whole, h, &g.form, is_definition(body))?;
    placed(alloc, m, whole, h, g, before, body)
}

fn found_heading(
    alloc: Global,
    m: &ModuleTold,
    whole: &mut Whole,
    h: &FuncHead,
) -> Result<Heading, Fault>
    ensures { (t : Told) → Tells m.now t → Does heading_of result (whole_of whole.new) (parts.found_heading t (head_of h.now) (whole_of whole.old)) }
{
    heading(alloc, &m.told, &mut whole.work, h)
}

fn cut_function(
    alloc: Global,
    m: &ModuleTold,
    whole: &mut Whole,
    h: &FuncHead,
    body: &Option<Stmt>,
) -> Result<(), Fault>
    ensures { (t : Told) → Tells m.now t → Does (λ _. tt) result (whole_of whole.new) (parts.function_declared t (head_of h.now) (maybe_stmt (option_map stmt_of body.now)) (whole_of whole.old)) }
{
    well_named(h)?;
    let mut g = found_heading(alloc, m, whole, h)?;
    with_heading(alloc, m, whole, h, &mut g, body)
}

/// A function, a task, or an implementation of an item, with or without its body (C99, 6.2.1 and 6.9.1; nesC 1.3 Reference, 5 to 7). Errors
/// at its name: BadType, UnknownName, ArgumentMismatch and DuplicateName for a head that may not stand there or does not agree with what was
/// declared before; UnknownName for a prototype that is used and has no body; VectorTwice for a line that another function handles.
pub(crate) fn function_declared(
    alloc: Global,
    m: &ModuleTold,
    whole: &mut Whole,
    h: &FuncHead,
    body: &Option<Stmt>,
) -> Result<(), Fault>
    ensures { (t : Told) → Tells m.now t → Does (λ _. tt) result (whole_of whole.new) (spec.function_declared t (head_of h.now) (maybe_stmt (option_map stmt_of body.now)) (whole_of whole.old)) }
{
    cut_function(alloc, m, whole, h, body)
}
