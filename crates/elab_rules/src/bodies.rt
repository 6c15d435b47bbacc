//! Bodies, and prototypes that have none.

ghost use Rattle.std.specs.Prelude.{◌≡◌, IfOk, length, map};
ghost use Rattle.body_meaning.specs.View.{head_of};
ghost use Rattle.elab_facts.specs.View.{form_of};
ghost use Rattle.elab_meaning.specs.Answers.{Follows};
ghost use Rattle.elab_rules.specs.Parts as own;
ghost use Rattle.elab_rules.specs.Parts.{described_of};
ghost use Rattle.elab_rules.specs.Tells.{Tells};
ghost use Rattle.nesc_core.specs.View.{body_of, stmt_of, type_of};
ghost use Rattle.program_meaning.specs.Dispatch.{own_parameter, parameters};
ghost use Rattle.program_meaning.specs.Walk as spec;

use crate::printed::{instance_name, with_item};
use crate::told::ModuleTold;
use elab_facts::Form;
use elab_heads::same_kind;
use elab_uses::{is_item_kind, is_task_kind};
use elab_values::{copied, unknown_name};
use nesc_core::{Body, CoreStmt, CoreType};
use nesc_tree::{FuncHead, FuncKind};
use nm_base::{Fault, IntType, List, Name, NoMemory, beside};
use std::alloc::Global;

fn is_needed(told: &ModuleTold, h: &FuncHead, line: Option<u32>) -> bool
    ensures { (t : spec.Told) → Tells told.now t → result ≡ spec.is_needed t (head_of h.now) line }
{
    match line {
        None => told.used.has(is_task_kind(h.kind), &h.name),
        Some(_) => true,
    }
}

fn function_stands(told: &ModuleTold, h: &FuncHead, line: Option<u32>) -> Result<(), Fault>
    ensures { (t : spec.Told) → Tells told.now t → Follows (λ _. tt) result (own.function_stands t (head_of h.now) line) }
{
    match told.places.function(&h.name) {
        Some(_) => Ok(()),
        None => {
            if is_needed(told, h, line) {
                unknown_name(h.pos)
            } else {
                Ok(())
            }
        }
    }
}

/// A function or a task that is called or posted, or handles a line, has a body; else UnknownName (C99, 6.9).
pub fn prototype_stands(told: &ModuleTold, h: &FuncHead, line: Option<u32>) -> Result<(), Fault>
    ensures { (t : spec.Told) → Tells told.now t → Follows (λ _. tt) result (spec.prototype_stands t (head_of h.now) line) }
{
    if is_item_kind(h.kind) {
        Ok(())
    } else {
        function_stands(told, h, line)
    }
}

/// Whether the function is the one that the mote boots by.
pub fn boots(told: &ModuleTold, h: &FuncHead) -> bool
    ensures { (t : spec.Told) → Tells told.now t → result ≡ spec.boots t (head_of h.now) }
{
    told.is_main && same_kind(h.kind, FuncKind::Plain) && h.name.as_bytes() == b"boot".as_slice()
}

fn own_count(own: Option<IntType>) -> usize
    ensures { result ≡ length (own_parameter own) }
{
    match own {
        None => 0,
        Some(_) => 1,
    }
}

// How many parameters there are, that of the bracket with them. More than 2^32 - 1 find no memory.
fn count(f: &Form) -> Result<u32, NoMemory>
    ensures { IfOk result (λ n. n ≡ length (parameters (form_of f.now))) }
{
    let Some(count) = f.params.as_slice().len().checked_add(own_count(f.bracket)) else {
        return Err(NoMemory);
    };
    match u32::try_from(count) {
        Ok(count) => Ok(count),
        Err(_) => Err(NoMemory),
    }
}

fn printed(alloc: Global, told: &ModuleTold, h: &FuncHead) -> Result<Name, NoMemory>
    ensures { (t : spec.Told) → Tells told.now t → IfOk result (λ n. n ≡ spec.of_instance t.instance (spec.with_item (head_of h.now).name (head_of h.now).item)) }
{
    let name = with_item(alloc, &h.name, &h.item)?;
    instance_name(alloc, told, &name)
}

// What is made for a body: its name in print, how many parameters it has, and its result.
#[derive(Drop)]
struct Described {
    name: Name,
    params: u32,
    result: CoreType,
}

fn parts_of(alloc: Global, told: &ModuleTold, h: &FuncHead, f: &Form) -> Result<Described, NoMemory>
    ensures { (t : spec.Told) → Tells told.now t → IfOk result (λ d. described_of d ≡ own.parts_of t (head_of h.now) (form_of f.now)) }
{
    let params = count(f)?;
    let name = printed(alloc, told, h)?;
    let (name, result) = beside(name, copied(alloc, &f.result))?;
    Ok(Described {
        name,
        params,
        result,
    })
}

fn body_by(d: Described, h: &FuncHead, locals: Vec<CoreType>, code: CoreStmt) -> Body
    ensures { body_of result ≡ own.body_by (described_of d) (head_of h.now) (map type_of locals.items) (stmt_of code) }
{
    Body {
        name: d.name,
        params: d.params,
        locals: List::new(locals),
        result: d.result,
        code,
        is_async: h.is_async,
        is_item: is_item_kind(h.kind),
    }
}

/// The body of a function with these locals and this code. More than 2^32 - 1 parameters find no memory.
pub fn body(
    alloc: Global,
    told: &ModuleTold,
    h: &FuncHead,
    f: &Form,
    locals: Vec<CoreType>,
    code: CoreStmt,
) -> Result<Body, NoMemory>
    ensures { (t : spec.Told) → Tells told.now t → IfOk result (λ b. body_of b ≡ spec.body t (head_of h.now) (form_of f.now) (map type_of locals.items) (stmt_of code)) }
{
    let ((locals, code), d) = beside((locals, code), parts_of(alloc, told, h, f))?;
    Ok(body_by(d, h, locals, code))
}
