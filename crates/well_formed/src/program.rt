//! Whether a wired program is well formed.

ghost use Rattle.std.specs.Prelude.{◌≡◌, ◌≢◌, ◌<◌, ◌≤◌, map, slice_get, true};
ghost use Rattle.nesc_core.specs.Nodes.{nodes_of};
ghost use Rattle.nesc_core.specs.Plain.{void};
ghost use Rattle.nesc_core.specs.Typing.{IsType};
ghost use Rattle.nesc_core.specs.View.{body_of, field_of, program_of, stmt_of, structs_of};
ghost use Rattle.nesc_core.specs.Weights.{objects_start};
ghost use Rattle.nesc_core.specs.WellFormed.{BeginsAtomic, BootsAtomic, IsAtomic, IsBody, IsRoot, IsWellFormed, LieFrom};
ghost use Rattle.well_formed.specs.Formed.{Each, FieldsPoint, HaveOwnLines};
ghost use Rattle.well_formed.specs.Laid.{AreLaid};
ghost use Rattle.well_formed.specs.declared.measure.TheConstants.{MOST_NODES as most_nodes};

use crate::bodies::is_body;
use crate::layouts::all_layouts;
use crate::measure::{MOST_DEPTH, MOST_LEVELS, MOST_NODES, stmt};
use crate::types::{is_type, points_well, size};
use nesc_core::{Body, CoreStmt, CoreType, Field, Layout, Program, Structs};
use nm_base::RAM_START;
use std::alloc::Global;

/// How many lines there are.
const LINES: u8 = 8;

fn fields_point(s: &Structs, layouts: &[Layout], fields: &[Field]) -> bool
    requires { AreLaid (structs_of s.now) layouts.now }
    ensures { result ≡ true → FieldsPoint (structs_of s.now) (map field_of fields.now) }
{
    for field in fields {
        if !points_well(s, layouts, &field.ty) {
            return false;
        }
    }
    true
}

// Whether all fields are of types that there are.
fn structs_point(s: &Structs, layouts: &[Layout]) -> bool
    requires { AreLaid (structs_of s.now) layouts.now }
    ensures { result ≡ true → Each (FieldsPoint (structs_of s.now)) (structs_of s.now) }
{
    for fields in s.structs.as_slice() {
        if !fields_point(s, layouts, fields.as_slice()) {
            return false;
        }
    }
    true
}

// Whether variables are of types that there are, and lie at even addresses one behind the other.
fn objects_lie(p: &Program, layouts: &[Layout]) -> bool
    requires { AreLaid (program_of p.now).structs layouts.now }
    ensures types { result ≡ true → Each (λ o. IsType (program_of p.now).structs o.ty) (program_of p.now).objects }
    ensures addresses { result ≡ true → LieFrom (program_of p.now).structs objects_start (program_of p.now).objects }
{
    let s = &p.structs;
    let mut end = u32::from(RAM_START);
    for object in p.objects.as_slice() {
        let address = u32::from(object.addr);
        if address < end || address % 2 != 0 || !is_type(s, layouts, &object.ty) {
            return false;
        }
        end = match size(s, layouts, &object.ty) {
            Some(bytes) => address + bytes,
            None => return false,
        };
    }
    end <= 65_535
}

fn bodies_are(p: &Program, layouts: &[Layout]) -> bool
    requires { AreLaid (structs_of p.now.structs) layouts.now }
    ensures { result ≡ true → Each (IsBody (program_of p.now)) (program_of p.now).bodies }
{
    for body in p.bodies.as_slice() {
        if !is_body(p, layouts, body) {
            return false;
        }
    }
    true
}

// Whether a body has no parameters and no result.
fn begins_context(b: &Body) -> bool
    ensures params { result ≡ true → (body_of b.now).params ≡ 0 }
    ensures gives { result ≡ true → (body_of b.now).result ≡ void }
{
    b.params == 0 && matches!(&b.result, CoreType::Void)
}

// Whether a body without parameters and result has the number.
fn is_root(p: &Program, f: u32) -> bool
    ensures { result ≡ true → IsRoot (slice_get (program_of p.now).bodies f) }
{
    match p.bodies.as_slice().get(f as usize) {
        None => false,
        Some(body) => begins_context(body),
    }
}

fn tasks_are(p: &Program) -> bool
    ensures { result ≡ true → Each (λ f. IsRoot (slice_get (program_of p.now).bodies f)) (program_of p.now).tasks }
{
    for task in p.tasks.as_slice() {
        if !is_root(p, *task) {
            return false;
        }
    }
    true
}

fn handlers_are(p: &Program) -> bool
    ensures roots { result ≡ true → Each (λ h. IsRoot (slice_get (program_of p.now).bodies h.1)) (program_of p.now).handlers }
    ensures lines { result ≡ true → Each (λ h. h.0 < 8) (program_of p.now).handlers }
{
    for handler in p.handlers.as_slice() {
        if !is_root(p, handler.1) || handler.0 >= LINES {
            return false;
        }
    }
    true
}

// Whether the line is that of none of the handlers.
fn is_other(line: u8, handlers: &[(u8, u32)]) -> bool
    ensures { result ≡ true → Each (λ k. line ≢ k.0) handlers.now }
{
    for handler in handlers {
        if line == handler.0 {
            return false;
        }
    }
    true
}

// Whether all handlers have lines of their own.
fn have_own_lines(handlers: &[(u8, u32)]) -> bool
    ensures { result ≡ true → HaveOwnLines handlers.now }
{
    let mut left = handlers;
    while let Some((handler, others)) = left.split_first() {
        if !is_other(handler.0, others) {
            return false;
        }
        left = others;
    }
    true
}

fn is_atomic(s: &CoreStmt) -> bool
    ensures { result ≡ true → IsAtomic (stmt_of s.now) }
{
    matches!(s, CoreStmt::Atomic(_))
}

// Whether a statement, or the first of a block, is atomic.
fn begins_atomic(s: &CoreStmt) -> bool
    ensures { result ≡ true → BeginsAtomic (stmt_of s.now) }
{
    match s {
        CoreStmt::Block(list) => match list.as_slice().first() {
            None => false,
            Some(first) => is_atomic(first),
        },
        CoreStmt::Atomic(_) => true,
        _ => false,
    }
}

fn boots_atomic(p: &Program) -> bool
    ensures { result ≡ true → BootsAtomic (slice_get (program_of p.now).bodies p.now.boot) }
{
    match p.bodies.as_slice().get(p.boot as usize) {
        None => false,
        Some(body) => begins_atomic(&body.code),
    }
}

fn roots_are(p: &Program) -> bool
    ensures tasks { result ≡ true → Each (λ f. IsRoot (slice_get (program_of p.now).bodies f)) (program_of p.now).tasks }
    ensures handlers { result ≡ true → Each (λ h. IsRoot (slice_get (program_of p.now).bodies h.1)) (program_of p.now).handlers }
    ensures lines { result ≡ true → Each (λ h. h.0 < 8) (program_of p.now).handlers }
    ensures differ { result ≡ true → HaveOwnLines (program_of p.now).handlers }
    ensures boot { result ≡ true → IsRoot (slice_get (program_of p.now).bodies (program_of p.now).boot) }
    ensures boot_atomic { result ≡ true → BootsAtomic (slice_get (program_of p.now).bodies (program_of p.now).boot) }
{
    tasks_are(p)
        && handlers_are(p)
        && have_own_lines(p.handlers.as_slice())
        && is_root(p, p.boot)
        && boots_atomic(p)
}

// Whether a program whose structs have these layouts is well formed.
fn is_laid_well(p: &Program, layouts: &[Layout]) -> bool
    requires { AreLaid (structs_of p.now.structs) layouts.now }
    ensures { result ≡ true → IsWellFormed (program_of p.now) }
{
    if !structs_point(&p.structs, layouts) {
        return false;
    }
    if !objects_lie(p, layouts) {
        return false;
    }
    if !bodies_are(p, layouts) {
        return false;
    }
    roots_are(p)
}

/// Whether a program is well formed. False also where there is no memory for the layouts of its structs, and for a program in which a body
/// has inlined calls or more than `MOST_NODES` nodes, or statements stand more than `MOST_DEPTH` deep in one another: no program that is
/// elaborated has these. Time grows with the nodes and fields of the program, and with how deep their types are.
pub fn is_well_formed(alloc: Global, p: &Program) -> bool
    ensures { result ≡ true → IsWellFormed (program_of p.now) }
{
    match all_layouts(alloc, &p.structs) {
        Some(layouts) => is_laid_well(p, &layouts),
        None => false,
    }
}

/// Whether a program has at most `MOST_NODES` nodes; false also where its statements are deeper than `MOST_DEPTH`, or its expressions
/// have more than `MOST_LEVELS` levels.
pub fn has_few_nodes(p: &Program) -> bool
    ensures { result ≡ true → nodes_of (program_of p.now) ≤ most_nodes }
{
    let mut left = MOST_NODES;
    for body in p.bodies.as_slice() {
        match stmt(&body.code, MOST_DEPTH, MOST_LEVELS, left) {
            None => return false,
            Some(rest) => left = rest,
        }
    }
    true
}
