//! Wired programs as lines of text.

use application_texts::put_place;
use core_text::{Text, stmt_text, type_text};
use nesc_core::{Body, CoreType, Field, Object, Program, Warning};
use nesc_preproc::Reading;
use nm_base::NoMemory;

/// More levels than trees have.
const LEVELS: u32 = 5_000;

/// So many files are told, at most; they have no more numbers than that.
const FILES: u32 = 1_000;

// The files that were read, by number.
fn put_files(out: &mut Text, reading: &Reading) -> Result<(), NoMemory> {
    out.put(b":\n  files")?;
    for file in 0..FILES {
        let Some(name) = reading.name(file) else {
            return Ok(());
        };
        let before = if file == 0 {
            b" ".as_slice()
        } else {
            b", ".as_slice()
        };
        out.put_number(before, i64::from(file))?;
        out.put(b" ")?;
        out.put(name.as_bytes())?;
    }
    Ok(())
}

fn put_struct(out: &mut Text, number: usize, fields: &[Field]) -> Result<(), NoMemory> {
    put_line(out, b"struct ", number)?;
    out.put(b" { ")?;
    for field in fields {
        out.put(field.name.as_bytes())?;
        out.put(b" ")?;
        type_text(out, &field.ty)?;
        out.put(b"; ")?;
    }
    out.put(b"}")
}

// Begins a line, with a number.
fn put_line(out: &mut Text, word: &[u8], number: usize) -> Result<(), NoMemory> {
    out.put(b"\n  ")?;
    out.put(word)?;
    let text = format!(in out.alloc; "{number}")?;
    out.put(text.as_bytes())
}

// A word that is said where it is so.
fn put_flag(out: &mut Text, word: &[u8], holds: bool) -> Result<(), NoMemory> {
    if holds { out.put(word) } else { Ok(()) }
}

fn put_object(out: &mut Text, number: usize, object: &Object) -> Result<(), NoMemory> {
    put_line(out, b"object ", number)?;
    out.put(b" ")?;
    out.put(object.name.as_bytes())?;
    out.put(b" ")?;
    type_text(out, &object.ty)?;
    let addr = object.addr;
    let text = format!(in out.alloc; " at 0x{addr:04x}")?;
    out.put(text.as_bytes())?;
    put_flag(out, b" norace", object.norace)?;
    put_flag(out, b" taken", object.taken)
}

fn put_types(out: &mut Text, types: &[CoreType]) -> Result<(), NoMemory> {
    let mut before = b"".as_slice();
    for t in types {
        out.put(before)?;
        type_text(out, t)?;
        before = b", ".as_slice();
    }
    Ok(())
}

// The parameters, the result, and the types of the other locals.
fn put_signature(out: &mut Text, body: &Body) -> Result<(), NoMemory> {
    let locals = body.locals.as_slice();
    let count = locals.len().min(body.params as usize);
    let (params, others) = locals.split_at(count);
    out.put(b" (")?;
    put_types(out, params)?;
    out.put(b") ")?;
    type_text(out, &body.result)?;
    put_flag(out, b" with ", !others.is_empty())?;
    put_types(out, others)
}

fn put_body(out: &mut Text, number: usize, body: &Body) -> Result<(), NoMemory> {
    put_line(out, b"body ", number)?;
    out.put(b" ")?;
    out.put(body.name.as_bytes())?;
    put_signature(out, body)?;
    put_flag(out, b" async", body.is_async)?;
    put_flag(out, b" item", body.is_item)?;
    out.put(b": ")?;
    stmt_text(out, &body.code, LEVELS)
}

fn put_named_body(out: &mut Text, body: u32) -> Result<(), NoMemory> {
    out.put_number(b" body ", i64::from(body))
}

fn put_warning(out: &mut Text, reading: &Reading, warning: &Warning) -> Result<(), NoMemory> {
    out.put(b"\n  warning ")?;
    put_place(out.alloc, &mut out.bytes, reading, warning.pos)?;
    out.put(b" no combine for ")?;
    out.put(warning.name.as_bytes())
}

// Which bodies tasks, handlers and the boot function are.
fn put_roles(out: &mut Text, program: &Program) -> Result<(), NoMemory> {
    for (number, body) in program.tasks.as_slice().iter().enumerate() {
        put_line(out, b"task ", number)?;
        put_named_body(out, *body)?;
    }
    for (line, body) in program.handlers.as_slice() {
        put_line(out, b"handler ", usize::from(*line))?;
        put_named_body(out, *body)?;
    }
    out.put(b"\n  boot")?;
    put_named_body(out, program.boot)
}

/// Appends the files that were read, and a line for each struct, object, body, task, handler and warning of a program.
pub fn put_program(out: &mut Text, reading: &Reading, program: &Program) -> Result<(), NoMemory> {
    put_files(out, reading)?;
    for (number, fields) in program.structs.structs.as_slice().iter().enumerate() {
        put_struct(out, number, fields.as_slice())?;
    }
    for (number, object) in program.objects.as_slice().iter().enumerate() {
        put_object(out, number, object)?;
    }
    for (number, body) in program.bodies.as_slice().iter().enumerate() {
        put_body(out, number, body)?;
    }
    put_roles(out, program)?;
    for warning in program.warnings.as_slice() {
        put_warning(out, reading, warning)?;
    }
    Ok(())
}

fn put_count(out: &mut Text, before: &[u8], count: usize, word: &[u8]) -> Result<(), NoMemory> {
    out.put(before)?;
    let text = format!(in out.alloc; "{count}")?;
    out.put(text.as_bytes())?;
    out.put(word)
}

/// Appends how many structs, objects, bodies, tasks, handlers and warnings there are.
pub fn put_numbers(out: &mut Text, program: &Program) -> Result<(), NoMemory> {
    let structs = program.structs.structs.as_slice();
    put_count(out, b": ", structs.len(), b" structs")?;
    put_count(out, b", ", program.objects.as_slice().len(), b" objects")?;
    put_count(out, b", ", program.bodies.as_slice().len(), b" bodies")?;
    put_count(out, b", ", program.tasks.as_slice().len(), b" tasks")?;
    put_count(out, b", ", program.handlers.as_slice().len(), b" handlers")?;
    put_count(out, b", ", program.warnings.as_slice().len(), b" warnings")
}
