//! Generated programs, and a chain of calls.

use crate::bodies::{COMPARED, COUNTER, MOST_LOOPS, local_type, parameters, result_type};
use crate::builder::Builder;
use crate::node::{ExprNode, StmtNode};
use crate::sketch::{Sketch, TYPES};
use crate::stmts::statements;
use nesc_core::{BinOp, Body, CoreStmt, CoreType, Field, Object, Program, Structs};
use nm_base::{IntType, List, Name, NoMemory, beside};
use std::alloc::Global;

/// What bodies of the chain add, which takes more than 16 bits.
const ADDED: i64 = 70_000;

/// A type of a variable.
#[derive(Clone, Copy)]
enum Kind {
    Number(IntType),
    Bytes(u32),
    Pointer,
    Struct,
}

/// The types of the program's variables, and where they lie: a number of each type, two bytes, a pointer and a struct.
const OBJECTS: [(Kind, u16); 9] = [
    (Kind::Number(IntType::U16), 0x1100),
    (Kind::Bytes(2), 0x1102),
    (Kind::Pointer, 0x1104),
    (Kind::Struct, 0x1106),
    (Kind::Number(IntType::U8), 0x110A),
    (Kind::Number(IntType::U32), 0x110C),
    (Kind::Number(IntType::I16), 0x1110),
    (Kind::Number(IntType::I8), 0x1112),
    (Kind::Number(IntType::I32), 0x1114),
];

fn type_of(alloc: Global, kind: Kind) -> Result<CoreType, NoMemory> {
    match kind {
        Kind::Number(t) => Ok(CoreType::Int(t)),
        Kind::Bytes(count) => Ok(CoreType::Array(byte(alloc)?, count)),
        Kind::Pointer => Ok(CoreType::Pointer(byte(alloc)?)),
        Kind::Struct => Ok(CoreType::Struct(0)),
    }
}

fn byte(alloc: Global) -> Result<Box<CoreType>, NoMemory> {
    Ok(Box::new(alloc, CoreType::Int(IntType::U8))?)
}

// Adds what was found, or returns that there was no memory for it.
fn add<T: Drop>(items: &mut Vec<T>, found: Result<T, NoMemory>) -> Result<(), NoMemory> {
    items.push(found?)?;
    Ok(())
}

fn body(
    alloc: Global,
    params: u32,
    gives: CoreType,
    locals: List<CoreType>,
    code: CoreStmt,
) -> Result<Body, NoMemory> {
    let ((gives, locals, code), name) = beside((gives, locals, code), Name::new(alloc, b"f"))?;
    Ok(Body {
        name,
        params,
        locals,
        result: gives,
        code,
        is_async: false,
        is_item: false,
    })
}

// The statement that was drawn.
fn built(alloc: Global, s: &Sketch) -> Result<CoreStmt, NoMemory> {
    let mut builder = Builder::new(alloc);
    builder.add_all(s.nodes.as_slice())?;
    Ok(builder.stmt())
}

// The boot function, which does nothing.
fn boot(alloc: Global) -> Result<Body, NoMemory> {
    let mut s = Sketch::new(alloc, 0);
    s.stmt(StmtNode::Block(0))?;
    s.stmt(StmtNode::Atomic)?;
    let code = built(alloc, &s)?;
    body(alloc, 0, CoreType::Void, List::new(Vec::new(alloc)), code)
}

// The parameters of a body that is called.
fn parameter_types(alloc: Global, f: u32) -> Result<List<CoreType>, NoMemory> {
    let mut types = Vec::new(alloc);
    for k in 0..parameters(f) {
        types.push(CoreType::Int(local_type(f, k)))?;
    }
    Ok(List::new(types))
}

// A body that is called.
fn called(alloc: Global, seed: u64, f: u32) -> Result<Body, NoMemory> {
    let mut s = Sketch::new(alloc, seed);
    let count = s.below(3);
    statements(&mut s, f, count, 3)?;
    let locals = parameter_types(alloc, f)?;
    let code = built(alloc, &s)?;
    body(
        alloc,
        parameters(f),
        CoreType::Int(result_type(f)),
        locals,
        code,
    )
}

// The locals of the body that is compared: a number of each type, a pointer, an array, a struct, and those in which loops count.
fn local_types(alloc: Global) -> Result<List<CoreType>, NoMemory> {
    let mut types = Vec::new(alloc);
    for t in TYPES {
        types.push(CoreType::Int(t))?;
    }
    for kind in [Kind::Pointer, Kind::Bytes(3), Kind::Struct] {
        add(&mut types, type_of(alloc, kind))?;
    }
    for _ in 0..=MOST_LOOPS {
        types.push(CoreType::Int(IntType::U16))?;
    }
    Ok(List::new(types))
}

// The body that is compared.
fn compared(alloc: Global, seed: u64) -> Result<Body, NoMemory> {
    let mut s = Sketch::new(alloc, seed);
    statements(&mut s, COMPARED, 4, 7)?;
    let locals = local_types(alloc)?;
    let code = built(alloc, &s)?;
    body(alloc, 0, CoreType::Void, locals, code)
}

fn object(alloc: Global, kind: Kind, addr: u16) -> Result<Object, NoMemory> {
    let ty = type_of(alloc, kind)?;
    let (ty, name) = beside(ty, Name::new(alloc, b"x"))?;
    Ok(Object {
        name,
        ty,
        addr,
        norace: false,
        taken: true,
    })
}

fn objects(alloc: Global) -> Result<List<Object>, NoMemory> {
    let mut all = Vec::new(alloc);
    for (kind, addr) in OBJECTS {
        add(&mut all, object(alloc, kind, addr))?;
    }
    Ok(List::new(all))
}

fn field(alloc: Global, t: IntType) -> Result<Field, NoMemory> {
    let name = Name::new(alloc, b"m")?;
    Ok(Field {
        name,
        ty: CoreType::Int(t),
    })
}

// One struct, of a byte and a word.
fn structs(alloc: Global) -> Result<Structs, NoMemory> {
    let mut fields = Vec::new(alloc);
    fields.push(field(alloc, IntType::U8)?)?;
    fields.push(field(alloc, IntType::U16)?)?;
    let structs = Vec::from_array(alloc, [List::new(fields)])?;
    Ok(Structs {
        structs: List::new(structs),
    })
}

fn program(alloc: Global, bodies: List<Body>) -> Result<Program, NoMemory> {
    let structs = structs(alloc)?;
    let objects = objects(alloc)?;
    let tasks = Vec::from_array(alloc, [0])?;
    Ok(Program {
        structs,
        objects,
        bodies,
        tasks: List::new(tasks),
        handlers: List::new(Vec::new(alloc)),
        boot: 0,
        warnings: List::new(Vec::new(alloc)),
    })
}

/// A program with a body that is compared, and those that it calls, drawn from the seed.
pub(crate) fn generated(alloc: Global, seed: u32) -> Result<Program, NoMemory> {
    let mut bodies = Vec::new(alloc);
    bodies.push(boot(alloc)?)?;
    for f in 1..COMPARED {
        bodies.push(called(alloc, 100 * u64::from(seed) + u64::from(f), f)?)?;
    }
    bodies.push(compared(alloc, 100 * u64::from(seed))?)?;
    program(alloc, List::new(bodies))
}

// A body of the chain, which adds to what the next one gives; the last one reads a port.
fn link(alloc: Global, f: u32, length: u32) -> Result<Body, NoMemory> {
    let mut s = Sketch::new(alloc, 0);
    if f < length {
        s.expr(ExprNode::Call(f + 1, 0))?;
    } else {
        s.expr(ExprNode::In(0x0132))?;
        s.expr(ExprNode::Convert(IntType::I32))?;
    }
    s.expr(ExprNode::Const(IntType::I32, ADDED))?;
    s.expr(ExprNode::Bin(BinOp::Add, IntType::I32))?;
    s.stmt(StmtNode::Return(true))?;
    let code = built(alloc, &s)?;
    let gives = CoreType::Int(IntType::I32);
    body(alloc, 0, gives, List::new(Vec::new(alloc)), code)
}

// Both halves of what the chain gives, written to a port.
fn caller(alloc: Global) -> Result<Body, NoMemory> {
    let mut s = Sketch::new(alloc, 0);
    for shift in [0, 16] {
        s.expr(ExprNode::Call(1, 0))?;
        s.expr(ExprNode::Const(IntType::I16, shift))?;
        s.expr(ExprNode::Bin(BinOp::Shr, IntType::I32))?;
        s.expr(ExprNode::Convert(IntType::U16))?;
        s.expr(ExprNode::Out(0x0130))?;
        s.stmt(StmtNode::Eval)?;
    }
    s.stmt(StmtNode::Block(2))?;
    let code = built(alloc, &s)?;
    body(alloc, 0, CoreType::Void, List::new(Vec::new(alloc)), code)
}

/// A program in which body 1 calls body 2, and so on, so many; the body behind them calls body 1.
pub(crate) fn chain(alloc: Global, length: u32) -> Result<Program, NoMemory> {
    let mut bodies = Vec::new(alloc);
    bodies.push(boot(alloc)?)?;
    for k in 0..length {
        bodies.push(link(alloc, k + 1, length)?)?;
    }
    bodies.push(caller(alloc)?)?;
    program(alloc, List::new(bodies))
}
