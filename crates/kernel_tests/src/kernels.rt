//! The kernel of a program of three tasks, as its worked rows have it, and programs that have none.

use kernel_code::{NoKernel, kernel};
use nesc_core::{Body, CoreExpr, CoreStmt, CoreType, Field, Object, Program, Structs};
use nm_base::{IntType, List, Name, NoMemory, beside};
use std::alloc::Global;
use std::test::Fail;

fn empty<T>(alloc: Global) -> List<T> {
    List::new(Vec::new(alloc))
}

// ---- programs

fn function(alloc: Global, code: CoreStmt) -> Result<Body, NoMemory> {
    let (code, name) = beside(code, Name::new(alloc, b"f"))?;
    Ok(Body {
        name,
        params: 0,
        locals: empty(alloc),
        result: CoreType::Void,
        code,
        is_async: false,
        is_item: false,
    })
}

fn atomic(alloc: Global, code: CoreStmt) -> Result<CoreStmt, NoMemory> {
    Ok(CoreStmt::Atomic(Box::new(alloc, code)?))
}

fn post(task: u32) -> CoreStmt {
    CoreStmt::Eval(CoreExpr::Post(task))
}

fn push(
    alloc: Global,
    bodies: &mut Vec<Body>,
    code: Result<CoreStmt, NoMemory>,
) -> Result<(), NoMemory> {
    bodies.push(function(alloc, code?)?)?;
    Ok(())
}

// A boot function that posts task 1, three tasks, and a body that posts task 0.
fn push_three(alloc: Global, bodies: &mut Vec<Body>) -> Result<(), NoMemory> {
    push(alloc, bodies, atomic(alloc, post(1)))?;
    for _ in 0..3 {
        push(alloc, bodies, Ok(CoreStmt::Block(empty(alloc))))?;
    }
    push(alloc, bodies, Ok(post(0)))
}

fn three_bodies(alloc: Global) -> Result<Vec<Body>, NoMemory> {
    let mut bodies = Vec::new(alloc);
    let pushed = push_three(alloc, &mut bodies);
    let (bodies, _) = beside(bodies, pushed)?;
    Ok(bodies)
}

fn variable(alloc: Global, ty: CoreType, addr: u16) -> Result<Object, NoMemory> {
    let (ty, name) = beside(ty, Name::new(alloc, b"v"))?;
    Ok(Object {
        name,
        ty,
        addr,
        norace: false,
        taken: false,
    })
}

// Bodies and tasks, and one variable.
fn program(
    alloc: Global,
    bodies: Vec<Body>,
    tasks: Vec<u32>,
    object: Object,
) -> Result<Program, NoMemory> {
    let ((bodies, tasks), objects) = beside((bodies, tasks), one(alloc, object))?;
    Ok(Program {
        structs: Structs {
            structs: empty(alloc),
        },
        objects,
        bodies: List::new(bodies),
        tasks: List::new(tasks),
        handlers: empty(alloc),
        boot: 0,
        warnings: empty(alloc),
    })
}

fn one(alloc: Global, object: Object) -> Result<List<Object>, NoMemory> {
    Ok(List::new(vec![in alloc; object]?))
}

fn three(alloc: Global) -> Result<Program, NoMemory> {
    let bodies = three_bodies(alloc)?;
    let (bodies, tasks) = beside(bodies, Vec::from_array(alloc, [1, 2, 3]))?;
    let byte = variable(alloc, CoreType::Int(IntType::U8), 0x1100);
    let ((bodies, tasks), byte) = beside((bodies, tasks), byte)?;
    program(alloc, bodies, tasks, byte)
}

// So many tasks, and a byte at this address.
fn sized(alloc: Global, tasks: usize, addr: u16) -> Result<Program, NoMemory> {
    let byte = variable(alloc, CoreType::Int(IntType::U8), addr)?;
    let (byte, tasks) = beside(byte, zeroes(alloc, tasks))?;
    program(alloc, Vec::new(alloc), tasks, byte)
}

fn zeroes(alloc: Global, count: usize) -> Result<Vec<u32>, NoMemory> {
    Ok(vec![in alloc; 0; count]?)
}

// ---- structs of two fields, each of the struct before

fn field(alloc: Global, ty: CoreType) -> Result<Field, NoMemory> {
    let (ty, name) = beside(ty, Name::new(alloc, b"x"))?;
    Ok(Field { name, ty })
}

fn twice(alloc: Global, before: Option<u32>) -> Result<List<Field>, NoMemory> {
    let mut fields = Vec::new(alloc);
    for _ in 0..2 {
        let ty = match before {
            None => CoreType::Int(IntType::U8),
            Some(k) => CoreType::Struct(k),
        };
        fields.push(field(alloc, ty)?)?;
    }
    Ok(List::new(fields))
}

fn doubled(alloc: Global, count: u32) -> Result<Structs, NoMemory> {
    let mut structs = Vec::new(alloc);
    for k in 0..count {
        structs.push(twice(alloc, k.checked_sub(1))?)?;
    }
    Ok(Structs {
        structs: List::new(structs),
    })
}

// A variable of the last of so many structs.
fn nested(alloc: Global, count: u32) -> Result<Program, NoMemory> {
    let structs = doubled(alloc, count)?;
    let last = CoreType::Struct(count.saturating_sub(1));
    let (structs, object) = beside(structs, variable(alloc, last, 0x1100))?;
    let made = program(alloc, Vec::new(alloc), Vec::new(alloc), object);
    let (structs, mut made) = beside(structs, made)?;
    made.structs = structs;
    Ok(made)
}

// ---- tests

// What tells the kernel's bodies apart: how many locals, and the form.
fn form(b: &Body) -> (usize, &'static str) {
    let form = match &b.code {
        CoreStmt::Atomic(_) => "atomic",
        CoreStmt::Block(_) => "block",
        CoreStmt::Eval(CoreExpr::Call(_, _, _)) => "call",
        _ => "other",
    };
    (b.locals.as_slice().len(), form)
}

// Why a program has no kernel; None where it has one.
fn refusal(alloc: Global, p: Program) -> Option<NoKernel> {
    kernel(alloc, p).err()
}

// Where the bytes of a program with one variable lie.
fn address(alloc: Global, p: Program) -> Option<u16> {
    let queued = kernel(alloc, p).ok()?;
    let [_, bytes] = queued.program.objects.as_slice() else {
        return None;
    };
    Some(bytes.addr)
}

#[test]
fn three_tasks_have_a_kernel(rt: HostRuntime) -> Result<(), Fail> {
    let queued = kernel(rt.alloc(), three(rt.alloc())?)
        .ok()
        .ok_or("no kernel")?;
    assert_eq!(rt; (queued.queue, queued.pop), (5, 6));
    let wanted = [
        (0, "atomic"),
        (0, "block"),
        (0, "block"),
        (0, "block"),
        (0, "call"),
        (2, "atomic"),
        (2, "atomic"),
    ];
    let bodies = queued.program.bodies.as_slice();
    assert_eq!(rt; bodies.len(), wanted.len());
    for (b, wanted) in bodies.iter().zip(wanted.iter()) {
        assert_eq!(rt; form(b), *wanted);
    }
    Ok(())
}

// The last address of an object's end is 64,352.
#[test]
fn tasks_and_objects_are_bounded(rt: HostRuntime) -> Result<(), Fail> {
    let rows = [
        (254, 64_351, None),
        (255, 64_351, Some(NoKernel::Tasks)),
        (254, 64_352, Some(NoKernel::Room)),
    ];
    for (tasks, addr, wanted) in rows {
        let p = sized(rt.alloc(), tasks, addr)?;
        assert_eq!(rt;
            refusal(rt.alloc(), p),
            wanted,
            "{tasks} tasks, a byte at {addr}"
        );
    }
    Ok(())
}

// The bytes lie behind all objects, at an even address.
#[test]
fn bytes_lie_behind_objects(rt: HostRuntime) -> Result<(), Fail> {
    let p = sized(rt.alloc(), 3, 0x1200)?;
    assert_eq!(rt; address(rt.alloc(), p), Some(0x1202));
    Ok(())
}

// Of 12 structs the last takes 4,096 bytes, and of 40 more than there are; each is measured once.
#[test]
fn structs_in_structs_are_measured(rt: HostRuntime) -> Result<(), Fail> {
    let twelve = nested(rt.alloc(), 12)?;
    assert_eq!(rt; address(rt.alloc(), twelve), Some(0x2100));
    let forty = nested(rt.alloc(), 40)?;
    assert_eq!(rt; refusal(rt.alloc(), forty), Some(NoKernel::Room));
    Ok(())
}
