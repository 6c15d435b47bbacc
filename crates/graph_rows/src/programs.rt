//! Programs by the calls of their bodies.

ghost use Rattle.std.specs.Prelude.{◌≡◌, ◌<◌, IfOk, true, length};
ghost use Rattle.nesc_core.specs.Plain as plain;
ghost use Rattle.nesc_core.specs.View.{expr_of, program_of};
ghost use Rattle.call_graph.specs.Graph.{IsCounted};
ghost use Rattle.graph_rows.specs.Programs.{AreCalls, AreCallers, IsCall, IsCaller};

use call_graph::Call;
use nesc_core::{Body, CoreExpr, CoreStmt, CoreType, Program, Structs};
use nm_base::{List, Name, NoMemory, Pos};
use std::alloc::Global;

/// The bodies from `items` on are commands without `async`, and a body may handle an interrupt.
#[derive(Clone, Copy)]
pub struct Shape {
    pub items: u32,
    pub handler: Option<u32>,
}

/// A call outside every atomic statement, at a line.
pub fn call(from: u32, to: u32, line: u32) -> Call {
    Call {
        from,
        to,
        pos: Pos {
            file: 0,
            line,
            col: 1,
        },
        atomic: false,
    }
}

/// A call in an atomic statement, at a line.
pub fn atomic_call(from: u32, to: u32, line: u32) -> Call {
    Call {
        atomic: true,
        ..call(from, to, line)
    }
}

#[tactic(auto, using(crate::proofs::CallerLemmas::empty_call))]
fn call_of(alloc: Global, made: Call) -> CoreExpr
    ensures { expr_of result ≡ plain.call made.to plain.no_exprs made.pos }
{
    CoreExpr::Call(made.to, List::new(Vec::new(alloc)), made.pos)
}

#[tactic(auto, using(crate::proofs::CallerLemmas::one_call))]
fn statement(alloc: Global, made: Call, count: u32) -> Result<CoreStmt, NoMemory>
    requires { made.to < count }
    ensures { IfOk result (λ s. IsCall count s) }
{
    let s = CoreStmt::Eval(call_of(alloc, made));
    if made.atomic {
        return Ok(CoreStmt::Atomic(Box::new(alloc, s)?));
    }
    Ok(s)
}

fn is_wanted(made: &Call, from: u32, count: u32, list: &[CoreStmt]) -> bool
    ensures { result ≡ true → (made.now.to < count) × (length list.now < 1000) }
{
    made.from == from && made.to < count && list.len() < 1000
}

// The statement of one call, where it is one of this body's.
fn add(
    alloc: Global,
    list: &mut Vec<CoreStmt>,
    made: Call,
    from: u32,
    count: u32,
) -> Result<(), NoMemory>
    requires { AreCalls count list.old.items }
    ensures { IfOk result (λ _. AreCalls count list.new.items) }
{
    if is_wanted(&made, from, count, list) {
        list.push(statement(alloc, made, count)?)?;
    }
    Ok(())
}

fn statements(
    alloc: Global,
    from: u32,
    calls: &[Call],
    count: u32,
) -> Result<Vec<CoreStmt>, NoMemory>
    ensures { IfOk result (λ v. AreCalls count v.items) }
{
    let mut list = Vec::new(alloc);
    for made in calls {
        add(alloc, &mut list, *made, from, count)?;
    }
    Ok(list)
}

fn body(
    alloc: Global,
    from: u32,
    calls: &[Call],
    count: u32,
    shape: Shape,
) -> Result<Body, NoMemory>
    ensures { IfOk result (λ b. IsCaller count b) }
{
    let list = statements(alloc, from, calls, count)?;
    Ok(Body {
        name: Name::new(alloc, &[])?,
        params: 0,
        locals: List::new(Vec::new(alloc)),
        result: CoreType::Void,
        code: CoreStmt::Block(List::new(list)),
        is_async: false,
        is_item: shape.items <= from,
    })
}

fn bodies(alloc: Global, calls: &[Call], count: u32, shape: Shape) -> Result<Vec<Body>, NoMemory>
    ensures count { IfOk result (λ v. length v.items ≡ count) }
    ensures callers { IfOk result (λ v. AreCallers count v.items) }
{
    let mut list = Vec::new(alloc);
    for f in 0..count {
        list.push(body(alloc, f, calls, count, shape)?)?;
    }
    Ok(list)
}

/// The program of so many bodies that call each other so.
pub fn program(alloc: Global, calls: &[Call], count: u32, shape: Shape) -> Result<Program, NoMemory>
    ensures { IfOk result (λ p. IsCounted (program_of p)) }
{
    let mut handlers = Vec::new(alloc);
    if let Some(f) = shape.handler {
        handlers.push((2, f))?;
    }
    Ok(Program {
        structs: Structs {
            structs: List::new(Vec::new(alloc)),
        },
        objects: List::new(Vec::new(alloc)),
        bodies: List::new(bodies(alloc, calls, count, shape)?),
        tasks: List::new(Vec::new(alloc)),
        handlers: List::new(handlers),
        boot: 0,
        warnings: List::new(Vec::new(alloc)),
    })
}
