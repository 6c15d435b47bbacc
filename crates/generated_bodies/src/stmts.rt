//! Statements of all forms, in one another, drawn at random.

use crate::bodies::{COMPARED, COUNTER, MOST_LOOPS, numbers, result_type};
use crate::exprs::{number, test};
use crate::form::Form;
use crate::node::{ExprNode, PlaceNode, StmtNode};
use crate::sketch::Sketch;
use nesc_core::BinOp;
use nm_base::{IntType, NoMemory};

/// The port to which bodies write values.
const SHOWN: u16 = 0x0130;

/// How deep expressions are.
const EXPR_DEPTH: u32 = 4;

/// Where a statement stands: in which body, whether a break and a continue may leave it, in how many loops, and out of how many atomic
/// statements each way leads.
#[derive(Clone, Copy)]
struct Standing {
    body: u32,
    breaks: bool,
    continues: bool,
    loops: u32,
    atomics: u32,
    atomics_to_break: u32,
    atomics_to_continue: u32,
}

// The value of an expression, written to a port.
fn shown(s: &mut Sketch, body: u32) -> Result<(), NoMemory> {
    let t = s.number_type();
    number(s, body, t, EXPR_DEPTH)?;
    s.expr(ExprNode::Convert(IntType::U16))?;
    s.expr(ExprNode::Out(SHOWN))?;
    s.stmt(StmtNode::Eval)
}

// Whether to leave a statement, behind a test, which is mostly there.
fn left(s: &mut Sketch, at: Standing, form: Form, way: StmtNode) -> Result<(), NoMemory> {
    if s.once_in(4) {
        s.meets(form)?;
        s.stmt(way)?;
        return s.stmt(StmtNode::Block(2));
    }
    test(s, at.body, EXPR_DEPTH)?;
    s.meets(form)?;
    s.stmt(way)?;
    s.stmt(StmtNode::Block(2))?;
    shown(s, at.body)?;
    s.stmt(StmtNode::If)
}

fn broken(s: &mut Sketch, at: Standing) -> Result<(), NoMemory> {
    let form = if at.atomics_to_break == 0 {
        Form::Break
    } else {
        Form::BreakOutOfAtomic
    };
    left(s, at, form, StmtNode::Break)
}

fn continued(s: &mut Sketch, at: Standing) -> Result<(), NoMemory> {
    let form = if at.atomics_to_continue == 0 {
        Form::Continue
    } else {
        Form::ContinueOutOfAtomic
    };
    left(s, at, form, StmtNode::Continue)
}

// The compared body gives nothing.
fn returned(s: &mut Sketch, at: Standing) -> Result<(), NoMemory> {
    let form = if at.atomics == 0 {
        Form::Return
    } else {
        Form::ReturnOutOfAtomic
    };
    if at.body == COMPARED {
        return left(s, at, form, StmtNode::Return(false));
    }
    test(s, at.body, EXPR_DEPTH)?;
    s.meets(form)?;
    s.meets(Form::ReturnValue)?;
    number(s, at.body, result_type(at.body), EXPR_DEPTH)?;
    s.stmt(StmtNode::Return(true))?;
    s.stmt(StmtNode::Block(3))?;
    shown(s, at.body)?;
    s.stmt(StmtNode::If)
}

fn cleared(s: &mut Sketch, at: Standing) -> Result<(), NoMemory> {
    let count = numbers(at.body);
    if count == 0 {
        return shown(s, at.body);
    }
    let x = s.below(count);
    s.meets(Form::Clear)?;
    s.stmt(StmtNode::Clear(x))?;
    s.stmt(StmtNode::Block(2))
}

// The local in which a loop counts becomes 0.
fn counts_from_zero(s: &mut Sketch, counter: u32) -> Result<(), NoMemory> {
    s.place(PlaceNode::Local(counter))?;
    s.expr(ExprNode::Const(IntType::U16, 0))?;
    s.expr(ExprNode::Assign)?;
    s.stmt(StmtNode::Eval)
}

// One more is counted.
fn counted(s: &mut Sketch, counter: u32) -> Result<(), NoMemory> {
    s.place(PlaceNode::Local(counter))?;
    s.expr(ExprNode::Const(IntType::U16, 1))?;
    s.expr(ExprNode::Update(BinOp::Add, IntType::U16, false))
}

// The test of a loop: it has few turns, or ends at a random value. A loop with a step counts there, others in their test.
fn loop_test(s: &mut Sketch, body: u32, counter: u32, has_step: bool) -> Result<(), NoMemory> {
    if s.once_in(6) {
        let t = s.number_type();
        return number(s, body, t, EXPR_DEPTH);
    }
    if has_step {
        s.place(PlaceNode::Local(counter))?;
        s.expr(ExprNode::Read)?;
    } else {
        counted(s, counter)?;
    }
    let turns = i64::from(s.below(4)) + 1;
    s.expr(ExprNode::Const(IntType::U16, turns))?;
    s.expr(ExprNode::Bin(BinOp::Lt, IntType::U16))
}

// A while, a do or a for.
#[cycle(stmts)]
fn turns(s: &mut Sketch, at: Standing, depth: u32) -> Result<(), NoMemory> {
    let Some(inner) = depth.checked_sub(1) else {
        return shown(s, at.body);
    };
    let counter = COUNTER + at.loops.min(MOST_LOOPS);
    let kind = s.below(3);
    let has_step = kind == 0;
    let form = match kind {
        0 => Form::For,
        1 => Form::While,
        _ => Form::Do,
    };
    let within = Standing {
        breaks: true,
        continues: true,
        loops: at.loops.saturating_add(1),
        atomics_to_break: 0,
        atomics_to_continue: 0,
        ..at
    };
    counts_from_zero(s, counter)?;
    loop_test(s, at.body, counter, has_step)?;
    if has_step {
        counted(s, counter)?;
    }
    s.meets(form)?;
    statement(s, within, inner)?;
    s.stmt(StmtNode::Block(2))?;
    s.stmt(StmtNode::Loop(kind < 2, has_step))?;
    s.stmt(StmtNode::Block(2))
}

// A switch over a number from 0 to 3.
#[cycle(stmts)]
fn switch(s: &mut Sketch, at: Standing, depth: u32) -> Result<(), NoMemory> {
    let Some(inner) = depth.checked_sub(1) else {
        return shown(s, at.body);
    };
    let within = Standing {
        breaks: true,
        atomics_to_break: 0,
        ..at
    };
    let t = s.promoted();
    number(s, at.body, t, EXPR_DEPTH)?;
    s.expr(ExprNode::Const(t, 3))?;
    s.expr(ExprNode::Bin(BinOp::And, t))?;
    let count = 1 + s.below(4);
    for k in 0..count {
        s.meets(Form::Case)?;
        statement(s, within, inner)?;
        if k + 1 < count {
            s.meets(Form::FallThrough)?;
            s.stmt(StmtNode::Block(3))?;
        } else {
            s.stmt(StmtNode::Block(2))?;
        }
    }
    for _ in 0..s.below(6) {
        let value = if s.once_in(3) {
            None
        } else {
            Some(i64::from(s.below(5)) - 1)
        };
        let start = s.below(count);
        s.case(value, start)?;
    }
    s.stmt(StmtNode::Switch(count))
}

#[cycle(stmts)]
fn branch(s: &mut Sketch, at: Standing, depth: u32) -> Result<(), NoMemory> {
    let Some(inner) = depth.checked_sub(1) else {
        return shown(s, at.body);
    };
    test(s, at.body, EXPR_DEPTH)?;
    s.meets(Form::Then)?;
    statement(s, at, inner)?;
    s.stmt(StmtNode::Block(2))?;
    s.meets(Form::Else)?;
    statement(s, at, inner)?;
    s.stmt(StmtNode::Block(2))?;
    s.stmt(StmtNode::If)
}

#[cycle(stmts)]
fn atomic(s: &mut Sketch, at: Standing, depth: u32) -> Result<(), NoMemory> {
    let Some(inner) = depth.checked_sub(1) else {
        return shown(s, at.body);
    };
    let within = Standing {
        atomics: at.atomics.saturating_add(1),
        atomics_to_break: at.atomics_to_break.saturating_add(1),
        atomics_to_continue: at.atomics_to_continue.saturating_add(1),
        ..at
    };
    s.meets(Form::Atomic)?;
    statement(s, within, inner)?;
    s.stmt(StmtNode::Block(2))?;
    s.stmt(StmtNode::Atomic)
}

#[cycle(stmts)]
fn block(s: &mut Sketch, at: Standing, depth: u32) -> Result<(), NoMemory> {
    let Some(inner) = depth.checked_sub(1) else {
        return shown(s, at.body);
    };
    let count = s.below(3) + 1;
    for _ in 0..count {
        statement(s, at, inner)?;
    }
    s.stmt(StmtNode::Block(count))
}

#[cycle(stmts)]
fn statement(s: &mut Sketch, at: Standing, depth: u32) -> Result<(), NoMemory> {
    let Some(inner) = depth.checked_sub(1) else {
        return shown(s, at.body);
    };
    if at.breaks && s.once_in(6) {
        return broken(s, at);
    }
    if at.continues && s.once_in(6) {
        return continued(s, at);
    }
    let may_turn = at.body == COMPARED && at.loops < MOST_LOOPS;
    match s.below(18) {
        0 | 1 | 2 => block(s, at, inner),
        3 | 4 => branch(s, at, inner),
        5 | 6 | 7 if may_turn => turns(s, at, inner),
        8 | 9 => switch(s, at, inner),
        10 => returned(s, at),
        11 | 12 | 13 => atomic(s, at, inner),
        14 => cleared(s, at),
        _ => shown(s, at.body),
    }
}

/// The statements of a body: so many, and so deep.
pub(crate) fn statements(
    s: &mut Sketch,
    body: u32,
    count: u32,
    depth: u32,
) -> Result<(), NoMemory> {
    let at = Standing {
        body,
        breaks: false,
        continues: false,
        loops: 0,
        atomics: 0,
        atomics_to_break: 0,
        atomics_to_continue: 0,
    };
    for _ in 0..count {
        statement(s, at, depth)?;
    }
    if body == COMPARED {
        return s.stmt(StmtNode::Block(count));
    }
    number(s, body, result_type(body), EXPR_DEPTH)?;
    s.stmt(StmtNode::Return(true))?;
    s.stmt(StmtNode::Block(count.saturating_add(1)))
}
