//! Expressions of all forms, drawn at random.

use crate::bodies::{
    ARRAY, COMPARED, POINTER, STRUCT, local_type, numbers, parameters, result_type,
};
use crate::form::Form;
use crate::node::{ExprNode, PlaceNode};
use crate::sketch::Sketch;
use nesc_core::{BinOp, UnOp};
use nm_base::{IntType, NoMemory, wrap};

/// The port that expressions read.
const READ: u16 = 0x0132;

fn is_promoted(t: IntType) -> bool {
    !matches!(t, IntType::I8 | IntType::U8)
}

// The variable of the program that holds a number of the type.
fn object_of(t: IntType) -> u32 {
    match t {
        IntType::U16 => 0,
        IntType::U8 => 4,
        IntType::U32 => 5,
        IntType::I16 => 6,
        IntType::I8 => 7,
        IntType::I32 => 8,
    }
}

fn constant(s: &mut Sketch, t: IntType) -> Result<(), NoMemory> {
    let x = if s.once_in(3) {
        i64::from(s.word())
    } else {
        i64::from(s.below(9)) - 4
    };
    s.expr(ExprNode::Const(t, wrap(t, x)))
}

// A local of the body that holds a number of the type.
fn local(s: &mut Sketch, body: u32, t: IntType) -> Option<u32> {
    for k in 0..numbers(body) {
        if local_type(body, k) == t && s.once_in(2) {
            return Some(k);
        }
    }
    None
}

// A place that holds a number of the type, for which nothing is evaluated.
fn plain_place(s: &mut Sketch, body: u32, t: IntType) -> Result<(), NoMemory> {
    if t == IntType::U16 && s.once_in(3) {
        s.place(PlaceNode::Object(3))?;
        return s.place(PlaceNode::Field(1));
    }
    if t == IntType::U16 && body == COMPARED && s.once_in(3) {
        s.place(PlaceNode::Local(STRUCT))?;
        return s.place(PlaceNode::Field(1));
    }
    match local(s, body, t) {
        Some(x) => s.place(PlaceNode::Local(x)),
        None => s.place(PlaceNode::Object(object_of(t))),
    }
}

fn leaf(s: &mut Sketch, body: u32, t: IntType) -> Result<(), NoMemory> {
    match s.below(4) {
        0 => constant(s, t),
        1 => {
            s.expr(ExprNode::In(READ))?;
            s.expr(ExprNode::Convert(t))
        }
        _ => {
            plain_place(s, body, t)?;
            s.expr(ExprNode::Read)
        }
    }
}

// A pointer to a byte, for which nothing is evaluated.
fn plain_pointer(s: &mut Sketch, body: u32) -> Result<(), NoMemory> {
    match s.below(4) {
        0 => {
            s.place(PlaceNode::Object(2))?;
            s.expr(ExprNode::Read)
        }
        1 if body == COMPARED => {
            s.place(PlaceNode::Local(POINTER))?;
            s.expr(ExprNode::Read)
        }
        2 => {
            let k = i64::from(s.below(2));
            s.place(PlaceNode::Object(1))?;
            s.expr(ExprNode::Const(IntType::I16, k))?;
            s.place(PlaceNode::Index)?;
            s.expr(ExprNode::Addr)
        }
        _ => {
            s.place(PlaceNode::Object(4))?;
            s.expr(ExprNode::Addr)
        }
    }
}

#[cycle(exprs)]
fn pointer(s: &mut Sketch, body: u32, depth: u32) -> Result<(), NoMemory> {
    let Some(inner) = depth.checked_sub(1) else {
        return plain_pointer(s, body);
    };
    match s.below(6) {
        0 => {
            pointer(s, body, inner)?;
            number(s, body, IntType::I16, inner)?;
            s.expr(ExprNode::Offset)
        }
        1 => {
            s.place(PlaceNode::Object(2))?;
            pointer(s, body, inner)?;
            s.expr(ExprNode::Assign)
        }
        2 if s.once_in(3) => {
            s.met(Form::Null)?;
            s.place(PlaceNode::Object(2))?;
            s.expr(ExprNode::Null)?;
            s.expr(ExprNode::Assign)?;
            s.expr(ExprNode::Comma)
        }
        _ => plain_pointer(s, body),
    }
}

// An index, which is mostly 0 or 1.
#[cycle(exprs)]
fn index(s: &mut Sketch, body: u32, depth: u32) -> Result<(), NoMemory> {
    let Some(inner) = depth.checked_sub(1) else {
        return s.expr(ExprNode::Const(IntType::I16, 1));
    };
    if s.once_in(12) {
        let t = s.number_type();
        return number(s, body, t, inner);
    }
    let t = s.promoted();
    number(s, body, t, inner)?;
    s.expr(ExprNode::Const(t, 1))?;
    s.expr(ExprNode::Bin(BinOp::And, t))
}

// What a pointer points to: mostly a variable.
#[cycle(exprs)]
fn behind_pointer(s: &mut Sketch, body: u32, depth: u32) -> Result<(), NoMemory> {
    s.met(Form::Deref)?;
    match depth.checked_sub(1) {
        Some(inner) if s.once_in(6) => pointer(s, body, inner)?,
        _ => {
            s.place(PlaceNode::Object(4))?;
            s.expr(ExprNode::Addr)?;
        }
    }
    s.expr(ExprNode::Comma)?;
    s.place(PlaceNode::Byte)
}

#[cycle(exprs)]
fn byte_place(s: &mut Sketch, body: u32, depth: u32) -> Result<(), NoMemory> {
    let Some(inner) = depth.checked_sub(1) else {
        return plain_place(s, body, IntType::U8);
    };
    match s.below(6) {
        0 => behind_pointer(s, body, inner),
        1 if body == COMPARED => {
            s.place(PlaceNode::Local(ARRAY))?;
            index(s, body, inner)?;
            s.place(PlaceNode::Index)
        }
        2 if body == COMPARED => {
            s.place(PlaceNode::Local(STRUCT))?;
            s.place(PlaceNode::Field(0))
        }
        3 => {
            s.place(PlaceNode::Object(3))?;
            s.place(PlaceNode::Field(0))
        }
        4 => {
            s.place(PlaceNode::Object(1))?;
            index(s, body, inner)?;
            s.place(PlaceNode::Index)
        }
        _ => plain_place(s, body, IntType::U8),
    }
}

// A place that holds a number of the type.
#[cycle(exprs)]
fn place(s: &mut Sketch, body: u32, t: IntType, depth: u32) -> Result<(), NoMemory> {
    match depth.checked_sub(1) {
        Some(inner) if t == IntType::U8 => byte_place(s, body, inner),
        _ => plain_place(s, body, t),
    }
}

// The second operand of an operator at the type: a count has a type of its own, and few divisors are 0.
#[cycle(exprs)]
fn second(s: &mut Sketch, body: u32, op: BinOp, t: IntType, depth: u32) -> Result<(), NoMemory> {
    let Some(inner) = depth.checked_sub(1) else {
        return s.expr(ExprNode::Const(t, 3));
    };
    if matches!(op, BinOp::Shl | BinOp::Shr) {
        let count = s.promoted();
        return number(s, body, count, inner);
    }
    number(s, body, t, inner)?;
    if matches!(op, BinOp::Div | BinOp::Rem) && !s.once_in(12) {
        s.expr(ExprNode::Const(t, 1))?;
        s.expr(ExprNode::Bin(BinOp::Or, t))?;
    }
    Ok(())
}

#[cycle(exprs)]
fn binary(s: &mut Sketch, body: u32, t: IntType, depth: u32) -> Result<(), NoMemory> {
    let Some(inner) = depth.checked_sub(1) else {
        return leaf(s, body, t);
    };
    let compares = t == IntType::I16 && s.once_in(2);
    let op = if compares {
        s.comparison()
    } else {
        s.operator()
    };
    let at = if compares { s.promoted() } else { t };
    number(s, body, at, inner)?;
    second(s, body, op, at, inner)?;
    s.expr(ExprNode::Bin(op, at))
}

/// A number of 16 bits with a sign, mostly 0 or 1.
#[cycle(exprs)]
pub(crate) fn test(s: &mut Sketch, body: u32, depth: u32) -> Result<(), NoMemory> {
    let Some(inner) = depth.checked_sub(1) else {
        return leaf(s, body, IntType::I16);
    };
    let t = s.number_type();
    match s.below(5) {
        0 => {
            number(s, body, t, inner)?;
            s.expr(ExprNode::Un(UnOp::IsZero, t))
        }
        1 => {
            number(s, body, t, inner)?;
            pointer(s, body, inner)?;
            s.expr(ExprNode::And)
        }
        2 => {
            test(s, body, inner)?;
            number(s, body, t, inner)?;
            s.expr(ExprNode::Or)
        }
        3 => {
            pointer(s, body, inner)?;
            pointer(s, body, inner)?;
            s.expr(ExprNode::Distance)
        }
        _ => binary(s, body, IntType::I16, inner),
    }
}

#[cycle(exprs)]
fn update(s: &mut Sketch, body: u32, t: IntType, depth: u32) -> Result<(), NoMemory> {
    let Some(inner) = depth.checked_sub(1) else {
        return leaf(s, body, t);
    };
    let op = s.operator();
    let at = if is_promoted(t) { t } else { s.promoted() };
    place(s, body, t, inner)?;
    second(s, body, op, at, inner)?;
    let gives_old = s.once_in(2);
    s.expr(ExprNode::Update(op, at, gives_old))
}

// A body that gives the type and may be called, if there is one.
fn callee(s: &mut Sketch, body: u32, t: IntType) -> Option<u32> {
    let mut found = None;
    for g in 1..body {
        if result_type(g) == t && (found.is_none() || s.once_in(2)) {
            found = Some(g);
        }
    }
    found
}

fn of_arguments(count: u32) -> Form {
    match count {
        0 => Form::NoArgument,
        1 => Form::OneArgument,
        2 => Form::TwoArguments,
        3 => Form::ThreeArguments,
        4 => Form::FourArguments,
        _ => Form::FiveArguments,
    }
}

fn of_result(t: IntType) -> Form {
    match t {
        IntType::I8 => Form::GivesI8,
        IntType::U8 => Form::GivesU8,
        IntType::I16 => Form::GivesI16,
        IntType::U16 => Form::GivesU16,
        IntType::I32 => Form::GivesI32,
        IntType::U32 => Form::GivesU32,
    }
}

#[cycle(exprs)]
fn call(s: &mut Sketch, body: u32, t: IntType, depth: u32) -> Result<(), NoMemory> {
    let Some(inner) = depth.checked_sub(1) else {
        return leaf(s, body, t);
    };
    let Some(g) = callee(s, body, t) else {
        return leaf(s, body, t);
    };
    let count = parameters(g);
    s.met(of_arguments(count))?;
    s.met(of_result(t))?;
    for k in 0..count {
        number(s, body, local_type(g, k), inner)?;
    }
    s.expr(ExprNode::Call(g, count))?;
    s.expr(ExprNode::Comma)?;
    s.expr(ExprNode::Comma)
}

fn post(s: &mut Sketch) -> Result<(), NoMemory> {
    s.met(Form::Post)?;
    s.expr(ExprNode::Post(0))?;
    s.expr(ExprNode::Comma)
}

/// A number of the type.
#[cycle(exprs)]
pub(crate) fn number(s: &mut Sketch, body: u32, t: IntType, depth: u32) -> Result<(), NoMemory> {
    let Some(inner) = depth.checked_sub(1) else {
        return leaf(s, body, t);
    };
    match s.below(12) {
        0 if is_promoted(t) => {
            let op = if s.once_in(2) { UnOp::Neg } else { UnOp::Not };
            number(s, body, t, inner)?;
            s.expr(ExprNode::Un(op, t))
        }
        1 | 2 if is_promoted(t) => binary(s, body, t, inner),
        3 if t == IntType::I16 => test(s, body, inner),
        4 => {
            let of = s.number_type();
            number(s, body, of, inner)?;
            s.expr(ExprNode::Convert(t))
        }
        5 => {
            test(s, body, inner)?;
            number(s, body, t, inner)?;
            number(s, body, t, inner)?;
            s.expr(ExprNode::Cond)
        }
        6 => {
            place(s, body, t, inner)?;
            number(s, body, t, inner)?;
            s.expr(ExprNode::Assign)
        }
        7 => update(s, body, t, inner),
        8 | 9 => call(s, body, t, inner),
        10 => {
            let of = s.number_type();
            number(s, body, of, inner)?;
            number(s, body, t, inner)?;
            s.expr(ExprNode::Comma)
        }
        11 if t == IntType::U8 => post(s),
        11 if t == IntType::U16 => {
            pointer(s, body, inner)?;
            s.expr(ExprNode::Convert(t))
        }
        _ => {
            place(s, body, t, inner)?;
            s.expr(ExprNode::Read)
        }
    }
}
