//! Places and values, and what is found on the way to them.

use nesc_core::{CoreExpr, CoreType, Place};
use nm_base::{IntType, Pos};
use std::collections::VecDeque;

/// A value with its type.
#[derive(Drop)]
pub struct Typed {
    pub expr: CoreExpr,
    pub ty: CoreType,
}

/// Where a frozen place begins; a pointer is in a local, which is read at this place of the text.
#[derive(Drop)]
pub enum Start {
    Object(u32),
    Local(u32),
    Behind(u32, Pos, CoreType),
}

/// A step from a place to a part of it: the element whose index is in a local, which is read at this place of the text, the
/// element with a number, or a field.
#[derive(Clone, Copy)]
pub enum Step {
    Kept(u32, Pos),
    Element(u32),
    Field(u32),
}

/// A place whose evaluation reads locals alone.
#[derive(Drop)]
pub struct FrozenPlace {
    pub start: Start,
    pub steps: Vec<Step>,
}

/// What an expression is. With a place stand the types of the indexes in it, the last first, its type, and whether it is
/// const; a copy is a struct assignment: what it does, and the place and the struct that it stored to.
#[derive(Drop)]
pub enum Found {
    Place(Place, VecDeque<IntType>, CoreType, bool),
    Value(Typed),
    Copy(Vec<CoreExpr>, FrozenPlace, u32),
}

/// A place with the types of its indexes, the last first, and its own type.
#[derive(Drop)]
pub struct Target {
    pub place: Place,
    pub indexes: VecDeque<IntType>,
    pub ty: CoreType,
}

/// What is compared, at one type.
#[derive(Drop)]
pub struct Sides {
    pub at_type: IntType,
    pub first: CoreExpr,
    pub second: CoreExpr,
}

/// What a pointer moves over: what it points to, and the size of that in bytes.
#[derive(Drop)]
pub struct Stride {
    pub part: CoreType,
    pub bytes: u32,
}

/// A field that was looked up.
#[derive(Drop)]
pub struct FieldFound {
    pub number: u32,
    pub ty: CoreType,
    pub is_const: bool,
}

/// A function that is called.
#[derive(Drop)]
pub struct Signature {
    pub body: u32,
    pub params: Vec<CoreType>,
    pub result: CoreType,
}

/// A type before its stars, with whether it is const.
#[derive(Drop)]
pub struct Based {
    pub ty: CoreType,
    pub is_const: bool,
}
