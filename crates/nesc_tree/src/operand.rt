//! Expressions, arguments and types that were read, with what reading goes on by.

use crate::declarations::Init;
use crate::tree::{Declarator, EnumItem, Expr, FieldGroup, TypeSpec};
use nm_base::{List, Pos};

/// An expression that was read, where it starts, its level of precedence and its height in levels.
#[derive(Drop)]
pub struct Operand {
    pub expr: Expr,
    pub from: Pos,
    pub level: u8,
    pub height: usize,
}

/// The arguments of a call, and the greatest of their heights.
#[derive(Drop)]
pub struct Arguments {
    pub exprs: List<Expr>,
    pub height: usize,
}

/// A type that was read, where it starts, and its height.
#[derive(Drop)]
pub struct CastType {
    pub ty: TypeSpec,
    pub from: Pos,
    pub height: usize,
}

/// Whether `const` is among some qualifiers, and where the first of them stands.
#[derive(Clone, Copy)]
pub struct Qualifiers {
    pub has_const: bool,
    pub from: Option<Pos>,
}

/// The dimensions of an array, and the greatest of their heights.
#[derive(Drop)]
pub struct Dims {
    pub exprs: List<Expr>,
    pub height: usize,
}

/// A declarator, and its height.
#[derive(Drop)]
pub struct Declared {
    pub declarator: Declarator,
    pub height: usize,
}

/// Declarators with commas between them, and the greatest of their heights.
#[derive(Drop)]
pub struct Declarators {
    pub list: List<Declarator>,
    pub height: usize,
}

/// Fields that share a type, and the greatest height of the type and its declarators.
#[derive(Drop)]
pub struct Grouped {
    pub group: FieldGroup,
    pub height: usize,
}

/// The fields of a struct definition, and the height of that definition.
#[derive(Drop)]
pub struct Fields {
    pub groups: List<FieldGroup>,
    pub height: usize,
}

/// A constant of an enum, and the height of its value.
#[derive(Drop)]
pub struct Item {
    pub item: EnumItem,
    pub height: usize,
}

/// The constants of an enum, the greatest of their heights, and whether a comma is behind the last one.
#[derive(Drop)]
pub struct Items {
    pub items: List<EnumItem>,
    pub height: usize,
    pub ended: bool,
}

/// Initialisers with commas between them, and whether a comma is behind the last one.
#[derive(Drop)]
pub struct Inits {
    pub list: List<Init>,
    pub ended: bool,
}

/// How wide an integer type is.
#[derive(Clone, Copy, PartialEq, Eq, Debug)]
pub enum Width {
    Char,
    Short,
    Long,
}
