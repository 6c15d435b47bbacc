//! Levels of precedence, from C99 6.5.
//!
//! An expression of a level is one of every lower level too.

pub const COMMA: u8 = 0;

pub const ASSIGNMENT: u8 = 1;

pub const CONDITIONAL: u8 = 2;

pub const LOGICAL_OR: u8 = 3;

pub const LOGICAL_AND: u8 = 4;

pub const BIT_OR: u8 = 5;

pub const BIT_XOR: u8 = 6;

pub const BIT_AND: u8 = 7;

pub const EQUALITY: u8 = 8;

pub const RELATIONAL: u8 = 9;

pub const SHIFT: u8 = 10;

pub const ADDITIVE: u8 = 11;

pub const MULTIPLICATIVE: u8 = 12;

pub const CAST: u8 = 13;

pub const UNARY: u8 = 14;

pub const POSTFIX: u8 = 15;
