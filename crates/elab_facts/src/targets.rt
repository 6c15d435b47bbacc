//! Bodies that the wires reach.

use nesc_types::Constant;
use nm_base::{IntType, List};

/// What a target gets first: nothing, the value that the wires give its parameter, or the parameter of the call as one of this type.
#[derive(Clone, Copy)]
pub enum First {
    Nothing,
    Given(Constant),
    PassedOn(IntType),
}

/// A body that is called, and what it gets first.
#[derive(Clone, Copy)]
pub struct Target {
    pub body: u32,
    pub first: First,
}

/// The targets of one value of the parameter, or of all others, in order.
#[derive(Drop)]
pub struct Reached {
    pub value: Option<u16>,
    pub targets: List<Target>,
}
