//! Variables of modules, and the boot function.

use nesc_core::CoreType;
use nm_base::{Name, Pos};

/// A variable of a module.
#[derive(Drop)]
pub struct Variable {
    pub name: Name,
    pub ty: CoreType,
    pub norace: bool,
}

/// The number of the boot function's body, and the place of its name.
#[derive(Clone, Copy)]
pub struct Boot {
    pub body: u32,
    pub at: Pos,
}
