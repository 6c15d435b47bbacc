//! Macros, and tokens with their hide sets.

use crate::hide_sets::HideSet;
use nm_base::{List, Name, Token};

/// A token and the numbers of the macros that are not replaced in it any more.
#[derive(Debug, Drop)]
pub struct NumberedToken {
    pub token: Token,
    pub hide_set: HideSet,
}

/// A macro: an object-like one has no parameters, a function-like one a list of them, which may be empty.
#[derive(Debug, Drop)]
pub struct Macro {
    pub name: Name,
    pub parameters: Option<List<Name>>,
    pub replacement: List<Token>,
}

/// A macro with its number.
#[derive(Clone, Copy)]
pub struct NumberedMacro<'m> {
    pub number: u32,
    pub definition: &'m Macro,
}
