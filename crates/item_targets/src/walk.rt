//! What does not change in a search through a module.

use crate::elements::Element;
use nesc_tree::Decl;
use std::alloc::Global;
use wire_elements::Early;

/// What is told of a module and its declarations.
#[derive(Clone, Copy)]
pub(crate) struct Walk<'a, R> {
    pub(crate) alloc: Global,
    pub(crate) early: &'a Early,
    pub(crate) elements: &'a [Element<'a>],
    pub(crate) reach: &'a R,
    pub(crate) decls: &'a [Decl],
}
