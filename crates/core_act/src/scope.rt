//! Where a body is evaluated.

use nesc_core::{CoreType, Program};
use std::alloc::Global;

/// Where a body is evaluated: its program, the types of its locals, how many calls deep it may still go, and how many turns
/// each loop may make.
#[derive(Clone, Copy)]
pub(crate) struct Scope<'a> {
    pub(crate) alloc: Global,
    pub(crate) program: &'a Program,
    pub(crate) types: &'a [CoreType],
    pub(crate) depth: usize,
    pub(crate) turns: u32,
}
