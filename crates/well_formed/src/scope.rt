//! Where expressions stand.

use nesc_core::{CoreType, Layout, Program};

/// Where expressions stand: in a body of the program, whose structs have these layouts and whose locals these types.
#[derive(Clone, Copy)]
pub(crate) struct Scope<'a> {
    pub(crate) program: &'a Program,
    pub(crate) layouts: &'a [Layout],
    pub(crate) locals: &'a [CoreType],
}
