//! Where expressions stand.

use lower_expr::Spot;
use nesc_core::{CoreType, Program};

/// Where expressions stand: in a body of the program whose locals have these types and spots. The checks are the types that the
/// program's bodies dereference, in the order of their first dereference.
#[derive(Clone, Copy)]
pub struct Scope<'a> {
    pub program: &'a Program,
    pub checks: &'a [CoreType],
    pub locals: &'a [CoreType],
    pub spots: &'a [Spot],
}
