//! What a `for` begins with.

use nesc_tree::{Expr, ForStart};
use nm_base::Pos;

/// The test and the step of a `for`.
#[derive(Drop)]
pub struct ForTests {
    pub test: Option<Expr>,
    pub step: Option<Expr>,
}

/// What stands between the parentheses of a `for`, and the position of its first token.
#[derive(Drop)]
pub struct ForHead {
    pub start: ForStart,
    pub test: Option<Expr>,
    pub step: Option<Expr>,
    pub pos: Pos,
}
