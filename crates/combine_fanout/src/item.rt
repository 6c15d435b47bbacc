//! What all calls of a dispatch function have in common.

use nm_base::Pos;

/// A called item: how many parameters it has, whether it has no result, the function that combines two results, and the place of its
/// first call.
#[derive(Clone, Copy, Debug)]
pub(crate) struct Item {
    pub params: u32,
    pub is_void: bool,
    pub combine: Option<u32>,
    pub at: Pos,
}
