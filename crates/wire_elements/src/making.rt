//! What an instance of a generic component is made from.

use crate::early::Early;
use nesc_tree::{Elem, GenericParam};
use nm_base::Pos;

/// What an instance is made from: what its maker and it are told, the place of its component's name, that of the line that makes it, and
/// the elements and parameters of its component.
#[derive(Drop)]
pub struct Making<'a> {
    pub maker: &'a Early,
    pub made: &'a Early,
    pub at: Pos,
    pub line: Pos,
    pub elems: &'a [Elem],
    pub params: &'a [GenericParam],
}
