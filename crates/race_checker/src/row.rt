//! A row of the race report.

use nm_base::{Path, Pos};

/// An access of a body that may race: the object and the body by number, the access's node in the body and its place, the
/// least chain of calls to the body of which none lies in an atomic statement, and the least chain from a handler to a body
/// that touches the object.
#[derive(Debug, Drop)]
pub struct Row {
    pub object: u32,
    pub body: u32,
    pub node: u32,
    pub pos: Pos,
    pub path: Path,
    pub async_path: Path,
}
