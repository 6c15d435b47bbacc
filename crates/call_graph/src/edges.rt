//! Calls, and what handlers and bare paths reach.

use nm_base::Pos;

/// A call of a body, at this place, and whether it lies in an atomic statement of the caller.
#[derive(Clone, Copy, PartialEq, Eq, Debug)]
pub struct Call {
    pub from: u32,
    pub to: u32,
    pub pos: Pos,
    pub atomic: bool,
}

/// All calls by body and node; which bodies handlers reach; and to which bodies a chain of calls outside atomic statements
/// leads from the boot body or a task.
#[derive(Debug, Drop)]
pub struct CallGraph {
    pub calls: Vec<Call>,
    pub is_async: Vec<bool>,
    pub bare: Vec<bool>,
}
