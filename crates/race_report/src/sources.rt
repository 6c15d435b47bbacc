//! What the report is made from.

use call_graph::{CallGraph, Use};
use least_paths::Search;
use nesc_core::Program;
use nm_base::List;

/// A program and its graph; by body its accesses and calls; what was found from the bodies of handlers by all calls, and from
/// the boot body and those of the tasks by calls outside every atomic statement; by object the first body that handlers reach
/// and that touches it.
#[derive(Drop)]
pub(crate) struct Sources<'a> {
    pub p: &'a Program,
    pub g: &'a CallGraph,
    pub uses: Vec<List<Use<'a>>>,
    pub handlers: Search,
    pub base: Search,
    pub firsts: Vec<Option<u32>>,
}
