//! What finding calls and paths rests on.

ghost use Rattle.call_graph.specs.Least.{EachPathIsLeast};
ghost use Rattle.call_graph.specs.Named.{EachCallNamesABody};
ghost use Rattle.call_graph.specs.Uses.{EachBodyRises};

/// The accesses and calls of a body stand in the order of their nodes, each node once.
pub fn each_body_rises()
    ensures { EachBodyRises }
{}

/// The path that goes on with the least body each time is the shortest, and the least of these.
pub fn each_path_is_least()
    ensures { EachPathIsLeast }
{}

/// Each call in a well-formed program names a body of it.
pub fn each_call_names_a_body()
    ensures { EachCallNamesABody }
{}
