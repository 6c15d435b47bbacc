//! How much bodies weigh: their nodes, the levels of their expressions, and their frames, each counted up to a bound.
#![tactic(auto)]

mod bound;
mod frames;
mod layouts;
mod level_count;
mod node_count;

pub use bound::BOUND;
pub use frames::weighed;
pub use layouts::{all_layouts, size_among};
pub use level_count::{levels, nested_atomics};
pub use node_count::{nodes, stmt_nodes};
