//! The calls of a program, and what handlers and bare paths reach.
#![tactic(auto)]

mod building;
mod edges;
mod laws;
mod marks;
mod ranks;
mod refusals;
mod search;
mod table;
mod uses;

pub use building::graph;
pub use edges::{Call, CallGraph};
pub use laws::{each_body_rises, each_call_names_a_body, each_path_is_least};
pub use marks::reach;
pub use search::least_path;
pub use table::{callees, row};
pub use uses::{Use, uses_in};
