//! What is told of the elements of instances, and what the parameters of generic components stand for.
#![tactic(auto)]

mod arguments;
mod early;
mod elements;
mod headers;
mod instances;
mod making;
mod parameters;
mod scoped;
mod seen;
mod told;

pub use early::Early;
pub use headers::{headers_declared, hides};
pub use instances::{made_by, specified};
pub use making::Making;
pub use seen::Seen;
