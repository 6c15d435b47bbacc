//! The heads of functions: types, parameters, the line of a handler, and bodies in the scope of their parameters.
#![tactic(auto)]

mod bodies;
mod comparisons;
mod handlers;
mod headings;
mod params;
mod shapes;

pub use bodies::{code_of, no_locals};
pub use comparisons::{same_flag, same_form, same_kind, same_signature, same_types};
pub use handlers::line;
pub use headings::{heading, signature};
pub use params::{bracket, parameter, passed_by};
pub use shapes::{Heading, Passed};
