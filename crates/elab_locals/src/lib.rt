//! Declarations in bodies: locals with their types and initial values, and the names of types.
#![tactic(auto)]

mod declarations;
mod initials;
mod lists;
mod locals;

pub use declarations::{declaration, declares, syntax};
pub use initials::initials_of;
pub use lists::{add_stmts, evaluated};
