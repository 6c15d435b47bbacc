//! The wired program of an application from its files, or why it has none.
#![tactic(auto)]

mod application;
mod laws;
mod reading;

pub use application::Application;
pub use laws::one_application;
pub use reading::read_program;
