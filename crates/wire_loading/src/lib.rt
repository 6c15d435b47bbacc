//! The files of an application: each is expanded and parsed where it is needed first.
#![tactic(auto)]

mod application;
mod loader;
mod needs;
mod place;
mod stopped;
mod texts;
mod unit_parser;

pub use application::read_application;
pub use loader::Loader;
pub use stopped::Stopped;
pub use unit_parser::UnitParser;
