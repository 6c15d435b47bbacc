//! The reader of phrases, and types, declarators and fields read by it.
#![tactic(auto)]

mod enums;
mod fields;
mod reader;
mod stop;
mod type_parts;
mod types;

pub use reader::{Reader, expect, name};
pub use stop::{Found, Stop};
pub use types::{begins_type, is_comma};
