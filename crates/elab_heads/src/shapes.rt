//! What a head declares, and how a parameter is passed.

use elab_facts::Form;
use elab_meaning::{Entry, Tag};
use nesc_core::CoreType;

/// What a head declares, with the names and tags of the scope of its parameters.
#[derive(Drop)]
pub struct Heading {
    pub form: Form,
    pub names: Vec<Entry>,
    pub tags: Vec<Tag>,
}

/// The type of a parameter in the function, and whether it is const there.
#[derive(Drop)]
pub struct Passed {
    pub ty: CoreType,
    pub is_const: bool,
}
