//! What was declared by then.

use crate::forms::Form;
use nm_base::Name;

/// A function, a task, or an implementation of an item, of the headers or of the module that is looked at, with the line that it handles.
#[derive(Drop)]
pub struct Declared {
    pub name: Name,
    pub item: Option<Name>,
    pub form: Form,
    pub line: Option<u32>,
    pub is_defined: bool,
}
