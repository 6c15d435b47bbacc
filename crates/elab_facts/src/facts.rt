//! Items of the elements of an instance.

use crate::forms::Form;
use crate::targets::{Reached, Target};
use nm_base::{List, Name};

/// An item of an element of an instance. Its form has the parameter of the element as its bracket; calls come out where a used command is
/// called or a provided event is signalled. `one` is the one target of a call without a parameter, and `combine` names the function that
/// combines two results (nesC 1.3 Reference, 4 to 6 and 9).
#[derive(Drop)]
pub struct Fact {
    pub element: Name,
    pub name: Name,
    pub form: Form,
    pub is_event: bool,
    pub comes_out: bool,
    pub one: Option<Target>,
    pub cases: List<Reached>,
    pub combine: Option<Name>,
}
