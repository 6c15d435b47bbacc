//! The implementations for one value of the parameter.

use nm_base::List;

/// The bodies that are called for one value of the parameter, in order; None stands for all other values, and for an item without a
/// parameter.
#[derive(Debug, Drop)]
pub struct Case {
    pub value: Option<u16>,
    pub bodies: List<u32>,
}
