//! What the file of an application declares.

/// An interface, or a module or configuration.
#[derive(Clone, Copy, PartialEq, Eq, Debug)]
pub enum UnitKind {
    Interface,
    Component,
}
