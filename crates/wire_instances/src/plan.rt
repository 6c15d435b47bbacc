//! Components as creation sees them, and instances.

use nm_base::{List, Pos};

/// What is wrong with a name or with the reference that it is, and where.
#[derive(Debug, Clone, Copy, PartialEq, Eq)]
pub enum Unmet {
    UnknownName(Pos),
    DuplicateName(Pos),
    ComponentLoop(Pos),
    ArgumentMismatch(Pos),
}

/// What a line of a configuration asks of creation.
#[derive(Debug, Clone, Copy)]
pub enum Line {
    /// Nothing, as a wire does.
    Nothing,
    /// It is refused, whatever has been created.
    Refused(Unmet),
    /// An instance of a component, with the number of arguments where the name stands behind `new`.
    Names {
        component: usize,
        given: Option<usize>,
        pos: Pos,
    },
}

/// A component: the number of its parameters where it is generic, what is wrong with its specification, and the lines of its
/// implementation where it is a configuration.
#[derive(Debug, Drop)]
pub struct Plan {
    pub generic: Option<usize>,
    pub refused: Option<Unmet>,
    pub lines: List<Line>,
}

/// The line by which an instance was made: the number of the instance in which it stands, and its place there.
#[derive(Debug, Clone, Copy, PartialEq, Eq)]
pub struct Maker {
    pub instance: usize,
    pub line: usize,
}

/// An instance: its component, its number among the instances of this component, and its maker, if any line named it.
#[derive(Debug, Clone, Copy, PartialEq, Eq)]
pub struct Made {
    pub component: usize,
    pub copy: usize,
    pub maker: Option<Maker>,
}
