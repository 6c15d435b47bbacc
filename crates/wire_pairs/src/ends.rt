//! Ends of wires, and pairs of them.

use nm_base::Pos;

/// An element of an instance, with the constant of its parameter.
#[derive(Debug, Clone, Copy, PartialEq, Eq)]
pub struct End {
    pub instance: usize,
    pub element: usize,
    pub param: Option<u16>,
}

/// Two linked ends, in the direction in which calls go, and the place of their wire. A parameter that is left out at both is passed on.
#[derive(Debug, Clone, Copy, PartialEq, Eq)]
pub struct Pair {
    pub from: End,
    pub to: End,
    pub pos: Pos,
}

/// An element that an end names: one of a component, or one of the configuration's own specification.
#[derive(Debug, Clone, Copy)]
pub struct Spot {
    pub instance: usize,
    pub element: usize,
    pub own: bool,
}

/// What an end names: an element, or an instance whose element is left out.
#[derive(Debug, Clone, Copy)]
pub enum NamedEnd {
    Element(Spot),
    Whole(usize),
}

/// How a wire joins its ends: `->` or `=`.
#[derive(Debug, Clone, Copy, PartialEq, Eq)]
pub enum Sign {
    Arrow,
    Equals,
}
