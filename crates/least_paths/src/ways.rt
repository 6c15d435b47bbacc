//! What a search found.

/// How a search came to a body: it is a root, or this body calls it.
#[derive(Clone, Copy, PartialEq, Eq, Debug)]
pub enum Way {
    Root,
    CalledBy(u32),
}

/// The bodies that a search found, in the order of their least chains of calls, and by body how it came to it.
#[derive(Debug, Drop)]
pub struct Search {
    pub order: Vec<u32>,
    pub ways: Vec<Option<Way>>,
}
