//! How statements are left.

/// How a statement is left.
#[derive(Clone, Copy, PartialEq, Eq, Debug)]
pub enum Flow {
    On,
    Broke,
    Continued,
    Gave(i64),
}
