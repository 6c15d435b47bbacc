//! Where declarations and statements stand.

/// Which jumps may stand in a statement, by the loops and the `switch` around it.
#[derive(Clone, Copy, PartialEq, Eq, Debug)]
pub enum Jumps {
    Neither,
    Break,
    BreakAndContinue,
}

/// Where declarations stand that are in no block.
#[derive(Clone, Copy, PartialEq, Eq, Debug)]
pub enum Site {
    Header,
    Module,
}
