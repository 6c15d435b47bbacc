//! Uses of `unique` and `uniqueCount`.

use nm_base::{Name, Pos};

/// A use of `unique`, or of `uniqueCount` where it asks for a count: its text as it is spelled, and the place where it stands.
#[derive(Debug, Drop)]
pub struct Use {
    pub text: Name,
    pub at: Pos,
    pub is_count: bool,
}
