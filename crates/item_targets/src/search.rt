//! What was found so far, and the names in force.

use elab_attempts::Scopes;
use nm_base::Pos;

/// The places that were found, in the order of the text, and the names in force behind them.
#[derive(Drop)]
pub(crate) struct Search {
    pub(crate) found: Vec<Pos>,
    pub(crate) scopes: Scopes,
}
