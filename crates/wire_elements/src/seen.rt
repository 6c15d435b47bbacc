//! What is seen of an instance.

use wire_pairs::{ElementFacts, LineFacts};
use wire_scopes::Scope;

/// What is seen of an instance: its scope, and what is told of its elements and of its lines.
#[derive(Drop)]
pub struct Seen {
    pub scope: Scope,
    pub elements: Vec<ElementFacts>,
    pub lines: Vec<LineFacts>,
}
