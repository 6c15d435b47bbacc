//! Pieces of wired statements: parts of locals and variables, statements of the core from their parts, scopes, labels, and what stands in a statement.
#![tactic(auto)]

mod labels;
mod parts;
mod pieces;
mod places;
mod scopes;
mod shapes;

pub use labels::{Labelled, add_code, add_label, no_labels, switch_on, unlabelled};
pub use parts::{Part, Root, Step, part_of};
pub use pieces::{atomic, behind, block_of, branch, empty, eval, looped, one_of, return_of};
pub use places::target;
pub use scopes::{Outer, enter, leave};
pub use shapes::{Label, block_in, declaration_in, label_in};
