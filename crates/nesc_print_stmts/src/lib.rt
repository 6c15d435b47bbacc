//! Declarations and statements as words that are printed.
#![tactic(auto)]

mod declarations;
mod initialisers;
mod statements;

pub use declarations::{put_attrs, put_item, put_params};
pub use statements::{put_decl, put_decls};
