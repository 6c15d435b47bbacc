//! What an expression, a constant or a type is wired to, and what a body has so far.
#![tactic(auto)]

mod found;
mod laws;
mod rows;
mod scope;
mod work;

pub use found::{
    Based, FieldFound, Found, FrozenPlace, Sides, Signature, Start, Step, Stride, Target, Typed,
};
pub use laws::conversions_wrap;
pub use rows::worked_rows;
pub use scope::{
    Entry, Env, Item, Kind, Meaning, Struct, Tag, Unique, UniqueCount, is_named, is_tagged,
};
pub use work::{Aside, Asked, Work};
