//! Types from their parts, and new names, tags and fields.
#![tactic(auto)]

mod enums;
mod fields;
mod scope;
mod structs;
mod types;

pub use enums::enum_constant;
pub use fields::{no_fields, with_field_named};
pub use scope::{declares, declares_tag, look_up_tag};
pub use structs::end_struct;
pub use types::{
    array_length, arrays, enum_tagged, new_name, new_tag, plain_base, pointers, struct_tagged,
    type_named,
};
