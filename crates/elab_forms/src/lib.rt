//! Forms whose parts are known, and what is told to a body.
#![tactic(auto)]

mod constants;
mod ends;
mod forms;
mod items;
mod structs;

pub use constants::{chosen_constant, computed, int_constant, prefixed_constant};
pub use ends::ended_number;
pub use forms::{
    Told, fits, goes_on_evaluated, is_const_at, null, on_constants, resolved, second_evaluated,
    sized_found, starred, third_evaluated, unique_count, unique_found, unique_number,
    uniques_found, with_field,
};
pub use items::{called_item, no_parameter};
pub use structs::{declare_constant, tagged};
