//! Values of wired expressions: conversions, sizes, operators before a value, logical operators and comma.
#![tactic(auto)]

mod arithmetic;
mod carried;
mod choices;
mod found;
mod pointers;
mod sizes;

pub use arithmetic::{address, bin, complement, is_zero, minus, negated, plus, promoted_value};
pub use carried::{boxed_pair, fitting, without_type};
pub use choices::{both, comma, either};
pub use found::{
    a_target, assignable, bad_type, converted, copied, int_of, integer, integers, is_void,
    not_constant, number, pointed, pointed_by_both, scalar, struct_number, to_int, unknown_name,
    value_found,
};
pub use pointers::{compared_numbers, compared_pointers, offset};
pub use sizes::{MAX_SIZE, layout_in, pointer_to, size, size_behind, sized, small, stride};
