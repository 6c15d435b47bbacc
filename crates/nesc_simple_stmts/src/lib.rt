//! The readers of statements that no statement stands in, and of the parts of others.
#![tactic(auto)]

mod heads;
mod parts;
mod simple;

pub use heads::{ForHead, ForTests};
pub use parts::{
    atomic_stmt, block_stmt, boxed, case_stmt, default_stmt, do_stmt, for_stmt, head_of, if_stmt,
    switch_stmt, while_stmt,
};
pub use simple::{
    begins_label, begins_stmt, break_out, case_value, condition, deepens, do_test, empty, eval,
    for_tests, give_answer, go_on, in_switch, is_label, no_start, value_start,
};
