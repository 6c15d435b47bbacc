//! Whether bodies, nodes and objects of a program are numbers of 32 bits.
#![tactic(auto)]

mod counting;

pub use counting::is_counted;
