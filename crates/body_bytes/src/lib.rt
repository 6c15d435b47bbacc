//! What the code of a program's bodies takes of the memory, beside the nodes of the program.
#![tactic(auto)]

mod laws;

pub use laws::bodies_are_small;
