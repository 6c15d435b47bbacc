//! Expressions lowered and run: what their code writes in the open machine, beside what a compiler of C computes.
#![tactic(auto)]

mod laws;
#[cfg(test)]
mod tests;

pub use laws::form_is_decided;
