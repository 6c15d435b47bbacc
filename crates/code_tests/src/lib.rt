//! Tests of selection and layout, in a crate of their own: a crate with tests is proved twice.
#![tactic(auto)]

#[cfg(test)]
mod layout;
#[cfg(test)]
mod selection;
