//! That lowered code keeps the rules of middle code in the states that the machine reaches.
#![tactic(auto)]

mod laws;

pub use laws::{
    accesses_are_left, accesses_stay, actions_are_done, divisors_are_other, statements_nest,
};
