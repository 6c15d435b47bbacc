//! That lowered code keeps all rules of middle code in the states that the machine reaches.
#![tactic(auto)]

mod laws;

pub use laws::{
    accesses_are_of_data, all_rules_are_kept, frames_are_kept, objects_are_touched,
    posts_name_tasks,
};
