//! What is so of each kernel: its calls have no cycle, its frames are little larger, and without tasks bodies stay as they are.
#![tactic(auto)]

mod laws;

pub use laws::{each_frame_grows_little, kernel_has_no_cycle, taskless_bodies_stay};
