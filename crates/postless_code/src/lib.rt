//! Programs whose lowered code posts nothing.
#![tactic(auto)]

mod law;

pub use law::kernels_post_nothing;
