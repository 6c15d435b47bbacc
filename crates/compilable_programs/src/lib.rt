//! Which programs can be compiled, and that an image that was laid out has room on the mote.
#![tactic(auto)]

mod compiling;
mod laws;
mod measuring;

pub use compiling::is_compilable;
pub use laws::laid_images_have_room;
