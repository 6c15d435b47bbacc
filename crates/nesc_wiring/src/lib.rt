//! The wiring of an application from its files: its instances and pairs, or the first refusal, from reading to what instances lack.
#![tactic(auto)]

mod loading;
mod teller;
mod wiring;

pub use loading::{inside, load};
pub use wiring::Wiring;
