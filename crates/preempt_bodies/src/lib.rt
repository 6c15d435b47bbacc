//! Bodies that meet the open law run as a run of the source, with interrupts at every slot.
#![tactic(auto)]

mod law;
mod rows;

pub use law::{
    answers_words, entries_fall_outside, idle_runs, laid_images_are_built, runs_as_source, survives,
};
pub use rows::worked_rows;
