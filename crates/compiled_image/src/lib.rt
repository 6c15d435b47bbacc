//! Images of compiled bodies: the mote does what the middle code does, with interrupts at every slot.
#![tactic(auto)]

mod law;

pub use law::{
    atomic_runs, compiled_images_run, laid_programs_run, statements_are_pieces, tables_are_marked,
};
