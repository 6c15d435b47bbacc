//! Images of nesC programs: the mote does what the source does, with interrupts at every slot.
#![tactic(auto)]

mod law;

pub use law::{
    behaviour_keeps_functions, behaviour_keeps_laws, lines_are_laid, lowered_code_is_selected,
    ordered_code_stands, program_images_run, roots_meet_their_laws,
};
