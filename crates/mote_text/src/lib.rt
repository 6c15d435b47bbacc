//! The texts of images, schedules and traces.
#![tactic(auto)]

mod cells;
mod digits;
mod end_line;
mod event_line;
mod image_line;
mod image_text;
mod laws;
mod line;
mod lines;
mod reader;
mod rows;
mod schedule;
mod text_fault;
mod trace;

pub use end_line::print_end;
pub use event_line::{print_event, read_event};
pub use image_text::print_image;
pub use laws::{image_reads_back, line_tells_event, schedule_reads_back, schedules_are_of_words};
pub use msp_isa::{Loaded, load_image};
pub use reader::read_image;
pub use rows::worked_rows;
pub use schedule::{print_schedule, read_schedule};
pub use text_fault::TextFault;
pub use trace::{End, Event};
