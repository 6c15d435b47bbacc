//! A mote on its board of boxed devices: it runs an image with a schedule, and writes its trace as it goes.
#![tactic(auto)]

mod mote;
mod stepped;
mod totals;
mod trace_line;

pub use mote::{AsMote, BoardMote, MoteOf};
pub use totals::{Totals, summary};
