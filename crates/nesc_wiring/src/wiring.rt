//! The wiring of an application.

use nesc_preproc::Reading;
use wire_paths::Nets;
use wire_phases::Links;
use wire_units::Loaded;

/// An application: its files in the order of reading, what they hold, its instances with its pairs, and its wires in both
/// directions.
#[derive(Drop)]
pub struct Wiring {
    pub reading: Reading,
    pub units: Vec<Loaded>,
    pub links: Links,
    pub nets: Nets,
}
