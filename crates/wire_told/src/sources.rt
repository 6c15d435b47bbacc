//! What an application is made of.

use wire_elements::Early;
use wire_instances::Made;
use wire_units::Loaded;

/// The files and the instances of an application, in the order of their creation, with what is told of `unique` to headers and to
/// each instance.
#[derive(Drop)]
pub struct Sources<'u> {
    pub units: &'u [Loaded],
    pub made: &'u [Made],
    pub headers: &'u Early,
    pub envs: &'u [Early],
}
