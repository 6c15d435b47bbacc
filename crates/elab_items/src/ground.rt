//! What items are seen in.

use elab_targets::{Application, Tables};

/// The application, its tables, and the number of the instance whose items are looked at.
#[derive(Drop)]
pub struct Ground<'a> {
    pub app: &'a Application<'a>,
    pub tables: &'a Tables,
    pub instance: u32,
}
