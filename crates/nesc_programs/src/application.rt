//! An application whose program stands.

use nesc_core::Program;
use nesc_preproc::Reading;

/// The wired program of an application, and the files that were read for it: a place has the number of one of them.
#[derive(Drop)]
pub struct Application {
    pub program: Program,
    pub reading: Reading,
}
