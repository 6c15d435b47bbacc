//! Why an application is not read.

use nesc_preproc::Reading;
use nm_base::Fault;

/// Why an application is refused, and the files that were read by then: the place of a refusal has the number of its file there.
#[derive(Drop)]
pub struct Stopped {
    pub fault: Fault,
    pub reading: Reading,
}
