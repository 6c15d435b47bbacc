//! Uses of names of functions.

use nm_base::Name;

/// A function that is called, or a task that is posted.
#[derive(Debug, Drop)]
pub struct Use {
    pub posts: bool,
    pub name: Name,
}
