//! What is told to declarations.

use elab_facts::{Declared, Fact};
use elab_forms::Told;
use elab_targets::{Places, Used};
use nm_base::Name;

/// What is told to the declarations of the headers or of a module's instance: what its bodies know, the item facts of its elements, the places
/// and the uses of its functions' names, and the numbers of its first body and task. A module has a name in print; the headers' functions
/// may combine results.
#[derive(Drop)]
pub struct ModuleTold<'a> {
    pub told: Told,
    pub facts: &'a [Fact],
    pub places: &'a Places,
    pub used: &'a Used,
    pub first_body: u32,
    pub first_task: u32,
    pub instance: Option<Name>,
    pub is_main: bool,
    pub headers: &'a [Declared],
    pub header_places: &'a Places,
}
