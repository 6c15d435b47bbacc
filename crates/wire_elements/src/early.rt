//! What is told before the items of elements are known.

ghost use Rattle.std.specs.Prelude.{◌≡◌, []};

use elab_exprs::Told;

/// What is told to declarations and to types and constants while no item has a value.
#[derive(Drop)]
pub struct Early {
    pub told: Told,
    ghost unvalued: { told.values ≡ [] },
}
