//! Worked rows of modules.

ghost use Rattle.nesc_unwired.specs.Rows.{BracketRows, OrderRows, ItemRows};

/// What these modules lack, worked out by hand.
pub fn worked_rows()
    ensures brackets { BracketRows }
    ensures order { OrderRows }
    ensures items { ItemRows }
{}
