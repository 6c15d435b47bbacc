//! Laws and worked rows of the order of reading.

ghost use Rattle.std.specs.Prelude.{◌≡◌, List as ListOf, Result as ResultOf};
ghost use Rattle.nm_base.specs.declared.fault.Fault.{Fault as FaultOf};
ghost use Rattle.wire_reading.specs.declared.opener.Need.{Need as NeedOf};
ghost use Rattle.wire_reading.specs.Order.{Answer, Answers, Name as NameOf};
ghost use Rattle.wire_reading.specs.Rows.{WorkedRows};
ghost use Rattle.wire_reading.specs.Told.{Told};

use crate::opener::Opener;

/// Where opening a file in a state gives one answer and leaves one state, so does reading an application.
pub fn one_reading<O: Opener>()
    ensures { (told : Told) → ((s : O.State) (need : NeedOf) (a b : ResultOf (ListOf NeedOf) FaultOf) (t u : O.State) → O.Opens told s need a t → O.Opens told s need b u → (a ≡ b) × (t ≡ u)) → (app main : NameOf) (s : O.State) (x y : Answer O.State) → Answers (O.Opens told) app main s x → Answers (O.Opens told) app main s y → x ≡ y }
{}

/// These applications are read in this order, worked out by hand.
pub fn worked_rows()
    ensures { WorkedRows }
{}
