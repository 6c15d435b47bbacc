//! Files that are opened and parsed one after the other.

ghost use Rattle.std.specs.Prelude.{◌≡◌, ◌<◌, List as ListOf, Option as OptionOf, Some, Result as ResultOf, Ok, Err, IfOk, OnOk, ℕ};
ghost use Rattle.nm_base.specs.declared.fault.Fault.{Fault as FaultOf};
ghost use Rattle.wire_reading.specs.declared.opener.Need.{Need as NeedOf};
ghost use Rattle.wire_reading.specs.Order.{IsRefusal};
ghost use Rattle.wire_reading.specs.Told.{Told, Counts};

use nm_base::{Fault, Files, Name};
use std::alloc::Global;

/// A file that is needed: as a component, or as an interface.
#[derive(Debug, Drop)]
pub struct Need {
    pub name: Name,
    pub is_interface: bool,
}

/// What opens a file and parses it. `Opens` tells what opening a file in a state gives, for files that hold what is told, and
/// the state that it leaves; `left` bounds the files that can be opened yet.
pub trait Opener {
    ghost State: { Type 0 };

    ghost state: { Self → State };

    ghost Opens: { Told → State → NeedOf → ResultOf (ListOf NeedOf) FaultOf → State → Type 0 };

    ghost left: { State → ℕ };

    /// Opens a file and parses it as it is needed. Answers what it needs: the interfaces of its specification, then the
    /// components that it names, in order.
    fn open<F: Files>(
        &mut self,
        alloc: Global,
        files: &mut F,
        need: &Need,
    ) -> Result<Vec<Need>, Fault>
        ensures outside { Counts result (F.seen files.old) (F.seen files.new) }
        ensures opened { (told : Told) → (F.seen files.old).texts ≡ Some told → IfOk result (λ needs. Opens told (state self.old) need.now (Ok needs.items) (state self.new)) }
        ensures refused { (told : Told) → (F.seen files.old).texts ≡ Some told → (fault : FaultOf) → result ≡ Err fault → IsRefusal fault → Opens told (state self.old) need.now (Err fault) (state self.new) }
        ensures falls { OnOk result (left (state self.new) < left (state self.old)) };
}
