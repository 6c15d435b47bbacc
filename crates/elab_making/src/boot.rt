//! The locals of the boot function in the place of those of the work.

ghost use Rattle.std.specs.Prelude.{◌≡◌};
ghost use Rattle.elab_making.specs.Boot as own;
ghost use Rattle.elab_making.specs.View.{whole_of};
ghost use Rattle.elab_meaning.specs.View.{state_of};
ghost use Rattle.program_meaning.specs.Making as spec;

use crate::whole::Whole;
use std::alloc::Global;
use std::mem::replace;

impl Whole {
    /// The locals of the boot function take the place of those of the work, which are dropped: a part of the boot function is looked at
    /// until `leave_boot`.
    pub fn enter_boot(&mut self, alloc: Global)
        ensures work { state_of self.new.work ≡ spec.boot_state (whole_of self.old) }
        ensures entered { whole_of self.new ≡ own.entered (whole_of self.old) }
    {
        self.work.locals = replace(&mut self.boot_locals, Vec::new(alloc));
    }

    /// The locals of the work are those of the boot function again, and the work has none.
    pub fn leave_boot(&mut self, alloc: Global)
        ensures { whole_of self.new ≡ own.left (whole_of self.old) }
    {
        self.boot_locals = replace(&mut self.work.locals, Vec::new(alloc));
    }
}
