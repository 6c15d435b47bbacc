//! Laws of the programs of applications.

ghost use Rattle.nesc_programs.specs.OneApplication.{OneApplication};

use application_laws::{one_program, one_wiring};

/// Files that are told give one program, and are then not refused.
pub fn one_application()
    ensures { OneApplication }
{
    one_wiring();
    one_program();
}
