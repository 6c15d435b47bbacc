//! Laws of applications.

ghost use Rattle.application_laws.specs.OneProgram.{OneProgram};
ghost use Rattle.application_laws.specs.OneWiring.{OneWiring};

use given_laws::one_given;
use nesc_preproc::one_expansion;
use wire_targets::one_answer;

/// Files that are told give one application, and are then not refused.
pub fn one_wiring()
    ensures { OneWiring }
{
    one_expansion();
    one_answer();
    one_given();
}

/// The files, instances and pairs of an application have one program, or one refusal.
pub fn one_program()
    ensures { OneProgram }
{
    one_given();
}
