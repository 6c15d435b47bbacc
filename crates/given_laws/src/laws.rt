//! Laws of what elaboration is given.

ghost use Rattle.given_laws.specs.OneGiven.{OneGiven};

use wire_targets::one_answer;

/// The files, instances and pairs of an application decide what elaboration is given of it.
pub fn one_given()
    ensures { OneGiven }
{
    one_answer();
}
