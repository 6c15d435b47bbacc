//! Each access of a body lies in an object, and objects lie in data.

ghost use Rattle.source_accesses.specs.Accesses.{AccessesAreOfObjects, ObjectsLieInData};

use nesc_core::each_struct_is_its_fields;

/// Each object of a well-formed program lies at an even address from 0x1100 on, and ends where the last of them does or before.
pub fn objects_lie_in_data()
    ensures { ObjectsLieInData }
{}

/// Each Load and Store of a body of a well-formed program is of bytes of one object, and at an even address where it is of a word.
pub fn accesses_are_of_objects()
    ensures { AccessesAreOfObjects }
{
    each_struct_is_its_fields();
}
