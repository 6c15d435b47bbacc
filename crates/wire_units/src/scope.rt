//! Declarations in one scope.

ghost use Rattle.std.specs.Prelude.{◌≡◌, Ok, Err, OnOk};
ghost use Rattle.wire_instances.specs.declared.plan.Unmet.{Unmet as UnmetOf};
ghost use Rattle.wire_units.specs.Scope.{declare};

use nm_base::{Name, Pos};
use wire_instances::{Stop, Unmet};
use wire_names::NameTable;

/// Declares a name at a place. Refuses a name that the scope has.
pub fn declare(scope: &mut NameTable, name: &Name, at: Pos) -> Result<(), Stop>
    ensures declared { OnOk result (declare scope.old name.now at ≡ Ok scope.new) }
    ensures refused { (unmet : UnmetOf) → result ≡ Err (Stop.Unmet unmet) → declare scope.old name.now at ≡ Err unmet }
{
    if scope.has(name) {
        return Err(Stop::Unmet(Unmet::DuplicateName(at)));
    }
    scope.add(name)?;
    Ok(())
}
