//! Refusals, which end nothing here; want of memory is none.

ghost use Rattle.std.specs.Prelude.{IfOk, OnOk};
ghost use Rattle.elab_attempts.specs.Given.{IsGiven, IsRefusal};

use nm_base::{Fault, NoMemory};

fn refused(fault: Fault) -> Result<(), NoMemory>
    ensures { OnOk result (IsRefusal fault) }
{
    match fault {
        Fault::NoMemory => Err(NoMemory),
        Fault::Refused(_) => Ok(()),
        Fault::Missing(_) => Ok(()),
        Fault::ReadFault => Ok(()),
        Fault::Limit(_) => Ok(()),
        Fault::TooLarge(_, _) => Ok(()),
    }
}

/// What is given, or nothing where it is refused.
pub(crate) fn unless_refused<T: Drop>(given: Result<T, Fault>) -> Result<Option<T>, NoMemory>
    ensures { IfOk result (λ found. IsGiven found given) }
{
    match given {
        Ok(x) => Ok(Some(x)),
        Err(fault) => {
            refused(fault)?;
            Ok(None)
        }
    }
}
