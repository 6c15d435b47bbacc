//! Refusals of declarations.

ghost use Rattle.std.specs.Prelude.{◌≡◌, Err};

use nm_base::{Fault, Pos, Refusal};

/// The refusal of what does not agree with what it stands for.
pub(crate) fn argument_mismatch<T>(at: Pos) -> Result<T, Fault>
    ensures { result ≡ Err (Fault.Refused (Refusal.ArgumentMismatch at)) }
{
    Err(Fault::Refused(Refusal::ArgumentMismatch(at)))
}

/// The refusal of a second declaration.
pub(crate) fn duplicate_name<T>(at: Pos) -> Result<T, Fault>
    ensures { result ≡ Err (Fault.Refused (Refusal.DuplicateName at)) }
{
    Err(Fault::Refused(Refusal::DuplicateName(at)))
}
