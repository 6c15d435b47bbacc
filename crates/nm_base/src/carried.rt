//! A value that is kept beside what may be refused.

ghost use Rattle.std.specs.Prelude.{◌≡◌, Ok, Err, IfOk, IfErr};

/// Returns the value beside what was found, or the refusal. A caller that owns a tree and then finds what is next hands the tree over, so that
/// its drop is in one place, here.
pub fn beside<T: Drop, U, E>(value: T, found: Result<U, E>) -> Result<(T, U), E>
    ensures kept { IfOk result (λ x. (x.0 ≡ value) × (found ≡ Ok x.1)) }
    ensures refused { IfErr result (λ e. found ≡ Err e) }
{
    match found {
        Ok(found) => Ok((value, found)),
        Err(refused) => Err(refused),
    }
}
