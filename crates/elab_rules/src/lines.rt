//! The lines of handlers.

ghost use Rattle.std.specs.Prelude.{◌≡◌, option_copied, Some};
ghost use Rattle.std.specs.Option.{option_map};
ghost use Rattle.std.specs.List.{list_any};
ghost use Rattle.elab_facts.specs.View.{declared_of};
ghost use Rattle.elab_meaning.specs.Answers.{Follows};
ghost use Rattle.program_meaning.specs.Walk as spec;

use crate::refusals::argument_mismatch;
use elab_facts::Declared;
use nm_base::{Fault, Pos, Refusal};

/// The line of the earlier declaration.
pub fn line_before(earlier: Option<&Declared>) -> Option<u32>
    ensures { result ≡ spec.line_before (option_map declared_of (option_copied earlier.entry)) }
{
    match earlier {
        None => None,
        Some(d) => d.line,
    }
}

fn same_line(at: Pos, own: u32, before: u32) -> Result<Option<u32>, Fault>
    ensures { Follows (λ n. n) result (spec.one_line at (Some own) (Some before)) }
{
    if own == before {
        Ok(Some(own))
    } else {
        argument_mismatch(at)
    }
}

/// The line may stand at the prototype, at the definition, or at both, where it is the same; else ArgumentMismatch.
pub fn one_line(at: Pos, own: Option<u32>, before: Option<u32>) -> Result<Option<u32>, Fault>
    ensures { Follows (λ n. n) result (spec.one_line at own before) }
{
    match own {
        None => Ok(before),
        Some(own) => match before {
            None => Ok(Some(own)),
            Some(before) => same_line(at, own, before),
        },
    }
}

fn has_line(line: u32, handler: (u8, u32)) -> bool
    ensures { result ≡ spec.has_line line handler }
{
    u32::from(handler.0) == line
}

fn is_taken(line: u32, handlers: &[(u8, u32)]) -> bool
    ensures { result ≡ list_any (spec.has_line line) handlers.now }
{
    handlers.iter().any(|handler| has_line(line, *handler))
}

/// A line has one handler; else VectorTwice.
pub fn free_line(at: Pos, line: u32, handlers: &[(u8, u32)]) -> Result<(), Fault>
    ensures { Follows (λ _. tt) result (spec.free_line at line handlers.now) }
{
    if is_taken(line, handlers) {
        Err(Fault::Refused(Refusal::VectorTwice(at)))
    } else {
        Ok(())
    }
}
