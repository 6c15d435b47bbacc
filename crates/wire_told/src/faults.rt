//! Faults as what is told of a line.

ghost use Rattle.std.specs.Prelude.{◌≡◌, false, IfOk, OnOk};
ghost use Rattle.wire_facts.specs.Seen as spec;
ghost use Rattle.wire_pairs.specs.declared.facts.LineFacts.TheVariants as line_facts;
ghost use Rattle.wire_told.specs.Cuts.{is_memory};

use crate::survey::Behind;
use nm_base::{Fault, NoMemory, Refusal};
use wire_pairs::{LineFacts, Unlinked};

fn unlinked_by(otherwise: Unlinked, refusal: Refusal) -> Unlinked
    ensures { result ≡ spec.unlinked_as otherwise (Fault.Refused refusal) }
{
    match refusal {
        Refusal::BadType(at) => Unlinked::BadType(at),
        Refusal::NotConstant(at) => Unlinked::NotConstant(at),
        Refusal::UnknownName(at) => Unlinked::UnknownName(at),
        _ => otherwise,
    }
}

/// Why a line is refused by a fault; by a fault that has no place among those of wires, as `otherwise` says.
pub fn unlinked_as(otherwise: Unlinked, fault: Fault) -> Result<Unlinked, NoMemory>
    ensures unlinked { IfOk result (λ u. u ≡ spec.unlinked_as otherwise fault) }
    ensures said { OnOk result (is_memory fault ≡ false) }
{
    match fault {
        Fault::NoMemory => Err(NoMemory),
        Fault::Refused(refusal) => Ok(unlinked_by(otherwise, refusal)),
        Fault::Missing(_) | Fault::ReadFault | Fault::Limit(_) | Fault::TooLarge(_, _) => {
            Ok(otherwise)
        }
    }
}

/// What is told of a line that a fault refuses.
pub fn refused(otherwise: Unlinked, fault: Fault) -> Result<Behind, NoMemory>
    ensures told { IfOk result (λ b. b ≡ record { facts = line_facts.Refused (spec.unlinked_as otherwise fault); goes_on = false }) }
    ensures said { OnOk result (is_memory fault ≡ false) }
{
    let unlinked = unlinked_as(otherwise, fault)?;
    Ok(Behind {
        facts: LineFacts::Refused(unlinked),
        goes_on: false,
    })
}
