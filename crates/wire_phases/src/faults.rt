//! Refusals of creation and of wires as faults.

ghost use Rattle.std.specs.Prelude.{◌≡◌};
ghost use Rattle.wire_phases.specs.Faults as spec;

use nm_base::{Fault, Limit, MAX_INSTANCES, Refusal, Which};
use wire_instances::Unmet;
use wire_pairs::Unlinked;

fn unmet_fault(unmet: Unmet) -> Fault
    ensures { result ≡ spec.unmet_fault unmet }
{
    Fault::Refused(match unmet {
        Unmet::UnknownName(at) => Refusal::UnknownName(at),
        Unmet::DuplicateName(at) => Refusal::DuplicateName(at),
        Unmet::ComponentLoop(at) => Refusal::ComponentLoop(at),
        Unmet::ArgumentMismatch(at) => Refusal::ArgumentMismatch(at),
    })
}

/// Why the instances were not created.
pub fn creation_fault(stop: wire_instances::Stop) -> Fault
    ensures { result ≡ spec.creation_fault stop }
{
    match stop {
        wire_instances::Stop::Unmet(unmet) => unmet_fault(unmet),
        wire_instances::Stop::Instances => Fault::Limit(Limit {
            which: Which::Instances,
            have: MAX_INSTANCES + 1,
        }),
        wire_instances::Stop::NoMemory => Fault::NoMemory,
    }
}

/// Why a wire is refused.
pub fn wire_fault(unlinked: Unlinked) -> Fault
    ensures { result ≡ spec.wire_fault unlinked }
{
    Fault::Refused(match unlinked {
        Unlinked::BadType(at) => Refusal::BadType(at),
        Unlinked::NotConstant(at) => Refusal::NotConstant(at),
        Unlinked::UnknownName(at) => Refusal::UnknownName(at),
        Unlinked::WireMismatch(at) => Refusal::WireMismatch(at),
    })
}
