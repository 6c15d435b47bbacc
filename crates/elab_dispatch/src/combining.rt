//! Whether results are combined.

ghost use Rattle.std.specs.Prelude.{◌≡◌};
ghost use Rattle.std.specs.List.{list_any};
ghost use Rattle.elab_dispatch.specs.Calls.{has_two};
ghost use Rattle.elab_facts.specs.View.{fact_of};
ghost use Rattle.program_meaning.specs.Dispatch as spec;

use elab_facts::{Fact, Reached};
use elab_values::is_void;

fn has_two_anywhere(cases: &[Reached]) -> bool
    ensures { result ≡ list_any has_two cases.now }
{
    cases.iter().any(|c| c.targets.as_slice().len() > 1)
}

/// Whether two results of some case are combined.
#[tactic(auto, using(crate::proofs::Served::tests))]
pub fn combines(fact: &Fact) -> bool
    ensures { result ≡ spec.combines (fact_of fact.now) }
{
    !is_void(&fact.form.result) && has_two_anywhere(fact.cases.as_slice())
}
