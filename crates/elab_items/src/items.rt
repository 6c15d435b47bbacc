//! The items of one element.

ghost use Rattle.std.specs.Prelude.{map};
ghost use Rattle.elab_facts.specs.View.{fact_of};
ghost use Rattle.elab_meaning.specs.Answers.{Gives};
ghost use Rattle.elab_meaning.specs.View.{env_of, state_of};
ghost use Rattle.elab_targets.specs.Starts.{AreTables};
ghost use Rattle.elab_targets.specs.View.{application_of, element_of, sig_of};
ghost use Rattle.elab_items.specs.Parts as parts;

use crate::facts::item_fact;
use crate::ground::Ground;
use elab_exprs::Told;
use elab_facts::Fact;
use elab_meaning::Work;
use elab_targets::Element;
use nesc_tree::Sig;
use nm_base::Fault;
use std::alloc::Global;

/// What is known of these items, in their order.
#[tactic(auto, using(crate::proofs::Loops::item_lists))]
pub fn items(
    alloc: Global,
    ground: &Ground,
    told: &Told,
    work: &mut Work,
    x: &Element,
    sigs: &[Sig],
) -> Result<Vec<Fact>, Fault>
    ensures { AreTables (application_of ground.now.app.now) ground.now.tables.now → Gives (λ v. map fact_of v.items) result (state_of work.new) (parts.items_of (application_of ground.now.app.now) (env_of told.now.env) told.now.values ground.now.instance (element_of x.now) (map sig_of sigs.now) (state_of work.old)) }
{
    let mut facts = Vec::new(alloc);
    for item in sigs {
        let one = item_fact(alloc, ground, told, work, x, item)?;
        facts.push(one)?;
    }
    Ok(facts)
}
