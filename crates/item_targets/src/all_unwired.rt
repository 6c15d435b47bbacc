//! What a module lacks.

ghost use Rattle.std.specs.Prelude.{◌≡◌, map, IfOk};
ghost use Rattle.elab_meaning.specs.View.{state_of};
ghost use Rattle.body_meaning.specs.View.{decl_of};
ghost use Rattle.wire_elements.specs.View.{early_env};
ghost use Rattle.nesc_unwired.specs.Unwired as spec;
ghost use Rattle.item_targets.specs.View.{element_of};

use crate::elements::{Element, Reaches};
use crate::functions::in_decls;
use crate::items::all_lacking;
use crate::search::Search;
use crate::walk::Walk;
use elab_attempts::Scopes;
use elab_meaning::Work;
use nesc_tree::Decl;
use nm_base::{NoMemory, Pos};
use std::alloc::Global;
use wire_elements::Early;

/// What a module lacks, in the order of the text: the places of elements whose items it does not implement, and of calls and signals that
/// reach nothing and have no default. The work has the names in force in its scope.
pub fn unwired<R: Reaches>(
    alloc: Global,
    early: &Early,
    elements: &[Element],
    reach: &R,
    decls: &[Decl],
    work: &Work,
) -> Result<Vec<Pos>, NoMemory>
    ensures { IfOk result (λ v. v.items ≡ spec.unwired (early_env early.now) (record { elements = map element_of elements.now; reach = R.reach reach.now; decls = map decl_of decls.now }) (state_of work.now)) }
{
    let walk = Walk {
        alloc,
        early,
        elements,
        reach,
        decls,
    };
    let found = all_lacking(alloc, decls, elements)?;
    let scopes = Scopes::new(alloc, work)?;
    let mut search = Search { found, scopes };
    in_decls(&walk, &mut search, decls)?;
    Ok(search.found)
}
