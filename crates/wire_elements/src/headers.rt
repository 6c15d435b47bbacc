//! Declarations of headers.

ghost use Rattle.std.specs.Prelude.{map};
ghost use Rattle.elab_meaning.specs.Answers.{Gives};
ghost use Rattle.elab_meaning.specs.View.{state_of};
ghost use Rattle.body_meaning.specs.View.{decl_of};
ghost use Rattle.wire_facts.specs.Components.{components_of};
ghost use Rattle.wire_facts.specs.Seen as spec;
ghost use Rattle.wire_elements.specs.View.{early_env};

use crate::early::Early;
use elab_meaning::{Meaning, Work};
use nesc_tree::Decl;
use nm_base::{Fault, Name};
use std::alloc::Global;
use wire_units::Loaded;

/// A name comes in force that is neither a constant nor a type, as that of a component, an element or a function, and hides others.
pub fn hides(work: &mut Work, name: &Name) -> Result<(), Fault>
    ensures { Gives (λ _. tt) result (state_of work.new) (spec.hides name.now (state_of work.old)) }
{
    let copy = name.clone()?;
    work.add_name(copy, Meaning::Task(0))
}

fn header_declared(alloc: Global, early: &Early, work: &mut Work, d: &Decl) -> Result<(), Fault>
    ensures { Gives (λ _. tt) result (state_of work.new) (spec.header_declared (early_env early.now) (decl_of d.now) (state_of work.old)) }
{
    match d {
        Decl::Typedef {
            name: _,
            ty: _,
            attrs: _,
            pos,
        } => early.declares(alloc, work, d, *pos),
        Decl::TypeOnly(_, pos) => early.declares(alloc, work, d, *pos),
        Decl::Vars(_) => Ok(()),
        Decl::Func { head, body: _ } => hides(work, &head.name),
    }
}

fn all_declared(alloc: Global, early: &Early, work: &mut Work, decls: &[Decl]) -> Result<(), Fault>
    ensures { Gives (λ _. tt) result (state_of work.new) (spec.all_declared (early_env early.now) (map decl_of decls.now) (state_of work.old)) }
{
    for d in decls {
        header_declared(alloc, early, work, d)?;
    }
    Ok(())
}

/// The declarations of headers come in force, file by file, up to the first refusal: functions by their names alone, and types; headers
/// have no variables (nesC 1.3 Reference: a component sees the names of headers).
pub fn headers_declared(
    alloc: Global,
    early: &Early,
    work: &mut Work,
    units: &[Loaded],
) -> Result<(), Fault>
    ensures { Gives (λ _. tt) result (state_of work.new) (spec.headers_declared (early_env early.now) (components_of units.now) (state_of work.old)) }
{
    for loaded in units {
        all_declared(alloc, early, work, loaded.unit.decls.as_slice())?;
    }
    Ok(())
}
