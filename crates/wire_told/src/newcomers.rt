//! Instances that lines make.

ghost use Rattle.std.specs.Prelude.{◌≡◌, map, set, IfOk, OnOk};
ghost use Rattle.elab_meaning.specs.Answers.{Gives};
ghost use Rattle.elab_meaning.specs.View.{state_of};
ghost use Rattle.wire_facts.specs.Components.{arg_of};
ghost use Rattle.wire_facts.specs.Seen as spec;
ghost use Rattle.wire_pairs.specs.Application as pairs;
ghost use Rattle.wire_pairs.specs.declared.facts.Unlinked.TheVariants as unlinked;
ghost use Rattle.wire_scopes.specs.Keys.{types_in};
ghost use Rattle.wire_scopes.specs.View.{base_view};
ghost use Rattle.wire_elements.specs.View.{seen_of};
ghost use Rattle.wire_told.specs.View.{application_of, behind_of, survey_of};

use crate::components::{elements_at, env_of, params_at, place_at};
use crate::faults::refused;
use crate::lookup::Lookup;
use crate::survey::{Behind, Sight, Site, goes_on};
use elab_meaning::Work;
use nesc_tree::GenericArg;
use nm_base::{Fault, Name, NoMemory, Pos};
use std::alloc::Global;
use wire_elements::{Making, Seen, hides, made_by};
use wire_pairs::Unlinked;
use wire_scopes::Types;

/// An instance, the one in which its line stands, and the place of that line.
#[derive(Clone, Copy)]
pub struct Newcomer {
    pub maker: usize,
    pub made: usize,
    pub line: Pos,
}

// The arguments of an instance, and then its specification.
fn instance_made(
    alloc: Global,
    app: &Lookup,
    work: &mut Work,
    types: &mut Types,
    new: Newcomer,
    args: &[GenericArg],
) -> Result<Seen, Fault>
    ensures { Gives (λ s. (seen_of s, types_in types.new)) result (state_of work.new) (spec.instance_made (application_of app.now.sources.now) (base_view app.now.base) new.maker new.made new.line (types_in types.old) (map arg_of args.now) (state_of work.old)) }
{
    let sources = app.sources;
    let making = Making {
        maker: env_of(sources, new.maker),
        made: env_of(sources, new.made),
        at: place_at(sources, new.made),
        line: new.line,
        elems: elements_at(sources, new.made),
        params: params_at(sources, new.made),
    };
    made_by(alloc, work, types, app.base, &making, args)
}

// What is seen of an instance takes its place.
#[tactic(auto, using(crate::proofs::Takes::puts))]
fn put(seen: &mut Vec<Seen>, instance: usize, found: Seen)
    ensures { map seen_of seen.new.items ≡ set (map seen_of seen.old.items) instance (seen_of found) }
{
    if instance < seen.len() {
        seen[instance] = found;
    }
}

/// A name hides others from here on.
pub fn hidden(work: &mut Work, name: &Name) -> Result<(), NoMemory>
    ensures { OnOk result (state_of work.new ≡ spec.with_hidden name.now (state_of work.old)) }
{
    match hides(work, name) {
        Ok(()) => Ok(()),
        Err(_) => Err(NoMemory),
    }
}

/// A line that names a new instance of a generic component, with its arguments.
#[tactic(auto, using(crate::proofs::Said::named_refused))]
pub fn named_new(
    alloc: Global,
    app: &Lookup,
    site: Site,
    sight: &mut Sight,
    name: &Name,
    args: &[GenericArg],
    at: Pos,
) -> Result<Behind, NoMemory>
    ensures { IfOk result (λ b. spec.named_then (unlinked.BadType at) name.now (map seen_of sight.old.seen.items) (spec.new_instance (application_of app.now.sources.now) (base_view app.now.base) site.instance at (survey_of sight.old) (map arg_of args.now) (pairs.made_at app.now.sources.now.made.now site.instance site.line) (state_of sight.old.work)) ≡ behind_of b sight.new) }
{
    let Some(made) = app.made_at(site.instance, site.line) else {
        hidden(&mut sight.work, name)?;
        return Ok(goes_on());
    };
    let new = Newcomer {
        maker: site.instance,
        made,
        line: at,
    };
    match instance_made(alloc, app, &mut sight.work, &mut sight.types, new, args) {
        Ok(found) => {
            put(&mut sight.seen, made, found);
            hidden(&mut sight.work, name)?;
            Ok(goes_on())
        }
        Err(fault) => refused(Unlinked::BadType(at), fault),
    }
}
