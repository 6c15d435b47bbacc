//! What is told of lines.

ghost use Rattle.std.specs.Prelude.{◌≡◌, [], map, option_map, IfOk};
ghost use Rattle.body_meaning.specs.Stmts.{declaration};
ghost use Rattle.body_meaning.specs.View.{decl_of, maybe_of};
ghost use Rattle.elab_meaning.specs.View.{state_of};
ghost use Rattle.wire_facts.specs.Components.{line_of};
ghost use Rattle.wire_facts.specs.Components as components;
ghost use Rattle.wire_facts.specs.Seen as spec;
ghost use Rattle.wire_pairs.specs.declared.facts.Unlinked.TheVariants as unlinked;
ghost use Rattle.wire_scopes.specs.View.{base_view};
ghost use Rattle.wire_elements.specs.View.{early_env};
ghost use Rattle.wire_told.specs.View.{application_of, behind_of, survey_of};

use crate::brackets::both_bracketed;
use crate::components::env_of;
use crate::faults::refused;
use crate::lookup::Lookup;
use crate::newcomers::{hidden, named_new};
use crate::survey::{Behind, Sight, Site, goes_on};
use crate::told::declares;
use nesc_tree::{ConfLine, Decl, Expr, GenericArg};
use nm_base::{List, Name, NoMemory, Pos};
use std::alloc::Global;
use wire_elements::Early;
use wire_pairs::{LineFacts, Unlinked};

// A line that names an instance.
fn named(
    alloc: Global,
    app: &Lookup,
    site: Site,
    sight: &mut Sight,
    name: &Name,
    args: &Option<List<GenericArg>>,
    at: Pos,
) -> Result<Behind, NoMemory>
    ensures { IfOk result (λ b. spec.line_told (application_of app.now.sources.now) (base_view app.now.base) site.instance site.line (components.names_instance (option_map (map components.arg_of) args.now) name.now at) (survey_of sight.old) (state_of sight.old.work) ≡ behind_of b sight.new) }
{
    match args {
        None => {
            hidden(&mut sight.work, name)?;
            Ok(goes_on())
        }
        Some(args) => named_new(alloc, app, site, sight, name, args.as_slice(), at),
    }
}

// A wire with the brackets of its ends.
fn wired(
    alloc: Global,
    early: &Early,
    sight: &mut Sight,
    from: &Option<Expr>,
    to: &Option<Expr>,
) -> Result<Behind, NoMemory>
    ensures { IfOk result (λ b. spec.wire_told (survey_of sight.old) (spec.both_bracketed (early_env early.now) (maybe_of from.now) (maybe_of to.now) (state_of sight.old.work)) ≡ behind_of b sight.new) }
{
    let both = both_bracketed(alloc, early, &mut sight.work, from, to)?;
    Ok(Behind {
        facts: LineFacts::Brackets(both.first, both.second),
        goes_on: both.goes_on,
    })
}

// Where a declaration is refused that has no better place.
fn decl_place(d: &Decl) -> Pos
    ensures { result ≡ spec.decl_place (decl_of d.now) }
{
    match d {
        Decl::Typedef { pos, .. } => *pos,
        Decl::TypeOnly(_, pos) => *pos,
        Decl::Vars(_) => Pos {
            file: 0,
            line: 1,
            col: 1,
        },
        Decl::Func { head, .. } => head.pos,
    }
}

// A declaration among the lines of a configuration.
#[tactic(auto, using(crate::proofs::Said::declared_refused))]
fn declared(alloc: Global, early: &Early, sight: &mut Sight, d: &Decl) -> Result<Behind, NoMemory>
    ensures { IfOk result (λ b. spec.declared_then (survey_of sight.old) (unlinked.BadType (spec.decl_place (decl_of d.now))) (spec.done (declaration (early_env early.now) [] (spec.decl_place (decl_of d.now)) (decl_of d.now)) (state_of sight.old.work)) ≡ behind_of b sight.new) }
{
    let at = decl_place(d);
    match declares(alloc, early, &mut sight.work, d, at) {
        Ok(()) => Ok(goes_on()),
        Err(fault) => refused(Unlinked::BadType(at), fault),
    }
}

/// What is told of a line. Constants and types are looked at in the scope of the instance in which it stands.
pub fn line_told(
    alloc: Global,
    app: &Lookup,
    site: Site,
    sight: &mut Sight,
    line: &ConfLine,
) -> Result<Behind, NoMemory>
    ensures { IfOk result (λ b. spec.line_told (application_of app.now.sources.now) (base_view app.now.base) site.instance site.line (line_of line.now) (survey_of sight.old) (state_of sight.old.work) ≡ behind_of b sight.new) }
{
    let early = env_of(app.sources, site.instance);
    match line {
        ConfLine::Component {
            new_args,
            alias,
            pos,
            ..
        } => named(alloc, app, site, sight, alias, new_args, *pos),
        ConfLine::Link { from, to, .. } => wired(alloc, early, sight, &from.param, &to.param),
        ConfLine::Equate { a, b, .. } => wired(alloc, early, sight, &a.param, &b.param),
        ConfLine::Decl(d) => declared(alloc, early, sight, d),
    }
}
