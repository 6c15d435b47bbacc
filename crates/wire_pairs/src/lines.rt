//! What a line links.

ghost use Rattle.std.specs.Prelude.{◌≡◌, List as ListOf, Some, Ok, Err, OnOk};
ghost use Rattle.wire_names.specs.Places.{place_of};
ghost use Rattle.wire_pairs.specs.declared.facts.Unlinked.{Unlinked as UnlinkedOf};
ghost use Rattle.wire_pairs.specs.Application.{scope_behind, with_name};
ghost use Rattle.wire_pairs.specs.Pairs as spec;
ghost use Rattle.wire_pairs.specs.Fits as fits;
ghost use Rattle.wire_pairs.specs.declared.ends.Pair.{Pair as PairOf};
ghost use Rattle.wire_pairs.specs.Lookup.{app_of};

use crate::brackets::bracketed;
use crate::ends::{End, Pair, Sign, Spot};
use crate::facts::{Bracket, LineFacts, Stop, Unlinked};
use crate::fits::{joined, leaves};
use crate::lookup::Lookup;
use crate::named::named;
use crate::seen::{elem_at, greatest_at, instance_named, line_facts_at};
use nesc_tree::{ConfLine, WireEnd};
use nm_base::{Name, NoMemory, Pos};
use wire_names::Places;

fn end_of(x: Spot, param: Option<u16>) -> End
    ensures { result ≡ spec.end_of x param }
{
    End {
        instance: x.instance,
        element: x.element,
        param,
    }
}

fn leaves_at(app: &Lookup, x: Spot) -> bool
    ensures { result ≡ spec.leaves_in x.own (fits.elem_at (app_of app.now) x) }
{
    match elem_at(app, x) {
        Some(elem) => leaves(x.own, elem.provides),
        None => false,
    }
}

/// The pair of two joined ends, in the direction of calls.
pub fn pair_of(
    app: &Lookup,
    joined: (Spot, Spot),
    pos: Pos,
    a: Option<Bracket>,
    b: Option<Bracket>,
) -> Result<Pair, Unlinked>
    ensures { result ≡ spec.pair_of (app_of app.now) joined pos a b }
{
    let (x, y) = joined;
    let values = bracketed(pos, greatest_at(app, x), greatest_at(app, y), a, b)?;
    let x_end = end_of(x, values.0);
    let y_end = end_of(y, values.1);
    if leaves_at(app, x) {
        Ok(Pair {
            from: x_end,
            to: y_end,
            pos,
        })
    } else {
        Ok(Pair {
            from: y_end,
            to: x_end,
            pos,
        })
    }
}

/// Where a wire stands: its instance, its sign, and its place.
#[derive(Debug, Clone, Copy)]
pub struct Site {
    pub instance: usize,
    pub sign: Sign,
    pub pos: Pos,
}

fn wired(
    app: &Lookup,
    site: Site,
    scope: &Places,
    from: &WireEnd,
    to: &WireEnd,
    facts: LineFacts,
) -> Result<Pair, Unlinked>
    ensures { result ≡ spec.wired_by (app_of app.now) site.instance (place_of scope.now) site.sign from.now to.now site.pos facts }
{
    let (a, b) = match facts {
        LineFacts::Refused(unlinked) => return Err(unlinked),
        LineFacts::Brackets(a, b) => (a, b),
    };
    let x = named(app, site.instance, scope, site.pos, from)?;
    let y = named(app, site.instance, scope, site.pos, to)?;
    let both = joined(app, site.sign, site.pos, x, y)?;
    pair_of(app, both, site.pos, a, b)
}

fn unless_refused(facts: LineFacts) -> Result<(), Unlinked>
    ensures passed { OnOk result ((done : ListOf PairOf) → spec.unless_refused facts done ≡ Ok done) }
    ensures refused { (done : ListOf PairOf) (unlinked : UnlinkedOf) → result ≡ Err unlinked → spec.unless_refused facts done ≡ Err unlinked }
{
    match facts {
        LineFacts::Refused(unlinked) => Err(unlinked),
        LineFacts::Brackets(..) => Ok(()),
    }
}

/// Adds what a line links to the pairs of earlier lines.
pub fn link_line(
    app: &Lookup,
    instance: usize,
    line: usize,
    scope: &Places,
    conf: &ConfLine,
    done: &mut Vec<Pair>,
) -> Result<(), Stop>
    ensures linked { OnOk result (spec.line_paired (app_of app.now) instance line (place_of scope.now) conf.now done.old.items ≡ Ok done.new.items) }
    ensures refused { (unlinked : UnlinkedOf) → result ≡ Err (Stop.Unlinked unlinked) → spec.line_paired (app_of app.now) instance line (place_of scope.now) conf.now done.old.items ≡ Err unlinked }
{
    let facts = line_facts_at(app, instance, line);
    match conf {
        ConfLine::Component { .. } | ConfLine::Decl(_) => unless_refused(facts)?,
        ConfLine::Link { from, to, pos } => {
            let site = Site {
                instance,
                sign: Sign::Arrow,
                pos: *pos,
            };
            done.push(wired(app, site, scope, from, to, facts)?)?;
        }
        ConfLine::Equate { a, b, pos } => {
            let site = Site {
                instance,
                sign: Sign::Equals,
                pos: *pos,
            };
            done.push(wired(app, site, scope, a, b, facts)?)?;
        }
    }
    Ok(())
}

fn bind(scope: &mut Places, alias: &Name, member: usize) -> Result<(), NoMemory>
    ensures { OnOk result (place_of scope.new ≡ with_name alias.now (Some member) (place_of scope.old)) }
{
    scope.set(alias, member)?;
    Ok(())
}

/// Gives the name that a line declares its instance.
pub fn declare_line(
    app: &Lookup,
    instance: usize,
    line: usize,
    conf: &ConfLine,
    scope: &mut Places,
) -> Result<(), NoMemory>
    ensures { OnOk result (place_of scope.new ≡ scope_behind (app_of app.now) instance line conf.now (place_of scope.old)) }
{
    match conf {
        ConfLine::Component {
            name,
            new_args,
            alias,
            ..
        } => match instance_named(app, instance, line, name, new_args) {
            Some(member) => bind(scope, alias, member),
            None => Ok(()),
        },
        ConfLine::Link { .. } | ConfLine::Equate { .. } | ConfLine::Decl(_) => Ok(()),
    }
}
