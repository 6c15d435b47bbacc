//! What an application has at a place.

ghost use Rattle.std.specs.Prelude.{◌≡◌, option_copied, option_and_then, slice_get};
ghost use Rattle.wire_names.specs.Places.{place_of};
ghost use Rattle.wire_units.specs.Units as units;
ghost use Rattle.wire_pairs.specs.Application as spec;
ghost use Rattle.wire_pairs.specs.Fits.{elem_at, args_at};
ghost use Rattle.wire_pairs.specs.Pairs.{greatest_at, lines_of_file};
ghost use Rattle.wire_pairs.specs.Lookup.{app_of};

use crate::ends::Spot;
use crate::facts::{ElementFacts, LineFacts};
use crate::lookup::Lookup;
use crate::tables::elems_of;
use nesc_tree::{ConfLine, Elem, GenericArg, Part};
use nm_base::{List, Name};
use wire_names::Places;
use wire_units::Loaded;

/// The file of an instance's component.
pub fn file_of<'u>(app: &Lookup<'u>, instance: usize) -> Option<&'u Loaded>
    ensures { option_copied result ≡ spec.file_of (app_of app.now) instance }
{
    match app.made.get(instance) {
        Some(made) => app.units.get(made.component),
        None => None,
    }
}

/// The elements of an instance.
pub fn elems_at<'u>(app: &Lookup<'u>, instance: usize) -> &'u [Elem]
    ensures { result.now ≡ spec.elems_of (app_of app.now) instance }
{
    match file_of(app, instance) {
        Some(loaded) => elems_of(&loaded.unit.part),
        None => &[],
    }
}

fn place_in(tables: &[Places], component: usize, name: &Name) -> Option<usize>
    ensures { result ≡ option_and_then (λ t. place_of t name.now) (slice_get tables.now component) }
{
    match tables.get(component) {
        Some(places) => places.get(name),
        None => None,
    }
}

/// The element of this name of an instance.
pub fn element_named(app: &Lookup, instance: usize, name: &Name) -> Option<usize>
    ensures { result ≡ spec.element_in (spec.elems_of (app_of app.now) instance) name.now }
{
    match app.made.get(instance) {
        Some(made) => place_in(app.elements.as_slice(), made.component, name),
        None => None,
    }
}

/// The element at a place.
pub fn elem_at<'u>(app: &Lookup<'u>, x: Spot) -> Option<&'u Elem>
    ensures { option_copied result ≡ elem_at (app_of app.now) x }
{
    elems_at(app, x.instance).get(x.element)
}

fn element_facts<'u>(app: &Lookup<'u>, x: Spot) -> Option<&'u ElementFacts>
    ensures { option_copied result ≡ spec.element_facts (app_of app.now) x.instance x.element }
{
    match app.facts.get(x.instance) {
        Some(facts) => facts.elements.as_slice().get(x.element),
        None => None,
    }
}

/// The type arguments of an element's interface.
pub fn args_at<'u>(app: &Lookup<'u>, x: Spot) -> &'u [u32]
    ensures { result.now ≡ args_at (app_of app.now) x }
{
    match element_facts(app, x) {
        Some(facts) => facts.args.as_slice(),
        None => &[],
    }
}

/// The greatest value of an element's parameter.
pub fn greatest_at(app: &Lookup, x: Spot) -> Option<u16>
    ensures { result ≡ greatest_at (app_of app.now) x }
{
    match element_facts(app, x) {
        Some(facts) => facts.greatest,
        None => None,
    }
}

/// What is told of a line.
pub fn line_facts_at(app: &Lookup, instance: usize, line: usize) -> LineFacts
    ensures { result ≡ spec.line_facts_at (app_of app.now) instance line }
{
    let Some(facts) = app.facts.get(instance) else {
        return LineFacts::Brackets(None, None);
    };
    match facts.lines.as_slice().get(line) {
        Some(facts) => *facts,
        None => LineFacts::Brackets(None, None),
    }
}

/// The lines of an instance.
pub fn lines_at<'u>(app: &Lookup<'u>, instance: usize) -> &'u [ConfLine]
    ensures { result.now ≡ lines_of_file (spec.file_of (app_of app.now) instance) }
{
    match file_of(app, instance) {
        Some(loaded) => lines_in(&loaded.unit.part),
        None => &[],
    }
}

fn lines_in(part: &Part) -> &[ConfLine]
    ensures { result.now ≡ units.lines_in part.now }
{
    match part {
        Part::Config(config) => config.lines.as_slice(),
        Part::Interface(_) | Part::Module(_) | Part::Header => &[],
    }
}

/// The instance that a line names.
pub fn instance_named(
    app: &Lookup,
    instance: usize,
    line: usize,
    name: &Name,
    args: &Option<List<GenericArg>>,
) -> Option<usize>
    ensures { result ≡ spec.instance_named (app_of app.now) instance line name.now args.now }
{
    match args {
        None => app.singles.get(name),
        Some(_) => app.makers.get(&(instance, line)).copied(),
    }
}
