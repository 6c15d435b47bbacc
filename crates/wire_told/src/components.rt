//! The components of instances, and what is told to them.

ghost use Rattle.std.specs.Prelude.{◌≡◌, [], Some, map, option_copied, is_some, unwrap_or};
ghost use Rattle.wire_facts.specs.Components.{element_of, elements_in, generic_in, line_of, param_of};
ghost use Rattle.wire_facts.specs.Seen as spec;
ghost use Rattle.wire_units.specs.Units as units;
ghost use Rattle.wire_elements.specs.View.{early_env};
ghost use Rattle.wire_told.specs.Cuts.{file_of};
ghost use Rattle.wire_told.specs.View.{application_of};

use crate::sources::Sources;
use nesc_tree::{ConfLine, Elem, GenericParam, Head, Part};
use nm_base::Pos;
use wire_elements::Early;
use wire_units::Loaded;

fn head_of(part: &Part) -> Option<&Head>
    ensures { option_copied result ≡ units.head_of part.now }
{
    match part {
        Part::Module(module) => Some(&module.head),
        Part::Config(config) => Some(&config.head),
        Part::Interface(_) | Part::Header => None,
    }
}

fn lines_in(part: &Part) -> &[ConfLine]
    ensures { result.now ≡ units.lines_in part.now }
{
    match part {
        Part::Config(config) => config.lines.as_slice(),
        Part::Interface(_) | Part::Module(_) | Part::Header => &[],
    }
}

// The file of an instance's component.
fn file_of<'u>(sources: &Sources<'u>, instance: usize) -> Option<&'u Loaded>
    ensures { option_copied result ≡ file_of sources.now instance }
{
    match sources.made.get(instance) {
        Some(made) => sources.units.get(made.component),
        None => None,
    }
}

/// What is told to an instance.
#[tactic(auto, using(crate::proofs::Found::found))]
pub fn env_of<'u>(sources: &Sources<'u>, instance: usize) -> &'u Early
    ensures { early_env result.now ≡ spec.env_of (application_of sources.now) instance }
{
    match sources.envs.get(instance) {
        Some(early) => early,
        None => sources.headers,
    }
}

fn is_generic_in(part: &Part) -> bool
    ensures { result ≡ is_some (generic_in (units.head_of part.now)) }
{
    match head_of(part) {
        Some(head) => head.generic.is_some(),
        None => false,
    }
}

fn params_of(head: &Head) -> &[GenericParam]
    ensures { map param_of result.now ≡ unwrap_or (generic_in (Some head.now)) [] }
{
    match &head.generic {
        Some(params) => params.as_slice(),
        None => &[],
    }
}

fn params_in(part: &Part) -> &[GenericParam]
    ensures { map param_of result.now ≡ unwrap_or (generic_in (units.head_of part.now)) [] }
{
    match head_of(part) {
        Some(head) => params_of(head),
        None => &[],
    }
}

fn elements_in(part: &Part) -> &[Elem]
    ensures { map element_of result.now ≡ elements_in (units.head_of part.now) }
{
    match head_of(part) {
        Some(head) => head.elems.as_slice(),
        None => &[],
    }
}

/// Whether the component of an instance is generic.
#[tactic(auto, using(crate::proofs::Found::found))]
pub fn is_generic(sources: &Sources, instance: usize) -> bool
    ensures { result ≡ is_some (spec.component_of (application_of sources.now) instance).generic }
{
    match file_of(sources, instance) {
        Some(file) => is_generic_in(&file.unit.part),
        None => false,
    }
}

/// The parameters of an instance's component, where it is generic.
#[tactic(auto, using(crate::proofs::Found::found))]
pub fn params_at<'u>(sources: &Sources<'u>, instance: usize) -> &'u [GenericParam]
    ensures { map param_of result.now ≡ unwrap_or (spec.component_of (application_of sources.now) instance).generic [] }
{
    match file_of(sources, instance) {
        Some(file) => params_in(&file.unit.part),
        None => &[],
    }
}

/// The elements of an instance.
#[tactic(auto, using(crate::proofs::Found::found))]
pub fn elements_at<'u>(sources: &Sources<'u>, instance: usize) -> &'u [Elem]
    ensures { map element_of result.now ≡ (spec.component_of (application_of sources.now) instance).elements }
{
    match file_of(sources, instance) {
        Some(file) => elements_in(&file.unit.part),
        None => &[],
    }
}

/// The lines of an instance.
#[tactic(auto, using(crate::proofs::Found::found))]
pub fn lines_at<'u>(sources: &Sources<'u>, instance: usize) -> &'u [ConfLine]
    ensures { map line_of result.now ≡ (spec.component_of (application_of sources.now) instance).lines }
{
    match file_of(sources, instance) {
        Some(file) => lines_in(&file.unit.part),
        None => &[],
    }
}

/// Where the name of an instance's component stands.
#[tactic(auto, using(crate::proofs::Found::found))]
pub fn place_at(sources: &Sources, instance: usize) -> Pos
    ensures { result ≡ (spec.component_of (application_of sources.now) instance).at }
{
    match file_of(sources, instance) {
        Some(file) => file.at,
        None => Pos {
            file: 0,
            line: 1,
            col: 1,
        },
    }
}
