//! The elements of instances.

ghost use Rattle.std.specs.Prelude.{◌≡◌, [], length, slice_get};
ghost use Rattle.wire_units.specs.Units.{head_of};
ghost use Rattle.wire_pairs.specs.Application.{elems_in, elems_of_file, element_facts_in, greatest_in};
ghost use Rattle.wire_pairs.specs.Application as spec;

use nesc_tree::Part;
use wire_instances::Made;
use wire_pairs::InstanceFacts;
use wire_units::Loaded;

fn count_in(part: &Part) -> usize
    ensures { result ≡ length (elems_in (head_of part.now)) }
{
    match part {
        Part::Module(module) => module.head.elems.as_slice().len(),
        Part::Config(config) => config.head.elems.as_slice().len(),
        Part::Interface(_) | Part::Header => 0,
    }
}

fn count_at(units: &[Loaded], component: usize) -> usize
    ensures { result ≡ length (elems_of_file (slice_get units.now component)) }
{
    match units.get(component) {
        Some(loaded) => count_in(&loaded.unit.part),
        None => 0,
    }
}

/// The number of elements of an instance.
pub fn element_count(units: &[Loaded], made: &[Made], instance: usize) -> usize
    ensures { result ≡ length (spec.elems_of (record { units = units.now; made = made.now; facts = [] }) instance) }
{
    match made.get(instance) {
        Some(made) => count_at(units, made.component),
        None => 0,
    }
}

/// The greatest value of the parameter of an element, where it has one.
pub fn greatest_at(facts: &[InstanceFacts], instance: usize, element: usize) -> Option<u16>
    ensures { result ≡ greatest_in (slice_get (element_facts_in (slice_get facts.now instance)) element) }
{
    match facts.get(instance) {
        Some(told) => match told.elements.as_slice().get(element) {
            Some(element) => element.greatest,
            None => None,
        },
        None => None,
    }
}
