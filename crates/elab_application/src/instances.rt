//! The instances of an application.

ghost use Rattle.std.specs.Prelude.{◌≡◌, IfOk, map};
ghost use Rattle.wire_elements.specs.View.{seen_of};
ghost use Rattle.wire_told.specs.View.{application_of};
ghost use Rattle.elab_targets.specs.View.{instance_of};
ghost use Rattle.elab_application.specs.Instances as spec;
ghost use Rattle.elab_application.specs.Instances.{Each, IsInstance};

use crate::arguments::given_in;
use crate::components::{decls_of, elems_of, file_of, is_generic, name_of, params_of};
use crate::elements::{elements_of, short};
use crate::ground::Ground;
use crate::seen::{elements_at, env_of, names_at, uniques_of};
use elab_targets::Instance;
use nm_base::{NoMemory, beside};
use std::alloc::Global;
use wire_elements::Seen;
use wire_instances::Made;
use wire_told::Sources;

fn copy_of(is_generic: bool, copy: usize) -> Result<Option<u32>, NoMemory>
    ensures { IfOk result (λ o. o ≡ spec.copy_of is_generic copy) }
{
    if is_generic {
        Ok(Some(short(copy)?))
    } else {
        Ok(None)
    }
}

// An instance by its number.
fn instance<'u>(
    alloc: Global,
    ground: &Ground<'u, '_>,
    sources: &Sources,
    seen: &[Seen],
    number: usize,
    one: &Made,
) -> Result<Instance<'u>, NoMemory>
    ensures { IfOk result (λ x. IsInstance ground.now.units.now ground.now.made.now ground.now.pairs.now (application_of sources.now) (map seen_of seen.now) number one.now (instance_of x)) }
{
    let file = file_of(ground.units, one);
    let component = name_of(file)?;
    let copy = copy_of(is_generic(file), one.copy)?;
    let instance = short(number)?;
    let uniques = uniques_of(alloc, env_of(sources, number))?;
    let given = given_in(alloc, names_at(seen, number), params_of(file))?;
    let elems = elements_of(
        alloc,
        ground,
        instance,
        elements_at(seen, number),
        elems_of(file),
    );
    let (given, elems) = beside(given, elems)?;
    Ok(Instance {
        component,
        copy,
        given,
        elems,
        uniques,
        decls: decls_of(file),
    })
}

/// The instances in the order of their creation, where this is seen of them.
pub fn instances_of<'u>(
    alloc: Global,
    ground: &Ground<'u, '_>,
    sources: &Sources,
    seen: &[Seen],
) -> Result<Vec<Instance<'u>>, NoMemory>
    ensures { IfOk result (λ xs. Each (IsInstance ground.now.units.now ground.now.made.now ground.now.pairs.now (application_of sources.now) (map seen_of seen.now)) 0 ground.now.made.now (map instance_of xs.items)) }
{
    let mut all = Vec::new(alloc);
    let mut number = 0;
    let mut rest = ground.made;
    while let Some((one, more)) = rest.split_first() {
        all.push(instance(alloc, ground, sources, seen, number, one)?)?;
        number += 1;
        rest = more;
    }
    Ok(all)
}
