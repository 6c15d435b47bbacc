//! All declarations of an application.

ghost use Rattle.std.specs.Prelude.{◌≡◌, map};
ghost use Rattle.elab_facts.specs.View.{declared_of};
ghost use Rattle.elab_making.specs.Does.{Does};
ghost use Rattle.elab_making.specs.View.{whole_of};
ghost use Rattle.elab_targets.specs.Starts.{AreTables};
ghost use Rattle.elab_targets.specs.View.{application_of};
ghost use Rattle.elab_told.specs.View.{met_of};
ghost use Rattle.program_meaning.specs.Modules as spec;
ghost use Rattle.elab_modules.specs.Behind as parts;

use crate::around::{Around, outer_in};
use crate::headers::headers_declared;
use crate::instances::instances_declared;
use crate::numbers::met_behind;
use elab_facts::Declared;
use elab_making::Whole;
use elab_targets::{Application, Tables};
use elab_told::{Met, header_told, header_uses, structs_met};
use nm_base::Fault;
use std::alloc::Global;
use std::mem::replace;

// The declarations of headers, with the numbers of the structs that they declare outside functions.
fn all_headers(
    alloc: Global,
    app: &Application,
    tables: &Tables,
    whole: &mut Whole,
) -> Result<Vec<u32>, Fault>
    ensures { AreTables (application_of app.now) tables.now → Does (λ v. v.items) result (whole_of whole.new) (spec.headers_declared (spec.header_told (application_of app.now)) (application_of app.now).headers (whole_of whole.old)) }
{
    let used = header_uses(alloc, app)?;
    let told = header_told(alloc, app, tables, &used)?;
    headers_declared(alloc, &told, whole, app.headers.as_slice())
}

// Takes what headers declared, which each instance is lent.
fn take_declared(alloc: Global, whole: &mut Whole) -> Vec<Declared>
    ensures taken { map declared_of result.items ≡ (whole_of whole.old).declared }
    ensures left { whole_of whole.new ≡ parts.without_declared (whole_of whole.old) }
{
    replace(&mut whole.declared, Vec::new(alloc))
}

// The instances, behind the headers. Without any, what headers declared is what was declared last.
fn all_instances(
    alloc: Global,
    app: &Application,
    tables: &Tables,
    met: &Met,
    whole: &mut Whole,
) -> Result<(), Fault>
    ensures { AreTables (application_of app.now) tables.now → Does (λ _. tt) result (whole_of whole.new) (parts.all_instances (application_of app.now) (met_of met.now) (whole_of whole.old)) }
{
    let instances = app.instances.as_slice();
    if instances.is_empty() {
        return Ok(());
    }
    let outer = outer_in(&whole.work);
    let declared = take_declared(alloc, whole);
    let around = Around {
        app,
        tables,
        headers: declared.as_slice(),
        outer,
        met,
    };
    instances_declared(alloc, &around, whole, instances)
}

// The structs that were met in wires, and the instances.
fn behind_headers(
    alloc: Global,
    app: &Application,
    tables: &Tables,
    met: &Met,
    whole: &mut Whole,
) -> Result<(), Fault>
    ensures { AreTables (application_of app.now) tables.now → Does (λ _. tt) result (whole_of whole.new) (spec.behind_headers (application_of app.now) (met_of met.now) (whole_of whole.old)) }
{
    structs_met(alloc, whole, met, app.structs.as_slice())?;
    all_instances(alloc, app, tables, met, whole)
}

/// All declarations of an application: those of headers in reading order, then those of each instance, in its scope.
/// Errors: the first refusal, as the walk over declarations tells; NoMemory also where a number is no u32.
pub fn all_declared(
    alloc: Global,
    app: &Application,
    tables: &Tables,
    whole: &mut Whole,
) -> Result<(), Fault>
    ensures { AreTables (application_of app.now) tables.now → Does (λ _. tt) result (whole_of whole.new) (spec.all_declared (application_of app.now) (whole_of whole.old)) }
{
    let numbers = all_headers(alloc, app, tables, whole)?;
    let met = met_behind(numbers, whole)?;
    behind_headers(alloc, app, tables, &met, whole)
}
