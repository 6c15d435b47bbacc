//! The functions that are called and the tasks that are posted, by the declarations of headers and of instances.

ghost use Rattle.std.specs.Prelude.{◌≡◌, ◌++◌, List, map, flat_map, IfOk, OnOk};
ghost use Rattle.body_meaning.specs.View.{decl_of};
ghost use Rattle.elab_targets.specs.Places.{AreUsed};
ghost use Rattle.elab_targets.specs.View.{application_of, instance_of};
ghost use Rattle.program_meaning.specs.Modules as spec;
ghost use Rattle.program_meaning.specs.Uses as uses;
ghost use Rattle.program_meaning.specs.declared.used.Use.{Use as UseOf};

use crate::own::foreign_uses;
use elab_targets::{Application, Instance, Used};
use elab_uses::in_decls;
use nesc_tree::Decl;
use nm_base::NoMemory;
use program_meaning::Use;
use std::alloc::Global;

fn uses_in(alloc: Global, decls: &[Decl]) -> Result<Vec<Use>, NoMemory>
    ensures { IfOk result (λ v. v.items ≡ uses.in_decls (map decl_of decls.now)) }
{
    let mut found = Vec::new(alloc);
    in_decls(&mut found, decls)?;
    Ok(found)
}

fn add_uses(alloc: Global, used: &mut Used, decls: &[Decl]) -> Result<(), NoMemory>
    ensures { OnOk result ((us : List UseOf) → AreUsed us used.old → AreUsed (us ++ uses.in_decls (map decl_of decls.now)) used.new) }
{
    let found = uses_in(alloc, decls)?;
    used.add(found.as_slice())
}

fn add_header_uses(alloc: Global, used: &mut Used, headers: &[&[Decl]]) -> Result<(), NoMemory>
    ensures { OnOk result ((us : List UseOf) → AreUsed us used.old → AreUsed (us ++ uses.in_decls (flat_map (λ h. map decl_of h.now) headers.now)) used.new) }
{
    for decls in headers {
        add_uses(alloc, used, decls)?;
    }
    Ok(())
}

// Those of an instance, but of functions that it declares itself.
fn add_foreign_uses(alloc: Global, used: &mut Used, decls: &[Decl]) -> Result<(), NoMemory>
    ensures { OnOk result ((us : List UseOf) → AreUsed us used.old → AreUsed (us ++ spec.foreign_uses (map decl_of decls.now)) used.new) }
{
    let found = uses_in(alloc, decls)?;
    let foreign = foreign_uses(alloc, decls, found)?;
    used.add(foreign.as_slice())
}

fn add_instance_uses(alloc: Global, used: &mut Used, instances: &[Instance]) -> Result<(), NoMemory>
    ensures { OnOk result ((us : List UseOf) → AreUsed us used.old → AreUsed (us ++ spec.uses_in_instances (map instance_of instances.now)) used.new) }
{
    for instance in instances {
        add_foreign_uses(alloc, used, instance.decls)?;
    }
    Ok(())
}

/// The uses of the names of headers' functions, in headers and in instances: a module that declares a function uses its own. It takes time
/// linear in the declarations of headers and of all instances.
pub fn header_uses(alloc: Global, app: &Application) -> Result<Used, NoMemory>
    ensures { IfOk result (λ u. AreUsed (spec.header_uses (application_of app.now)) u) }
{
    let mut used = Used::new(alloc);
    add_header_uses(alloc, &mut used, app.headers.as_slice())?;
    add_instance_uses(alloc, &mut used, app.instances.as_slice())?;
    Ok(used)
}

/// The uses of the names of functions in the declarations of an instance.
pub fn instance_uses(alloc: Global, instance: &Instance) -> Result<Used, NoMemory>
    ensures { IfOk result (λ u. AreUsed (uses.in_decls (instance_of instance.now).decls) u) }
{
    let mut used = Used::new(alloc);
    add_uses(alloc, &mut used, instance.decls)?;
    Ok(used)
}
