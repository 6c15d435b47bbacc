//! Names of instances in print.

ghost use Rattle.std.specs.Prelude.{◌≡◌, IfOk};
ghost use Rattle.elab_targets.specs.View.{instance_of};
ghost use Rattle.program_meaning.specs.Items as spec;

use elab_targets::Instance;
use nm_base::{Name, NoMemory};
use std::alloc::Global;

fn copy_text(alloc: Global, copy: Option<u32>) -> Result<Vec<u8>, NoMemory>
    ensures { IfOk result (λ v. v.items ≡ spec.copy_text copy) }
{
    match copy {
        None => Ok(Vec::new(alloc)),
        Some(copy) => {
            let text = format!(in alloc; "#{copy}")?;
            Ok(text.as_bytes().to_vec(alloc)?)
        }
    }
}

/// The component's name, and behind it the number of the copy of a generic component: `C`, or `C#2`.
pub(crate) fn instance_text(alloc: Global, instance: &Instance) -> Result<Name, NoMemory>
    ensures { IfOk result (λ n. n ≡ spec.instance_text (instance_of instance.now)) }
{
    let copy = copy_text(alloc, instance.copy)?;
    let mut text = instance.component.as_bytes().to_vec(alloc)?;
    text.extend_from_slice(copy.as_slice())?;
    Name::new(alloc, text.as_slice())
}
