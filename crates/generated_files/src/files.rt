//! The files, each with its name.

ghost use Rattle.std.specs.Prelude.{◌≡◌, ◌≤◌, ◌<◌, ◌+◌, ◌^◌, ◌++◌, IfOk, OnOk, codes, map, string_bytes};
ghost use Rattle.std.specs.List.{range_with_len};
ghost use Rattle.generated_files.specs.Generated as spec;

use crate::texts::{configuration_text, interrupt_text, module_text};
use nm_base::{List, Name, NoMemory};
use std::alloc::Global;

/// The greatest number of modules.
pub const MAX_MODULES: u32 = 60;

// A name and a text as a file.
fn file(alloc: Global, name: &str, text: String) -> Result<(Name, List<u8>), NoMemory>
    ensures { IfOk result (λ f. f ≡ (name.now, string_bytes text)) }
{
    let name = Name::new(alloc, name.as_bytes())?;
    Ok((name, List::new(text.into_bytes())))
}

fn configuration_file(alloc: Global, n: u32) -> Result<(Name, List<u8>), NoMemory>
    ensures { IfOk result (λ f. f ≡ (codes "GenAppC.nc", spec.configuration_text n)) }
{
    file(alloc, "GenAppC.nc", configuration_text(alloc, n)?)
}

#[tactic(auto, using(crate::proofs::Pieces::module_named))]
fn module_file(alloc: Global, k: u32) -> Result<(Name, List<u8>), NoMemory>
    requires { k + 1 < 2 ^ 32 }
    ensures { IfOk result (λ f. f ≡ spec.module_file k) }
{
    let name = format!(in alloc; "G{k}C.nc")?;
    file(alloc, name.as_str(), module_text(alloc, k)?)
}

fn interrupt_file(alloc: Global) -> Result<(Name, List<u8>), NoMemory>
    ensures { IfOk result (λ f. f ≡ (codes "GenIrqC.nc", spec.interrupt_text)) }
{
    file(alloc, "GenIrqC.nc", interrupt_text(alloc)?)
}

// The files of all modules.
fn push_modules(alloc: Global, files: &mut Vec<(Name, List<u8>)>, n: u32) -> Result<(), NoMemory>
    ensures { OnOk result (files.new.items ≡ files.old.items ++ map spec.module_file (range_with_len 0 n)) }
{
    for k in 0..n {
        files.push(module_file(alloc, k)?)?;
    }
    Ok(())
}

/// The files of the application of `n` modules, in this order: the configuration `GenAppC`, which wires all to `MainC`; the modules `G0C`,
/// `G1C` and so on, where the task of module k writes k + 1, twice that and three times that to port 0x0120; and `GenIrqC`, which counts how
/// often line 2 enters it. The only error is want of memory.
pub fn gen_files(alloc: Global, n: u32) -> Result<Vec<(Name, List<u8>)>, NoMemory>
    requires some { 1 ≤ n }
    requires at_most { n ≤ MAX_MODULES }
    ensures { IfOk result (λ files. files.items ≡ spec.generated n) }
{
    let mut files = Vec::new(alloc);
    files.push(configuration_file(alloc, n)?)?;
    push_modules(alloc, &mut files, n)?;
    files.push(interrupt_file(alloc)?)?;
    Ok(files)
}
