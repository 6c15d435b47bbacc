//! The components of instances, by their files.

ghost use Rattle.std.specs.Prelude.{◌≡◌, [], Some, IfOk, map, option_copied, is_some, unwrap_or};
ghost use Rattle.body_meaning.specs.View.{decl_of};
ghost use Rattle.wire_facts.specs.Components.{generic_in, param_of};
ghost use Rattle.wire_units.specs.Units as units;
ghost use Rattle.elab_application.specs.Files as spec;

use nesc_tree::{Decl, Elem, GenericParam, Head, Part};
use nm_base::{Name, NoMemory};
use wire_instances::Made;
use wire_units::Loaded;

/// The file of an instance's component.
pub fn file_of<'u>(units: &'u [Loaded], one: &Made) -> Option<&'u Loaded>
    ensures { option_copied result ≡ spec.file_of units.now one.now }
{
    units.get(one.component)
}

fn head_of(part: &Part) -> Option<&Head>
    ensures { option_copied result ≡ units.head_of part.now }
{
    match part {
        Part::Module(module) => Some(&module.head),
        Part::Config(config) => Some(&config.head),
        Part::Interface(_) | Part::Header => None,
    }
}

fn elems_in(part: &Part) -> &[Elem]
    ensures { result.now ≡ spec.elems_in part.now }
{
    match part {
        Part::Module(module) => module.head.elems.as_slice(),
        Part::Config(_) | Part::Interface(_) | Part::Header => &[],
    }
}

fn decls_in(part: &Part) -> &[Decl]
    ensures { map decl_of result.now ≡ spec.decls_in part.now }
{
    match part {
        Part::Module(module) => module.decls.as_slice(),
        Part::Config(_) | Part::Interface(_) | Part::Header => &[],
    }
}

/// The elements of a module.
pub fn elems_of(file: Option<&Loaded>) -> &[Elem]
    ensures { result.now ≡ spec.elems_of (option_copied file.entry) }
{
    match file {
        Some(file) => elems_in(&file.unit.part),
        None => &[],
    }
}

/// The declarations of a module's implementation.
pub fn decls_of(file: Option<&Loaded>) -> &[Decl]
    ensures { map decl_of result.now ≡ spec.decls_of (option_copied file.entry) }
{
    match file {
        Some(file) => decls_in(&file.unit.part),
        None => &[],
    }
}

fn params_in(head: &Head) -> &[GenericParam]
    ensures { map param_of result.now ≡ unwrap_or (generic_in (Some head.now)) [] }
{
    match &head.generic {
        Some(params) => params.as_slice(),
        None => &[],
    }
}

fn head_in(file: Option<&Loaded>) -> Option<&Head>
    ensures { generic_in (option_copied result) ≡ spec.generic_of (option_copied file.entry) }
{
    match file {
        Some(file) => head_of(&file.unit.part),
        None => None,
    }
}

/// Whether the component is generic.
pub fn is_generic(file: Option<&Loaded>) -> bool
    ensures { result ≡ is_some (spec.generic_of (option_copied file.entry)) }
{
    match head_in(file) {
        Some(head) => head.generic.is_some(),
        None => false,
    }
}

/// The parameters of a generic component.
pub fn params_of(file: Option<&Loaded>) -> &[GenericParam]
    ensures { map param_of result.now ≡ unwrap_or (spec.generic_of (option_copied file.entry)) [] }
{
    match head_in(file) {
        Some(head) => params_in(head),
        None => &[],
    }
}

fn name_in(part: &Part) -> Option<&Name>
    ensures { option_copied result ≡ units.name_of part.now }
{
    match part {
        Part::Interface(interface) => Some(&interface.name),
        Part::Module(module) => Some(&module.head.name),
        Part::Config(config) => Some(&config.head.name),
        Part::Header => None,
    }
}

/// The name of an instance's component. Creation makes instances of components alone, which have names.
pub fn name_of<'u>(file: Option<&'u Loaded>) -> Result<&'u Name, NoMemory>
    ensures { IfOk result (λ name. name.now ≡ spec.name_of (option_copied file.entry)) }
{
    let Some(file) = file else {
        return Err(NoMemory);
    };
    match name_in(&file.unit.part) {
        Some(name) => Ok(name),
        None => Err(NoMemory),
    }
}
