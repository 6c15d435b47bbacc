//! The declarations of headers.

ghost use Rattle.std.specs.Prelude.{◌≡◌, IfOk, flat_map, map};
ghost use Rattle.body_meaning.specs.View.{decl_of};
ghost use Rattle.wire_facts.specs.Components.{components_of};
ghost use Rattle.elab_application.specs.Given.{decls_of};

use nesc_tree::Decl;
use nm_base::NoMemory;
use std::alloc::Global;
use wire_units::Loaded;

/// The declarations of each file, in the order of reading.
pub fn headers_of(alloc: Global, units: &[Loaded]) -> Result<Vec<&[Decl]>, NoMemory>
    ensures { IfOk result (λ v. flat_map (λ ds. map decl_of ds.now) v.items ≡ decls_of (components_of units.now)) }
{
    let mut headers = Vec::new(alloc);
    let mut rest = units;
    while let Some((loaded, more)) = rest.split_first() {
        headers.push(loaded.unit.decls.as_slice())?;
        rest = more;
    }
    Ok(headers)
}
