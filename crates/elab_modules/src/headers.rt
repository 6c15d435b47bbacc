//! The declarations of headers, in reading order.

ghost use Rattle.std.specs.Prelude.{flat_map, map};
ghost use Rattle.body_meaning.specs.View.{decl_of};
ghost use Rattle.elab_making.specs.Does.{Does};
ghost use Rattle.elab_making.specs.View.{whole_of};
ghost use Rattle.elab_rules.specs.Tells.{Tells};
ghost use Rattle.program_meaning.specs.Modules as spec;
ghost use Rattle.program_meaning.specs.Walk.{Told};
ghost use Rattle.elab_modules.specs.Behind as parts;

use crate::numbers::{add_numbers, declared_by};
use elab_making::Whole;
use elab_rules::ModuleTold;
use elab_walk::declaration;
use nesc_tree::Decl;
use nm_base::Fault;
use std::alloc::Global;

// A declaration, with the numbers of the structs that it declares outside a function.
fn header_declared(
    alloc: Global,
    m: &ModuleTold,
    whole: &mut Whole,
    d: &Decl,
) -> Result<Vec<u32>, Fault>
    ensures { (t : Told) → Tells m.now t → Does (λ v. v.items) result (whole_of whole.new) (parts.header_declared t (decl_of d.now) (whole_of whole.old)) }
{
    let before = whole.work.structs.len();
    declaration(alloc, m, whole, d)?;
    Ok(declared_by(alloc, d, before, whole.work.structs.len())?)
}

// The declarations of one header.
fn one_header(
    alloc: Global,
    m: &ModuleTold,
    whole: &mut Whole,
    decls: &[Decl],
) -> Result<Vec<u32>, Fault>
    ensures { (t : Told) → Tells m.now t → Does (λ v. v.items) result (whole_of whole.new) (spec.headers_declared t (map decl_of decls.now) (whole_of whole.old)) }
{
    let mut numbers = Vec::new(alloc);
    for d in decls {
        let more = header_declared(alloc, m, whole, d)?;
        add_numbers(&mut numbers, more)?;
    }
    Ok(numbers)
}

/// The declarations of all headers, with the numbers of the structs that they declare outside functions.
pub(crate) fn headers_declared(
    alloc: Global,
    m: &ModuleTold,
    whole: &mut Whole,
    headers: &[&[Decl]],
) -> Result<Vec<u32>, Fault>
    ensures { (t : Told) → Tells m.now t → Does (λ v. v.items) result (whole_of whole.new) (spec.headers_declared t (flat_map (λ h. map decl_of h.now) headers.now) (whole_of whole.old)) }
{
    let mut numbers = Vec::new(alloc);
    for decls in headers {
        let more = one_header(alloc, m, whole, decls)?;
        add_numbers(&mut numbers, more)?;
    }
    Ok(numbers)
}
