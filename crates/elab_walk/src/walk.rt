//! Declarations, one after the other.

ghost use Rattle.std.specs.Prelude.{map};
ghost use Rattle.body_meaning.specs.View.{decl_of};
ghost use Rattle.elab_making.specs.Does.{Does};
ghost use Rattle.elab_making.specs.View.{whole_of};
ghost use Rattle.elab_rules.specs.Tells.{Tells};
ghost use Rattle.elab_walk.specs.Parts as parts;
ghost use Rattle.program_meaning.specs.Walk as spec;
ghost use Rattle.program_meaning.specs.Walk.{Told};

use crate::functions::function_declared;
use crate::variables::variables_in;
use elab_making::Whole;
use elab_rules::ModuleTold;
use nesc_tree::Decl;
use nm_base::{Fault, Pos};
use std::alloc::Global;

// The name of a type, a struct or an enum.
fn declared_type(
    alloc: Global,
    m: &ModuleTold,
    whole: &mut Whole,
    d: &Decl,
    at: Pos,
) -> Result<(), Fault>
    ensures { (told : Told) → Tells m.now told → Does (λ _. tt) result (whole_of whole.new) (parts.declared_type told at (decl_of d.now) (whole_of whole.old)) }
{
    elab_locals::declaration(alloc, &m.told, &mut whole.work, d, at)?;
    Ok(())
}

/// One declaration, as `declarations` tells.
pub fn declaration(alloc: Global, m: &ModuleTold, whole: &mut Whole, d: &Decl) -> Result<(), Fault>
    ensures { (t : Told) → Tells m.now t → Does (λ _. tt) result (whole_of whole.new) (spec.declaration t (decl_of d.now) (whole_of whole.old)) }
{
    match d {
        Decl::Typedef { pos, .. } => declared_type(alloc, m, whole, d, *pos),
        Decl::TypeOnly(_, pos) => declared_type(alloc, m, whole, d, *pos),
        Decl::Vars(g) => variables_in(alloc, m, whole, g),
        Decl::Func { head, body } => function_declared(alloc, m, whole, head, body),
    }
}

/// The declarations of the headers, or of a module's instance, in the order of the text: names of types, variables and functions come in
/// force, and what they add to the program is added (C99, 6.7 and 6.9; nesC 1.3 Reference, 5 to 8). Errors: the first refusal, at its name,
/// its first call or its token, as the parts above tell; NoMemory also where a number is no u32.
pub fn declarations(
    alloc: Global,
    m: &ModuleTold,
    whole: &mut Whole,
    decls: &[Decl],
) -> Result<(), Fault>
    ensures { (t : Told) → Tells m.now t → Does (λ _. tt) result (whole_of whole.new) (spec.declarations t (map decl_of decls.now) (whole_of whole.old)) }
{
    for d in decls {
        declaration(alloc, m, whole, d)?;
    }
    Ok(())
}
