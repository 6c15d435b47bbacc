//! Functions that have bodies, among declarations.

ghost use Rattle.std.specs.Prelude.{◌≡◌, option_map};
ghost use Rattle.body_meaning.specs.View.{decl_of, head_of};
ghost use Rattle.program_meaning.specs.Numbers as spec;

use nesc_tree::{Decl, FuncHead};

/// The head of a function that has a body.
pub fn definition_in(decl: &Decl) -> Option<&FuncHead>
    ensures { option_map (λ h. head_of h.now) result ≡ spec.definition_in (decl_of decl.now) }
{
    match decl {
        Decl::Typedef { .. } => None,
        Decl::TypeOnly(_, _) => None,
        Decl::Vars(_) => None,
        Decl::Func { head, body } => match body {
            None => None,
            Some(_) => Some(head),
        },
    }
}
