//! Operators and casts on constants.

ghost use Rattle.std.specs.Prelude.{◌≡◌, Ok};
ghost use Rattle.nesc_core.specs.View.{type_of};
ghost use Rattle.nesc_types.specs.Constant as constants;
ghost use Rattle.elab_meaning.specs.Answers.{Follows};
ghost use Rattle.elab_meaning.specs.Convert as convert;

use elab_values::{int_of, not_constant};
use nesc_core::{CoreType, UnOp};
use nesc_tree::{InOp, PreOp};
use nesc_types::{Constant, operators};
use nm_base::{Fault, Pos};

/// An operator before a constant.
pub fn prefixed_constant(whole: Pos, o: PreOp, x: Constant) -> Result<Constant, Fault>
    ensures { Follows (λ x. x) result (constants.prefixed whole o (Ok x)) }
{
    match o {
        PreOp::Plus => Ok(operators::kept(x)),
        PreOp::Neg => Ok(operators::at_promoted(UnOp::Neg, x)),
        PreOp::Not => Ok(operators::at_promoted(UnOp::Not, x)),
        PreOp::IsZero => Ok(operators::negated(x)),
        PreOp::Inc | PreOp::Dec | PreOp::Addr | PreOp::Deref => not_constant(whole),
    }
}

/// An operator between two constants.
#[tactic(auto, using(crate::proofs::Rules::rules_follow))]
pub fn computed(
    whole: Pos,
    evaluated: bool,
    o: InOp,
    x: Constant,
    y: Constant,
) -> Result<Constant, Fault>
    ensures { Follows (λ x. x) result (constants.computed whole evaluated o x y) }
{
    operators::computed(whole, evaluated, o, x, y)
}

/// The second or the third operand of `?:`, at the type that both have.
pub fn chosen_constant(x: Constant, y: Constant, z: Constant) -> Constant
    ensures { result ≡ constants.chosen x y z }
{
    operators::chosen(x, y, z)
}

/// A number as one of the type of a cast.
#[tactic(auto, using(crate::proofs::Rules::rules_follow))]
pub fn int_constant(at: Pos, to: &CoreType, x: Constant) -> Result<Constant, Fault>
    ensures { Follows (λ x. x) result (constants.converted at (convert.int_of (type_of to.now)) x) }
{
    operators::converted(at, int_of(to), x)
}
