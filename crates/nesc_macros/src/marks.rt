//! What a token is among the arguments of a use.

ghost use Rattle.std.specs.Prelude.{List as ListOf};
ghost use Rattle.nesc_macros.specs.Invocation.{PreprocessingToken};
ghost use Rattle.nesc_macros.specs.Numbers.{Scope, shown};
ghost use Rattle.nesc_macros.specs.Code.{StepsBy};

use crate::definition::NumberedToken;
use crate::names::is_sign;

/// What a token is among the arguments of a use.
pub enum Mark {
    Opens,
    Closes,
    Ends,
    Separates,
    Belongs,
}

/// What the token is, behind so many open parentheses.
pub fn mark_of(token: &NumberedToken, depth: usize) -> Mark
    ensures { (scope : Scope) (now : ListOf PreprocessingToken) (before : ListOf (ListOf PreprocessingToken)) (ts : ListOf PreprocessingToken)
        → StepsBy result depth (shown scope token.now) now before ts }
{
    if is_sign(b"(", &token.token) {
        Mark::Opens
    } else if is_sign(b")", &token.token) {
        if depth == 0 { Mark::Ends } else { Mark::Closes }
    } else if is_sign(b",", &token.token) && depth == 0 {
        Mark::Separates
    } else {
        Mark::Belongs
    }
}
