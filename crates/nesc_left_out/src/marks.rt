//! A word that is left out behind a sign alone.

ghost use Rattle.std.specs.Prelude.{◌≡◌, false};
ghost use Rattle.nesc_left_out.specs.Marks as spec;

use nesc_operands::operators::is_spelled;
use nm_base::{Kind, Token};

// Makes `hwevent` behind `@` a sign.
fn mark_one(behind_at: bool, token: &mut Token)
    ensures { token.new ≡ spec.marked_one behind_at token.old }
{
    if behind_at && is_spelled(token, b"hwevent") {
        token.kind = Kind::Sign;
    }
}

/// Makes each word `hwevent` behind `@` a sign, which stands in no form: attributes of this name are left out. What is read by the grammar
/// goes through this first.
pub fn mark(tokens: &mut [Token])
    ensures { tokens.new ≡ spec.marked tokens.old }
{
    let mut behind_at = false;
    for token in tokens.iter_mut() {
        let is_at = is_spelled(token, b"@");
        mark_one(behind_at, token);
        behind_at = is_at;
    }
}
