//! Operators by their spelling.

ghost use Rattle.std.specs.Prelude.{◌≡◌, bytes_eq, map};
ghost use Rattle.nesc_grammar.specs.Grammar as grammar;
ghost use Rattle.nesc_operands.specs.Spelling.{row_of};

use nesc_tree::{InOp, PostOp, PreOp};
use nm_base::Token;

const INFIX: [(&[u8], InOp); 17] = [
    (b"*", InOp::Mul),
    (b"/", InOp::Div),
    (b"%", InOp::Rem),
    (b"+", InOp::Add),
    (b"-", InOp::Sub),
    (b"<<", InOp::Shl),
    (b">>", InOp::Shr),
    (b"<", InOp::Lt),
    (b">", InOp::Gt),
    (b"<=", InOp::Le),
    (b">=", InOp::Ge),
    (b"==", InOp::Eq),
    (b"!=", InOp::Ne),
    (b"&", InOp::And),
    (b"^", InOp::Xor),
    (b"|", InOp::Or),
    (b"&&", InOp::AndAnd),
];

const ASSIGNMENTS: [(&[u8], Option<InOp>); 10] = [
    (b"=", None),
    (b"*=", Some(InOp::Mul)),
    (b"/=", Some(InOp::Div)),
    (b"%=", Some(InOp::Rem)),
    (b"+=", Some(InOp::Add)),
    (b"-=", Some(InOp::Sub)),
    (b"<<=", Some(InOp::Shl)),
    (b">>=", Some(InOp::Shr)),
    (b"&=", Some(InOp::And)),
    (b"^=", Some(InOp::Xor)),
];

const PREFIX: [(&[u8], PreOp); 7] = [
    (b"++", PreOp::Inc),
    (b"--", PreOp::Dec),
    (b"&", PreOp::Addr),
    (b"*", PreOp::Deref),
    (b"+", PreOp::Plus),
    (b"-", PreOp::Neg),
    (b"~", PreOp::Not),
];

/// Whether the token is spelled so.
pub fn is_spelled(token: &Token, text: &[u8]) -> bool
    ensures { result ≡ grammar.spelled token.now text.now }
{
    token.text.as_bytes() == text
}

/// What stands in the row with the token's spelling, or else the other.
pub fn row_of<T: Copy>(rows: &[(&[u8], T)], token: &Token, other: T) -> T
    ensures { result ≡ row_of (map (λ row. (row.0.now, row.1)) rows.now) token.now other }
{
    match rows {
        [] => other,
        [row, rest @ ..] => {
            if is_spelled(token, row.0) {
                row.1
            } else {
                row_of(rest, token, other)
            }
        }
    }
}

/// The operator between two operands.
#[tactic(auto, unfolding(nesc_grammar::specs::Grammar::infix_of))]
pub fn infix_of(token: &Token) -> InOp
    ensures { result ≡ grammar.infix_of token.now }
{
    row_of(&INFIX, token, InOp::OrOr)
}

/// The operator of an assignment; none is that of `=`.
#[tactic(auto, unfolding(nesc_grammar::specs::Grammar::assignment_of))]
pub fn assignment_of(token: &Token) -> Option<InOp>
    ensures { result ≡ grammar.assignment_of token.now }
{
    row_of(&ASSIGNMENTS, token, Some(InOp::Or))
}

/// The operator before an operand.
#[tactic(auto, unfolding(nesc_grammar::specs::Grammar::prefix_of))]
pub fn prefix_of(token: &Token) -> PreOp
    ensures { result ≡ grammar.prefix_of token.now }
{
    row_of(&PREFIX, token, PreOp::IsZero)
}

/// The operator behind an operand.
#[tactic(auto, unfolding(nesc_grammar::specs::Grammar::suffix_of))]
pub fn suffix_of(token: &Token) -> PostOp
    ensures { result ≡ grammar.suffix_of token.now }
{
    if is_spelled(token, b"++") {
        PostOp::Inc
    } else {
        PostOp::Dec
    }
}
