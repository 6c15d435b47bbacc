//! Operators, and what the signs of an expression mean.

ghost use Rattle.std.specs.Prelude.{◌≡◌};
ghost use Rattle.nesc_conditions.specs.Signs.{level_of, opening_sign_of, following_sign_of};

use crate::spelled::look_up;

/// An operator of two operands.
#[derive(Clone, Copy, Debug)]
pub(crate) enum Operator {
    Comma,
    Or,
    And,
    BitOr,
    BitXor,
    BitAnd,
    Equal,
    NotEqual,
    Less,
    Greater,
    LessOrEqual,
    GreaterOrEqual,
    ShiftLeft,
    ShiftRight,
    Add,
    Subtract,
    Multiply,
    Divide,
    Remainder,
}

/// An operator in front of its operand.
#[derive(Clone, Copy, Debug)]
pub(crate) enum Prefix {
    Plus,
    Minus,
    Complement,
    Not,
}

/// What an operand begins with.
#[derive(Clone, Copy, Debug)]
pub(crate) enum Opening {
    Literal(i64),
    Group,
    Prefix(Prefix),
}

/// What goes on behind an operand.
#[derive(Clone, Copy, Debug)]
pub(crate) enum Following {
    Infix(Operator),
    Conditional,
}

const OPENINGS: [(&[u8], Opening); 5] = [
    (b"(", Opening::Group),
    (b"+", Opening::Prefix(Prefix::Plus)),
    (b"-", Opening::Prefix(Prefix::Minus)),
    (b"~", Opening::Prefix(Prefix::Complement)),
    (b"!", Opening::Prefix(Prefix::Not)),
];

const FOLLOWINGS: [(&[u8], Following); 20] = [
    (b",", Following::Infix(Operator::Comma)),
    (b"?", Following::Conditional),
    (b"||", Following::Infix(Operator::Or)),
    (b"&&", Following::Infix(Operator::And)),
    (b"|", Following::Infix(Operator::BitOr)),
    (b"^", Following::Infix(Operator::BitXor)),
    (b"&", Following::Infix(Operator::BitAnd)),
    (b"==", Following::Infix(Operator::Equal)),
    (b"!=", Following::Infix(Operator::NotEqual)),
    (b"<", Following::Infix(Operator::Less)),
    (b">", Following::Infix(Operator::Greater)),
    (b"<=", Following::Infix(Operator::LessOrEqual)),
    (b">=", Following::Infix(Operator::GreaterOrEqual)),
    (b"<<", Following::Infix(Operator::ShiftLeft)),
    (b">>", Following::Infix(Operator::ShiftRight)),
    (b"+", Following::Infix(Operator::Add)),
    (b"-", Following::Infix(Operator::Subtract)),
    (b"*", Following::Infix(Operator::Multiply)),
    (b"/", Following::Infix(Operator::Divide)),
    (b"%", Following::Infix(Operator::Remainder)),
];

/// What a sign opens.
pub(crate) fn opening_sign(text: &[u8]) -> Option<Opening>
    ensures { result ≡ opening_sign_of text.now }
{
    look_up(&OPENINGS, text)
}

/// What a sign behind an operand means.
pub(crate) fn following_sign(text: &[u8]) -> Option<Following>
    ensures { result ≡ following_sign_of text.now }
{
    look_up(&FOLLOWINGS, text)
}

/// The level of a conditional.
pub(crate) const CONDITIONAL_LEVEL: u8 = 1;

/// A level that no operator of two operands reaches.
pub(crate) const PREFIX_LEVEL: u8 = 12;

impl Operator {
    /// How tightly it binds.
    pub(crate) fn level(self) -> u8
        ensures { result ≡ level_of self }
    {
        match self {
            Operator::Comma => 0,
            Operator::Or => 2,
            Operator::And => 3,
            Operator::BitOr => 4,
            Operator::BitXor => 5,
            Operator::BitAnd => 6,
            Operator::Equal | Operator::NotEqual => 7,
            Operator::Less | Operator::Greater => 8,
            Operator::LessOrEqual | Operator::GreaterOrEqual => 8,
            Operator::ShiftLeft | Operator::ShiftRight => 9,
            Operator::Add | Operator::Subtract => 10,
            Operator::Multiply | Operator::Divide | Operator::Remainder => 11,
        }
    }
}
