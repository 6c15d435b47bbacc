//! Which tokens begin an expression or a type, which go on one, and how strongly they bind.

ghost use Rattle.std.specs.Prelude.{◌≡◌};
ghost use Rattle.nesc_tree.specs.Form.{goes};
ghost use Rattle.nesc_tree.specs.Phrase as phrase;
ghost use Rattle.nesc_grammar.specs.Grammar as grammar;
ghost use Rattle.nesc_operands.specs.Guards as guards;

use nesc_tree::{Operand, Sort, level};

/// Whether an expression begins with such a token.
pub fn begins_expr(first: Sort) -> bool
    ensures { result ≡ phrase.begins_expr first }
{
    match first {
        Sort::Word
        | Sort::Number
        | Sort::Char
        | Sort::LParen
        | Sort::Plus
        | Sort::Minus
        | Sort::Star
        | Sort::Amp
        | Sort::Complement
        | Sort::Step
        | Sort::SizeOf
        | Sort::Null
        | Sort::Unique
        | Sort::PortRead
        | Sort::PortWrite
        | Sort::Post
        | Sort::Call => true,
        _ => false,
    }
}

/// Whether the fields of a struct definition begin with such a token.
pub fn begins_fields(first: Sort) -> bool
    ensures { result ≡ phrase.begins phrase.Phrase.fields first }
{
    match first {
        Sort::LBrace => true,
        _ => false,
    }
}

/// Whether each operand that begins with such a token has another one in it.
pub fn nests_first(first: Sort) -> bool
    ensures { result ≡ guards.nests_first first }
{
    match first {
        Sort::LParen
        | Sort::Plus
        | Sort::Minus
        | Sort::Star
        | Sort::Amp
        | Sort::Complement
        | Sort::Step
        | Sort::PortRead
        | Sort::PortWrite => true,
        _ => false,
    }
}

/// Whether another operand is behind such an operator.
pub fn nests_behind(operator: Sort) -> bool
    ensures { result ≡ guards.nests_behind operator }
{
    match operator {
        Sort::LParen | Sort::Dot | Sort::Arrow | Sort::Step => false,
        _ => is_operator(operator),
    }
}

/// Whether the token may go on an expression.
pub fn is_operator(operator: Sort) -> bool
    ensures { result ≡ grammar.is_operator operator }
{
    match operator {
        Sort::Comma
        | Sort::Assign
        | Sort::OpAssign
        | Sort::Question
        | Sort::OrOr
        | Sort::AndAnd
        | Sort::Bar
        | Sort::Caret
        | Sort::Amp
        | Sort::Equality
        | Sort::Less
        | Sort::Greater
        | Sort::OrEqual
        | Sort::Shift
        | Sort::Plus
        | Sort::Minus
        | Sort::Star
        | Sort::Divide
        | Sort::LBracket
        | Sort::LParen
        | Sort::Dot
        | Sort::Arrow
        | Sort::Step => true,
        _ => false,
    }
}

/// Whether an expression of at least this level may begin with a cast (C99 6.5.3: a unary expression does not).
pub fn admits_cast(least: u8) -> bool
    ensures { result ≡ grammar.admits_cast least }
{
    least <= level::CAST
}

/// The level of the expression that the operator makes.
pub fn binds(operator: Sort) -> u8
    ensures { result ≡ grammar.binds operator }
{
    match operator {
        Sort::Comma => level::COMMA,
        Sort::Assign | Sort::OpAssign => level::ASSIGNMENT,
        Sort::Question => level::CONDITIONAL,
        Sort::OrOr => level::LOGICAL_OR,
        Sort::AndAnd => level::LOGICAL_AND,
        Sort::Bar => level::BIT_OR,
        Sort::Caret => level::BIT_XOR,
        Sort::Amp => level::BIT_AND,
        Sort::Equality => level::EQUALITY,
        Sort::Less | Sort::Greater | Sort::OrEqual => level::RELATIONAL,
        Sort::Shift => level::SHIFT,
        Sort::Plus | Sort::Minus => level::ADDITIVE,
        Sort::Star | Sort::Divide => level::MULTIPLICATIVE,
        _ => level::POSTFIX,
    }
}

/// The least level of the expression that the operator goes on.
pub fn needs(operator: Sort) -> u8
    ensures { result ≡ grammar.needs operator }
{
    match operator {
        Sort::Assign | Sort::OpAssign => level::UNARY,
        Sort::Question => level::LOGICAL_OR,
        _ => binds(operator),
    }
}

/// Whether the token goes on the operand, in an expression of at least this level.
pub fn goes_on(least: u8, left: &Operand, operator: Sort) -> bool
    ensures { result ≡ goes (grammar.may least) grammar.fits left.now operator }
{
    is_operator(operator) && least <= binds(operator) && needs(operator) <= left.level
}
