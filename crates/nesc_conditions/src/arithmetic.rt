//! What the operators give.

ghost use Rattle.std.specs.Prelude.{◌≡◌};
ghost use Rattle.nesc_conditions.specs.Arithmetic.{applied, chosen, computed, is_decided, is_true, prefix_computed, prefixed, shifted_left, shifted_right, sign_of, truth};

use crate::operator::{Operator, Prefix};

/// The value of an expression, None where a zero divisor was evaluated.
pub(crate) type Value = Option<i64>;

fn truth(holds: bool) -> i64
    ensures { result ≡ truth holds }
{
    if holds { 1 } else { 0 }
}

fn is_true(x: i64) -> bool
    ensures { result ≡ is_true x }
{
    x != 0
}

fn shifted_left(x: i64, count: i64) -> i64
    ensures { result ≡ shifted_left x count }
{
    if count < 0 || count >= 64 {
        return 0;
    }
    x << count
}

// Where all bits are those of the sign.
fn sign_of(x: i64) -> i64
    ensures { result ≡ sign_of x }
{
    if x < 0 { -1 } else { 0 }
}

fn shifted_right(x: i64, count: i64) -> i64
    ensures { result ≡ shifted_right x count }
{
    if count < 0 || count >= 64 {
        return sign_of(x);
    }
    x >> count
}

fn divided(a: i64, b: i64) -> Option<i64>
    ensures { result ≡ computed Operator.Divide a b }
{
    if b == 0 {
        return None;
    }
    Some(a.wrapping_div(b))
}

fn remainder(a: i64, b: i64) -> Option<i64>
    ensures { result ≡ computed Operator.Remainder a b }
{
    if b == 0 {
        return None;
    }
    Some(a.wrapping_rem(b))
}

// What the operator gives where both operands have a value.
fn computed(operator: Operator, a: i64, b: i64) -> Option<i64>
    ensures { result ≡ computed operator a b }
{
    match operator {
        Operator::Comma => Some(b),
        Operator::Or => Some(truth(is_true(a) || is_true(b))),
        Operator::And => Some(truth(is_true(a) && is_true(b))),
        Operator::BitOr => Some(a | b),
        Operator::BitXor => Some(a ^ b),
        Operator::BitAnd => Some(a & b),
        Operator::Equal => Some(truth(a == b)),
        Operator::NotEqual => Some(truth(a != b)),
        Operator::Less => Some(truth(a < b)),
        Operator::Greater => Some(truth(a > b)),
        Operator::LessOrEqual => Some(truth(a <= b)),
        Operator::GreaterOrEqual => Some(truth(a >= b)),
        Operator::ShiftLeft => Some(shifted_left(a, b)),
        Operator::ShiftRight => Some(shifted_right(a, b)),
        Operator::Add => Some(a.wrapping_add(b)),
        Operator::Subtract => Some(a.wrapping_sub(b)),
        Operator::Multiply => Some(a.wrapping_mul(b)),
        Operator::Divide => divided(a, b),
        Operator::Remainder => remainder(a, b),
    }
}

// Whether the left operand alone decides.
fn is_decided(operator: Operator, a: i64) -> bool
    ensures { result ≡ is_decided operator a }
{
    match operator {
        Operator::Or => is_true(a),
        Operator::And => !is_true(a),
        _ => false,
    }
}

/// What the operator gives. The right operand of `&&` and `||` counts only where the left one does not decide.
pub(crate) fn applied(operator: Operator, left: Value, right: Value) -> Value
    ensures { result ≡ applied operator left right }
{
    let a = left?;
    if is_decided(operator, a) {
        return Some(truth(is_true(a)));
    }
    computed(operator, a, right?)
}

fn prefix_computed(operator: Prefix, x: i64) -> i64
    ensures { result ≡ prefix_computed operator x }
{
    match operator {
        Prefix::Plus => x,
        Prefix::Minus => x.wrapping_neg(),
        Prefix::Complement => !x,
        Prefix::Not => truth(!is_true(x)),
    }
}

/// What the operator in front of this value gives.
pub(crate) fn prefixed(operator: Prefix, value: Value) -> Value
    ensures { result ≡ prefixed operator value }
{
    Some(prefix_computed(operator, value?))
}

/// What a conditional gives.
pub(crate) fn chosen(condition: Value, value: Value, otherwise: Value) -> Value
    ensures { result ≡ chosen condition value otherwise }
{
    if is_true(condition?) {
        value
    } else {
        otherwise
    }
}
