//! The value of a constant expression.

ghost use Rattle.std.specs.Prelude.{◌≡◌, ◌<◌, IfOk};
ghost use Rattle.nesc_conditions.specs.Conditions.{ConditionIs, following_at, following_level, following_of, if_nothing_left, opening_of};
ghost use Rattle.nesc_conditions.specs.Frames.{EndsHere, IsPast, StepsTo, level, work};

use crate::arithmetic::{Value, applied, chosen, prefixed};
use crate::frames::{Frame, Frames};
use crate::literals::{character, integer};
use crate::operator::{CONDITIONAL_LEVEL, Following, Opening, following_sign, opening_sign};
use nesc_macros::is_sign;
use nm_base::{Kind, NoMemory, Token};
use std::alloc::Global;

/// What is to be read next.
#[derive(Clone, Copy, Debug)]
pub(crate) enum State<'a> {
    Operand(&'a [Token]),
    Behind(Value, &'a [Token]),
    Ended(Value),
}

/// The value of a constant expression; None where it is malformed or evaluates a zero divisor.
pub fn value_of(alloc: Global, tokens: &[Token]) -> Result<Option<i64>, NoMemory>
    ensures { IfOk result (λ v. ConditionIs tokens.now v) }
{
    let mut frames = Frames::new(alloc);
    let mut state = State::Operand(tokens);
    loop {
        state = match state {
            State::Operand(rest) => operand(&mut frames, rest)?,
            State::Behind(value, rest) => behind(&mut frames, value, rest)?,
            State::Ended(value) => return Ok(value),
        };
    }
}

// Reads what an operand begins with.
fn operand<'a>(frames: &mut Frames, rest: &'a [Token]) -> Result<State<'a>, NoMemory>
    ensures steps { IfOk result (λ s. StepsTo frames.old (State.Operand rest.entry) frames.new s) }
    ensures work { IfOk result (λ s. work frames.new s < work frames.old (State.Operand rest.entry)) }
{
    let Some((token, rest)) = rest.split_first() else {
        return Ok(State::Ended(None));
    };
    match opening_of(token) {
        None => Ok(State::Ended(None)),
        Some(Opening::Literal(value)) => Ok(State::Behind(Some(value), rest)),
        Some(Opening::Group) => {
            frames.push(Frame::Group)?;
            Ok(State::Operand(rest))
        }
        Some(Opening::Prefix(operator)) => {
            frames.push(Frame::Prefix(operator))?;
            Ok(State::Operand(rest))
        }
    }
}

// Reads on behind a value: an operator, or the end of the operand that a frame waits for.
fn behind<'a>(frames: &mut Frames, value: Value, rest: &'a [Token]) -> Result<State<'a>, NoMemory>
    ensures steps { IfOk result (λ s. StepsTo frames.old (State.Behind value rest.entry) frames.new s) }
    ensures work { IfOk result (λ s. work frames.new s < work frames.old (State.Behind value rest.entry)) }
{
    let Some((token, after)) = rest.split_first() else {
        return ended(frames, value, rest);
    };
    match following_at(frames.level(), token) {
        Some(Following::Infix(operator)) => {
            frames.push(Frame::Infix(operator, value))?;
            Ok(State::Operand(after))
        }
        Some(Following::Conditional) => {
            frames.push(Frame::Middle(value))?;
            Ok(State::Operand(after))
        }
        None => ended(frames, value, rest),
    }
}

// Gives the innermost frame its operand.
fn ended<'a>(frames: &mut Frames, value: Value, rest: &'a [Token]) -> Result<State<'a>, NoMemory>
    requires { EndsHere (level frames.old) rest.now }
    ensures steps { IfOk result (λ s. StepsTo frames.old (State.Behind value rest.entry) frames.new s) }
    ensures work { IfOk result (λ s. work frames.new s < work frames.old (State.Behind value rest.entry)) }
{
    let Some(frame) = frames.pop() else {
        return Ok(State::Ended(if_nothing_left(value, rest)));
    };
    match frame {
        Frame::Prefix(operator) => Ok(State::Behind(prefixed(operator, value), rest)),
        Frame::Infix(operator, left) => Ok(State::Behind(applied(operator, left, value), rest)),
        Frame::Otherwise(condition, first) => {
            Ok(State::Behind(chosen(condition, first, value), rest))
        }
        Frame::Group => match past(b")", rest) {
            Some(rest) => Ok(State::Behind(value, rest)),
            None => Ok(State::Ended(None)),
        },
        Frame::Middle(condition) => match past(b":", rest) {
            Some(rest) => {
                frames.push(Frame::Otherwise(condition, value))?;
                Ok(State::Operand(rest))
            }
            None => Ok(State::Ended(None)),
        },
    }
}

fn if_nothing_left(value: Value, rest: &[Token]) -> Value
    ensures { result ≡ if_nothing_left value rest.now }
{
    if rest.is_empty() { value } else { None }
}

// What stands behind this sign, if it stands first.
fn past<'a>(sign: &[u8], tokens: &'a [Token]) -> Option<&'a [Token]>
    ensures { IsPast sign.now tokens.now result }
{
    let (token, rest) = tokens.split_first()?;
    if is_sign(sign, token) {
        Some(rest)
    } else {
        None
    }
}

// What an operand begins with, where the token can begin one.
fn opening_of(token: &Token) -> Option<Opening>
    ensures { result ≡ opening_of token.now }
{
    let text = token.text.as_bytes();
    match token.kind {
        Kind::Word => Some(Opening::Literal(0)),
        Kind::Number => integer(text).map(Opening::Literal),
        Kind::Char => character(text).map(Opening::Literal),
        Kind::Text => None,
        Kind::Sign => opening_sign(text),
    }
}

fn following_of(token: &Token) -> Option<Following>
    ensures { result ≡ following_of token.now }
{
    match token.kind {
        Kind::Sign => following_sign(token.text.as_bytes()),
        _ => None,
    }
}

// What the token means behind an operand, where it binds at least as tightly as this level.
fn following_at(level: u8, token: &Token) -> Option<Following>
    ensures { result ≡ following_at level token.now }
{
    let following = following_of(token)?;
    if level <= following_level(following) {
        Some(following)
    } else {
        None
    }
}

fn following_level(following: Following) -> u8
    ensures { result ≡ following_level following }
{
    match following {
        Following::Infix(operator) => operator.level(),
        Following::Conditional => CONDITIONAL_LEVEL,
    }
}
