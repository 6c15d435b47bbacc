//! Tokens that wait to be expanded, with the lengths of what stands in their parentheses.

ghost use Rattle.std.specs.Prelude.{◌≡◌, ◌+◌, ◌<◌, ◌≤◌, ◌∷◌, ◌++◌, [], codes, length, take, drop, true, IfOk, OnOk};
ghost use Rattle.nesc_macros.specs.Invocation.{is_sign};
ghost use Rattle.nesc_macros.specs.Expansion.{unhidden};
ghost use Rattle.nesc_macros.specs.Numbers.{Scope, all_shown};
ghost use Rattle.nesc_macros.specs.Groups.{AreClosing, AreGrouped, IsArgumentEnd, IsGroup, group_opened, parts, with_more};

use crate::definition::NumberedToken;
use crate::hide_sets::HideSet;
use crate::marks::{Mark, mark_of};
use crate::names::is_sign;
use nm_base::{NoMemory, Token};
use std::alloc::Global;
use std::collections::VecDeque;
use std::mem;

/// A token that waits, and, where it is an opening parenthesis, how many tokens there are behind it up to its closing one; 0
/// where that is not known.
#[derive(Debug, Drop)]
pub struct Waiting {
    pub part: NumberedToken,
    pub group: usize,
}

/// The end of an argument: how many tokens it has, and whether a closing parenthesis is behind it, or a comma.
#[derive(Clone, Copy, Debug)]
pub struct ArgumentEnd {
    pub len: usize,
    pub is_last: bool,
}

// Takes the length of what an opening parenthesis opens, where the token is one: that up to the next closing one.
fn group_opened(closing: &mut VecDeque<usize>, token: &Token) -> usize
    ensures { (result, closing.new.items) ≡ group_opened (is_sign (codes "(") token.now) closing.old.items }
{
    if is_sign(b"(", token) {
        closing.pop_front().unwrap_or(0)
    } else {
        0
    }
}

// Puts a token before those that wait. `closing` are the lengths up to each closing parenthesis that is not opened yet.
fn put_before(
    tokens: &mut VecDeque<Waiting>,
    closing: &mut VecDeque<usize>,
    part: NumberedToken,
) -> Result<(), NoMemory>
    requires grouped { AreGrouped tokens.old.items }
    requires closing { AreClosing closing.old.items (parts tokens.old.items) }
    ensures put { OnOk result (parts tokens.new.items ≡ part ∷ parts tokens.old.items) }
    ensures grouped { AreGrouped tokens.new.items }
    ensures closing { OnOk result (AreClosing closing.new.items (parts tokens.new.items)) }
{
    if is_sign(b")", &part.token) {
        tokens.push_front(Waiting { part, group: 0 })?;
        closing.push_front(1)?;
        return Ok(());
    }
    let group = group_opened(closing, &part.token);
    tokens.push_front(Waiting { part, group })?;
    if let Some(len) = closing.pop_front() {
        closing.push_front(len + group + 1)?;
    }
    Ok(())
}

/// Puts a list before the tokens that wait.
pub fn put_all(
    alloc: Global,
    tokens: &mut VecDeque<Waiting>,
    mut list: Vec<NumberedToken>,
) -> Result<(), NoMemory>
    requires { AreGrouped tokens.old.items }
    ensures put { OnOk result (parts tokens.new.items ≡ list.items ++ parts tokens.old.items) }
    ensures grouped { AreGrouped tokens.new.items }
{
    let mut closing = VecDeque::new(alloc);
    while let Some(last) = list.pop() {
        put_before(tokens, &mut closing, last)?;
    }
    Ok(())
}

/// The tokens of a text, which hide nothing.
pub fn all_waiting(alloc: Global, mut text: Vec<Token>) -> Result<VecDeque<Waiting>, NoMemory>
    ensures tokens { IfOk result (λ all. (scope : Scope) → all_shown scope (parts all.items) ≡ unhidden text.items) }
    ensures grouped { IfOk result (λ all. AreGrouped all.items) }
{
    let nothing = HideSet::empty();
    let mut all = VecDeque::with_capacity(alloc, text.len())?;
    let mut closing = VecDeque::new(alloc);
    while let Some(token) = text.pop() {
        let part = NumberedToken {
            token,
            hide_set: nothing,
        };
        put_before(&mut all, &mut closing, part)?;
    }
    Ok(all)
}

/// Takes the first of the tokens, and moves the fewer of these and the others.
pub fn take_first(
    alloc: Global,
    tokens: &mut VecDeque<Waiting>,
    count: usize,
) -> Result<VecDeque<Waiting>, NoMemory>
    requires { count ≤ length tokens.old.items }
    ensures first { IfOk result (λ first. first.items ≡ take count tokens.old.items) }
    ensures others { OnOk result (tokens.new.items ≡ drop count tokens.old.items) }
    ensures grouped { AreGrouped tokens.old.items → AreGrouped tokens.new.items }
{
    if count > tokens.len() / 2 {
        let others = tokens.split_off(count)?;
        return Ok(mem::replace(tokens, others));
    }
    let mut first = VecDeque::with_capacity(alloc, count)?;
    while first.len() < count {
        let Some(token) = tokens.pop_front() else {
            return Ok(first);
        };
        first.push_back(token)?;
    }
    Ok(first)
}

// How many of the tokens behind the one at a place stand in the parentheses that it opens, where that is known; else 0.
fn group_at(tokens: &VecDeque<Waiting>, at: usize) -> usize
    requires grouped { AreGrouped tokens.now.items }
    ensures within { 0 < result → at + result < length tokens.now.items }
    ensures group { IsGroup result (drop (at + 1) (parts tokens.now.items)) }
{
    let Some(waiting) = tokens.get(at) else {
        return 0;
    };
    if waiting.group < tokens.len() - at {
        waiting.group
    } else {
        0
    }
}

/// Where the argument at the front of the tokens ends; None where it does not. What stands in parentheses in it is passed over
/// in one step, where its length is known.
pub fn argument_end(tokens: &VecDeque<Waiting>) -> Option<ArgumentEnd>
    requires { AreGrouped tokens.now.items }
    ensures { IsArgumentEnd (parts tokens.now.items) result }
{
    let mut at: usize = 0;
    let mut depth: usize = 0;
    while let Some(waiting) = tokens.get(at) {
        match mark_of(&waiting.part, depth) {
            Mark::Opens => match group_at(tokens, at) {
                0 => {
                    depth += 1;
                    at += 1;
                }
                group => at += group + 1,
            },
            Mark::Closes => {
                depth -= 1;
                at += 1;
            }
            Mark::Ends => {
                return Some(ArgumentEnd {
                    len: at,
                    is_last: true,
                });
            }
            Mark::Separates => {
                return Some(ArgumentEnd {
                    len: at,
                    is_last: false,
                });
            }
            Mark::Belongs => at += 1,
        }
    }
    None
}
