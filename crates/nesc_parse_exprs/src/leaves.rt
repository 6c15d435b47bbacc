//! Operands of tokens alone.

ghost use Rattle.std.specs.Prelude.{ℕ};
ghost use Rattle.nesc_grammar.specs.Grammar as grammar;
ghost use Rattle.nesc_parse_types.specs.Gives.{Gives, form_in};

use nesc_operands::operands::{
    char_operand, name_operand, null_operand, number_operand, post_operand, unique_operand,
};
use nesc_parse_types::{Found, expect, name};
use nesc_tree::{Operand, Sort, TypeNames};
use nm_base::Token;
use std::alloc::Global;

#[tactic(auto, unfolding(nesc_tree::specs::Reading::read))]
pub fn name_leaf<'a>(alloc: Global, names: &TypeNames, ts: &'a [Token]) -> Found<'a, Operand>
    ensures { (spare : ℕ) → Gives names.now result (form_in spare grammar.name_leaf names.now ts.now) }
{
    let (token, rest) = expect(names, Sort::Word, ts)?;
    Ok((name_operand(alloc, token)?, rest))
}

#[tactic(auto, unfolding(nesc_tree::specs::Reading::read))]
pub fn number_leaf<'a>(alloc: Global, names: &TypeNames, ts: &'a [Token]) -> Found<'a, Operand>
    ensures { (spare : ℕ) → Gives names.now result (form_in spare grammar.number_leaf names.now ts.now) }
{
    let (token, rest) = expect(names, Sort::Number, ts)?;
    Ok((number_operand(alloc, token)?, rest))
}

#[tactic(auto, unfolding(nesc_tree::specs::Reading::read))]
pub fn char_leaf<'a>(alloc: Global, names: &TypeNames, ts: &'a [Token]) -> Found<'a, Operand>
    ensures { (spare : ℕ) → Gives names.now result (form_in spare grammar.char_leaf names.now ts.now) }
{
    let (token, rest) = expect(names, Sort::Char, ts)?;
    Ok((char_operand(alloc, token)?, rest))
}

#[tactic(auto, unfolding(nesc_tree::specs::Reading::read))]
pub fn null_leaf<'a>(names: &TypeNames, ts: &'a [Token]) -> Found<'a, Operand>
    ensures { (spare : ℕ) → Gives names.now result (form_in spare grammar.null_leaf names.now ts.now) }
{
    let (token, rest) = expect(names, Sort::Null, ts)?;
    Ok((null_operand(token), rest))
}

/// `unique` or `uniqueCount` of a text between parentheses.
#[tactic(auto, unfolding(nesc_tree::specs::Reading::read))]
pub fn unique<'a>(alloc: Global, names: &TypeNames, ts: &'a [Token]) -> Found<'a, Operand>
    ensures { (spare : ℕ) → Gives names.now result (form_in spare grammar.unique names.now ts.now) }
{
    let (word, rest) = expect(names, Sort::Unique, ts)?;
    let (_, rest) = expect(names, Sort::LParen, rest)?;
    let (text, rest) = expect(names, Sort::Text, rest)?;
    let (_, rest) = expect(names, Sort::RParen, rest)?;
    Ok((unique_operand(alloc, word, text)?, rest))
}

/// `post` of a task.
#[tactic(auto, unfolding(nesc_tree::specs::Reading::read))]
pub fn post_call<'a>(alloc: Global, names: &TypeNames, ts: &'a [Token]) -> Found<'a, Operand>
    ensures { (spare : ℕ) → Gives names.now result (form_in spare grammar.post_call names.now ts.now) }
{
    let (word, rest) = expect(names, Sort::Post, ts)?;
    let (task, rest) = name(names, rest)?;
    let (_, rest) = expect(names, Sort::LParen, rest)?;
    let (_, rest) = expect(names, Sort::RParen, rest)?;
    Ok((post_operand(alloc, word, task)?, rest))
}
