//! Lists of tokens that wait to be expanded.

ghost use Rattle.std.specs.Prelude.{◌≡◌, ◌≤◌, ◌++◌, drop, length, nat_eq, option_copied, option_to_list, slice_get, take, IfOk, OnOk};
ghost use Rattle.nesc_macros.specs.Expansion.{unhidden};
ghost use Rattle.nesc_macros.specs.Numbers.{Scope, all_shown};
ghost use Rattle.nesc_macros.specs.Groups.{IsArgumentEnd};

use crate::definition::NumberedToken;
use crate::waiting::{ArgumentEnd, Waiting, all_waiting, argument_end, put_all, take_first};
use nm_base::{NoMemory, Token};
use std::alloc::Global;
use std::collections::VecDeque;
use std::marker::Model;

/// Tokens that wait to be expanded, which contracts see as their list. Of most opening parentheses it is known where their
/// closing ones are, so that arguments in one another are not walked through at each level.
#[derive(Debug, Drop)]
pub struct Pending {
    tokens: VecDeque<Waiting>,
}

impl Model for Pending {
    ghost use Rattle.std.specs.Prelude.{List};
    ghost use Rattle.nesc_macros.specs.declared.definition.NumberedToken.{NumberedToken};
    ghost use Rattle.nesc_macros.specs.Groups.{AreGrouped, parts};

    ghost Value = { List NumberedToken };

    ghost view = { λ p. parts p.tokens.items };

    ghost invariant = { λ p. AreGrouped p.tokens.items };
}

impl Pending {
    /// The tokens of a text, which hide nothing.
    pub fn unhidden(alloc: Global, text: Vec<Token>) -> Result<Pending, NoMemory>
        ensures { IfOk result (λ all. (scope : Scope) → all_shown scope all ≡ unhidden text.items) }
    {
        Ok(Pending {
            tokens: all_waiting(alloc, text)?,
        })
    }

    pub fn is_empty(&self) -> bool
        ensures { result ≡ nat_eq (length self.now) 0 }
    {
        self.tokens.is_empty()
    }

    pub fn front(&self) -> Option<&NumberedToken>
        ensures { option_copied result ≡ slice_get self.now 0 }
    {
        self.tokens.front().map(|waiting| &waiting.part)
    }

    pub fn pop_front(&mut self) -> Option<NumberedToken>
        ensures items { self.old ≡ option_to_list result ++ self.new }
        ensures rest { self.new ≡ drop 1 self.old }
    {
        let waiting = self.tokens.pop_front()?;
        Some(waiting.part)
    }

    /// Puts a list before the tokens.
    pub fn put_front(&mut self, alloc: Global, list: Vec<NumberedToken>) -> Result<(), NoMemory>
        ensures { OnOk result (self.new ≡ list.items ++ self.old) }
    {
        put_all(alloc, &mut self.tokens, list)
    }

    /// Takes the first of the tokens.
    pub fn take_first(&mut self, alloc: Global, count: usize) -> Result<Pending, NoMemory>
        requires { count ≤ length self.old }
        ensures first { IfOk result (λ first. first ≡ take count self.old) }
        ensures others { OnOk result (self.new ≡ drop count self.old) }
    {
        Ok(Pending {
            tokens: take_first(alloc, &mut self.tokens, count)?,
        })
    }

    /// Where the argument at the front of the tokens ends; None where it does not.
    pub fn argument_end(&self) -> Option<ArgumentEnd>
        ensures { IsArgumentEnd self.now result }
    {
        argument_end(&self.tokens)
    }
}
