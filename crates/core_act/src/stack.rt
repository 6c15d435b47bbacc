//! A stack, which contracts see with its top first.

ghost use Rattle.core_act.specs.Stacks.{below, top};
ghost use Rattle.std.specs.Prelude.{◌≡◌, [], ◌∷◌, MatchOption, OnOk, Some};

use nm_base::NoMemory;
use std::alloc::Global;
use std::marker::Model;

/// A stack.
#[derive(Drop)]
pub(crate) struct Stack<T> {
    items: Vec<T>,
}

impl<T> Model for Stack<T> {
    ghost use Rattle.std.specs.Prelude.{List, reverse};

    ghost Value = { List T };

    ghost view = { λ stack. reverse stack.items.items };
}

impl<T> Stack<T> {
    pub(crate) fn new(alloc: Global) -> Stack<T>
        ensures { result ≡ [] }
    {
        Stack {
            items: Vec::new(alloc),
        }
    }

    pub(crate) fn pop(&mut self) -> Option<T>
        ensures { MatchOption result ((self.old ≡ []) × (self.new ≡ [])) (λ item. self.old ≡ item ∷ self.new) }
    {
        self.items.pop()
    }
}

impl<T: Drop> Stack<T> {
    pub(crate) fn push(&mut self, item: T) -> Result<(), NoMemory>
        ensures { OnOk result (self.new ≡ item ∷ self.old) }
    {
        self.items.push(item)?;
        Ok(())
    }
}

/// Puts two items on a stack, the first on top.
pub(crate) fn push_two<T: Drop>(stack: &mut Stack<T>, first: T, second: T) -> Result<(), NoMemory>
    ensures { OnOk result (stack.new ≡ first ∷ second ∷ stack.old) }
{
    stack.push(second)?;
    stack.push(first)
}

/// Puts three items on a stack, the first on top.
pub(crate) fn push_three<T: Drop>(
    stack: &mut Stack<T>,
    first: T,
    second: T,
    third: T,
) -> Result<(), NoMemory>
    ensures { OnOk result (stack.new ≡ first ∷ second ∷ third ∷ stack.old) }
{
    stack.push(third)?;
    push_two(stack, first, second)
}

/// Takes the top of a stack; this item where there is none.
pub(crate) fn pop_or<T: Copy>(stack: &mut Stack<T>, otherwise: T) -> T
    ensures is { result ≡ top otherwise stack.old }
    ensures rest { stack.new ≡ below stack.old }
{
    stack.pop().unwrap_or(otherwise)
}
