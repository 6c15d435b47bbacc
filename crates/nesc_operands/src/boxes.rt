//! Trees in boxes, and the names beside them.

ghost use Rattle.std.specs.Prelude.{◌≡◌, IfOk};

use nesc_tree::Expr;
use nm_base::{Boxed, Name, NoMemory, Token, beside};
use std::alloc::Global;

/// Two trees, each in a box of its own.
pub fn boxed_pair(
    alloc: Global,
    first: Expr,
    second: Expr,
) -> Result<(Boxed<Expr>, Boxed<Expr>), NoMemory>
    ensures { IfOk result (λ pair. pair ≡ (first, second)) }
{
    let (second, first) = beside(second, Boxed::new(alloc, first))?;
    beside(first, Boxed::new(alloc, second))
}

/// A pair of trees and a third one, each in a box of its own.
pub fn boxed_three(
    alloc: Global,
    pair: (Expr, Expr),
    third: Expr,
) -> Result<((Boxed<Expr>, Boxed<Expr>), Boxed<Expr>), NoMemory>
    ensures { IfOk result (λ boxes. boxes ≡ (pair, third)) }
{
    let (third, pair) = beside(third, boxed_pair(alloc, pair.0, pair.1))?;
    beside(pair, Boxed::new(alloc, third))
}

/// A tree in a box, and the name that the token tells.
pub fn boxed_and_named(
    alloc: Global,
    tree: Expr,
    token: &Token,
) -> Result<(Boxed<Expr>, Name), NoMemory>
    ensures { IfOk result (λ pair. pair ≡ (tree, token.now.text)) }
{
    let tree = Boxed::new(alloc, tree)?;
    beside(tree, Name::new(alloc, token.text.as_bytes()))
}
