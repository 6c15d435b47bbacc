//! The reader of phrases, and the tokens that it expects.

ghost use Rattle.std.specs.Prelude.{◌≡◌, ◌≤◌, ◌<◌, ◌^◌, ℕ, IfOk, true, false};
ghost use Rattle.nesc_tree.specs.Reading as reading;
ghost use Rattle.nesc_grammar.specs.Grammar as grammar;
ghost use Rattle.nesc_parse_types.specs.Gives.{Gives, GivesToken, Nests, expr_in, fields_in, form_in, opened_in};

use crate::stop::{Found, Stop};
use nesc_tree::{Fields, Operand, Sort, TypeNames, ahead, same_sort};
use nm_base::Token;
use std::alloc::Global;

/// The token, where it is of this sort, and those behind it.
pub fn expect<'a>(names: &TypeNames, want: Sort, ts: &'a [Token]) -> Found<'a, &'a Token>
    ensures { GivesToken names.now result (reading.pass want (λ t. t) names.now ts.now) }
{
    let found = same_sort(want, ahead(names, ts));
    match ts {
        [] => Err(Stop::Syntax(ts)),
        [token, rest @ ..] => {
            if found {
                Ok((token, rest))
            } else {
                Err(Stop::Syntax(ts))
            }
        }
    }
}

/// A name, also where it is a type name.
#[tactic(auto, unfolding(nesc_tree::specs::Reading::read))]
pub fn name<'a>(names: &TypeNames, ts: &'a [Token]) -> Found<'a, &'a Token>
    ensures { (spare : ℕ) → GivesToken names.now result (form_in spare grammar.name names.now ts.now) }
{
    match ahead(names, ts) {
        Sort::TypeName => expect(names, Sort::TypeName, ts),
        _ => expect(names, Sort::Word, ts),
    }
}

/// Reads by forms whose phrases are read by `expr`, `opened` and `fields`, with at most `spare` levels.
#[derive(Drop)]
pub struct Reader<'n, E, O, F> {
    pub alloc: Global,
    pub names: &'n TypeNames,
    pub spare: usize,
    pub expr: E,
    pub opened: O,
    pub fields: F,
    ghost few: { spare < 2 ^ 8 },
}

impl<
    'a,
    E: Fn(Global, &TypeNames, usize, u8, &'a [Token]) -> Found<'a, Operand>,
    O: Fn(Global, &TypeNames, usize, &Token, &'a [Token]) -> Found<'a, Operand>,
    F: Fn(Global, &TypeNames, usize, &'a [Token]) -> Found<'a, Fields>,
> Reader<'_, E, O, F> {
    /// An expression of at least this level.
    pub fn nested_expr(&self, least: u8, ts: &'a [Token]) -> Found<'a, Operand>
        requires nests { Nests self.now.spare (E.pre self.now.expr) (E.post self.now.expr) (O.pre self.now.opened) (O.post self.now.opened) (F.pre self.now.fields) (F.post self.now.fields) }
        ensures gives { Gives self.now.names.now result (expr_in self.now.spare least self.now.names.now ts.now) }
        ensures fits { IfOk result (λ x. x.0.height ≤ self.now.spare) }
    {
        (self.expr)(self.alloc, self.names, self.spare, least, ts)
    }

    /// What is behind the `(` that a postfix expression begins with, and that expression.
    pub fn nested_opened(&self, opening: &Token, ts: &'a [Token]) -> Found<'a, Operand>
        requires nests { Nests self.now.spare (E.pre self.now.expr) (E.post self.now.expr) (O.pre self.now.opened) (O.post self.now.opened) (F.pre self.now.fields) (F.post self.now.fields) }
        ensures gives { Gives self.now.names.now result (opened_in self.now.spare opening.now self.now.names.now ts.now) }
        ensures fits { IfOk result (λ x. x.0.height ≤ self.now.spare) }
    {
        (self.opened)(self.alloc, self.names, self.spare, opening, ts)
    }

    /// The fields of a struct definition, with their braces.
    pub fn nested_fields(&self, ts: &'a [Token]) -> Found<'a, Fields>
        requires nests { Nests self.now.spare (E.pre self.now.expr) (E.post self.now.expr) (O.pre self.now.opened) (O.post self.now.opened) (F.pre self.now.fields) (F.post self.now.fields) }
        ensures gives { Gives self.now.names.now result (fields_in self.now.spare self.now.names.now ts.now) }
        ensures fits { IfOk result (λ x. x.0.height ≤ self.now.spare) }
    {
        (self.fields)(self.alloc, self.names, self.spare, ts)
    }
}

impl<E, O, F> Reader<'_, E, O, F> {
    /// Whether something would have to nest where nothing may.
    pub fn is_full(&self, nests: bool) -> bool
        ensures full { result ≡ true → (self.now.spare ≡ 0) × (nests ≡ true) }
        ensures room { result ≡ false → nests ≡ true → 0 < self.now.spare }
    {
        nests && self.spare == 0
    }
}
