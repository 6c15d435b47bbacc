//! The reader of expressions.

ghost use Rattle.std.specs.Prelude.{◌≡◌, ◌≤◌, IfOk};
ghost use Rattle.nesc_tree.specs.Phrase as phrase;
ghost use Rattle.nesc_grammar.specs.Grammar as grammar;
ghost use Rattle.nesc_grammar.specs.Production.{production};
ghost use Rattle.nesc_parse_types.specs.Gives.{Gives, Nests, form_in};
ghost use Rattle.nesc_parse_exprs.specs.Climbing.{opened_form};
ghost use Rattle.nesc_parse_exprs.specs.Closed.{closed_form};

use nesc_operands::precedence::admits_cast;
use nesc_parse_types::{Found, Reader, expect};
use nesc_tree::{Fields, Operand, Sort, TypeNames, level};
use nm_base::{Token, beside};
use std::alloc::Global;

/// Reads expressions, and the types in them by its reader.
#[derive(Drop)]
pub struct ExprReader<'n, E, O, F> {
    pub reader: Reader<'n, E, O, F>,
}

impl<
    'a,
    E: Fn(Global, &TypeNames, usize, u8, &'a [Token]) -> Found<'a, Operand>,
    O: Fn(Global, &TypeNames, usize, &Token, &'a [Token]) -> Found<'a, Operand>,
    F: Fn(Global, &TypeNames, usize, &'a [Token]) -> Found<'a, Fields>,
> ExprReader<'_, E, O, F> {
    /// An expression of at least this level.
    pub fn expr_of(&self, least: u8, ts: &'a [Token]) -> Found<'a, Operand>
        requires nests { Nests self.now.reader.spare (E.pre self.now.reader.expr) (E.post self.now.reader.expr) (O.pre self.now.reader.opened) (O.post self.now.reader.opened) (F.pre self.now.reader.fields) (F.post self.now.reader.fields) }
        ensures { Gives self.now.reader.names.now result (form_in self.now.reader.spare (production (phrase.Phrase.expr least)) self.now.reader.names.now ts.now) }
    {
        let (first, rest) = self.primary(admits_cast(least), ts)?;
        self.climb(least, first, rest)
    }

    /// An expression of at least this level, with the token behind it that closes it.
    pub fn closed(&self, least: u8, closing: Sort, ts: &'a [Token]) -> Found<'a, Operand>
        requires nests { Nests self.now.reader.spare (E.pre self.now.reader.expr) (E.post self.now.reader.expr) (O.pre self.now.reader.opened) (O.post self.now.reader.opened) (F.pre self.now.reader.fields) (F.post self.now.reader.fields) }
        ensures gives { Gives self.now.reader.names.now result (form_in self.now.reader.spare (closed_form least closing) self.now.reader.names.now ts.now) }
        ensures fits { IfOk result (λ x. x.0.height ≤ self.now.reader.spare) }
    {
        let (inner, rest) = self.reader.nested_expr(least, ts)?;
        let behind = expect(self.reader.names, closing, rest);
        let (kept, (_, rest)) = beside(inner, behind)?;
        Ok((kept, rest))
    }

    /// What is behind the `(` that a postfix expression begins with, and that expression.
    pub fn opened_of(&self, opening: &Token, ts: &'a [Token]) -> Found<'a, Operand>
        requires nests { Nests self.now.reader.spare (E.pre self.now.reader.expr) (E.post self.now.reader.expr) (O.pre self.now.reader.opened) (O.post self.now.reader.opened) (F.pre self.now.reader.fields) (F.post self.now.reader.fields) }
        ensures { Gives self.now.reader.names.now result (form_in self.now.reader.spare (opened_form opening.now) self.now.reader.names.now ts.now) }
    {
        let (first, rest) = self.parens(opening, ts)?;
        self.climb(level::POSTFIX, first, rest)
    }
}
