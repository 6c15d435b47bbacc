//! Reading the operands that expressions begin with (C99 6.5.1, 6.5.3, 6.5.4), and arguments.

ghost use Rattle.std.specs.Prelude.{◌≡◌, ◌≤◌, ◌<◌, ◌^◌, ◌&&◌, IfOk, true};
ghost use Rattle.nesc_tree.specs.Form as form;
ghost use Rattle.nesc_tree.specs.Phrase as phrase;
ghost use Rattle.nesc_tree.specs.Sorts as sorts;
ghost use Rattle.nesc_grammar.specs.Grammar as grammar;
ghost use Rattle.nesc_parse_types.specs.Gives.{Gives, Nests, form_in};
ghost use Rattle.nesc_operands.specs.Guards as guards;
ghost use Rattle.nesc_parse_exprs.specs.Parts as parts;

use crate::expr_reader::ExprReader;
use crate::leaves::{char_leaf, name_leaf, null_leaf, number_leaf, post_call, unique};
use nesc_operands::growths::{item_operand, no_arguments, pushed, single};
use nesc_operands::operands::{
    cast_operand, paren_operand, port_read_operand, port_write_operand, size_of_expr, size_of_type,
    unary_operand,
};
use nesc_operands::precedence::nests_first;
use nesc_parse_types::{Found, Stop, begins_type, expect, is_comma, name};
use nesc_tree::{Arguments, Fields, Operand, Sort, TypeNames, ahead, level, same_sort};
use nm_base::{Token, beside};
use std::alloc::Global;

/// Whether a cast is behind a `(`, and no expression.
fn is_cast(names: &TypeNames, may_cast: bool, ts: &[Token]) -> bool
    ensures { result ≡ (phrase.begins_type (sorts.ahead names.now ts.now) && may_cast) }
{
    begins_type(ahead(names, ts)) && may_cast
}

impl<
    'a,
    E: Fn(Global, &TypeNames, usize, u8, &'a [Token]) -> Found<'a, Operand>,
    O: Fn(Global, &TypeNames, usize, &Token, &'a [Token]) -> Found<'a, Operand>,
    F: Fn(Global, &TypeNames, usize, &'a [Token]) -> Found<'a, Fields>,
> ExprReader<'_, E, O, F> {
    /// The argument behind a comma.
    #[tactic(auto, unfolding(nesc_tree::specs::Reading::read))]
    fn next_argument(&self, ts: &'a [Token]) -> Found<'a, Operand>
        requires nests { Nests self.now.reader.spare (E.pre self.now.reader.expr) (E.post self.now.reader.expr) (O.pre self.now.reader.opened) (O.post self.now.reader.opened) (F.pre self.now.reader.fields) (F.post self.now.reader.fields) }
        ensures { Gives self.now.reader.names.now result (form_in self.now.reader.spare parts.next_argument self.now.reader.names.now ts.now) }
    {
        let (_, rest) = expect(self.reader.names, Sort::Comma, ts)?;
        self.reader.nested_expr(level::ASSIGNMENT, rest)
    }

    #[tactic(auto, unfolding(nesc_tree::specs::Reading::read))]
    fn another_argument(&self, so_far: Arguments, ts: &'a [Token]) -> Found<'a, Arguments>
        requires nests { Nests self.now.reader.spare (E.pre self.now.reader.expr) (E.post self.now.reader.expr) (O.pre self.now.reader.opened) (O.post self.now.reader.opened) (F.pre self.now.reader.fields) (F.post self.now.reader.fields) }
        ensures { Gives self.now.reader.names.now result (form_in self.now.reader.spare (grammar.applied so_far parts.another_argument) self.now.reader.names.now ts.now) }
    {
        let (so_far, (next, rest)) = beside(so_far, self.next_argument(ts))?;
        Ok((pushed(next, so_far)?, rest))
    }

    /// Arguments with commas between them.
    #[tactic(auto, unfolding(nesc_tree::specs::Reading::read))]
    fn some_arguments(&self, ts: &'a [Token]) -> Found<'a, Arguments>
        requires nests { Nests self.now.reader.spare (E.pre self.now.reader.expr) (E.post self.now.reader.expr) (O.pre self.now.reader.opened) (O.post self.now.reader.opened) (F.pre self.now.reader.fields) (F.post self.now.reader.fields) }
        ensures { Gives self.now.reader.names.now result (form_in self.now.reader.spare grammar.some_arguments self.now.reader.names.now ts.now) }
    {
        let (first, rest) = self.reader.nested_expr(level::ASSIGNMENT, ts)?;
        let mut list = single(self.reader.alloc, first)?;
        let mut rest = rest;
        while is_comma(ahead(self.reader.names, rest)) {
            let (so_far, behind) = self.another_argument(list, rest)?;
            list = so_far;
            rest = behind;
        }
        Ok((list, rest))
    }

    #[tactic(auto, unfolding(nesc_tree::specs::Reading::read))]
    fn closed_arguments(&self, ts: &'a [Token]) -> Found<'a, Arguments>
        ensures { Gives self.now.reader.names.now result (form_in self.now.reader.spare parts.closed_arguments self.now.reader.names.now ts.now) }
    {
        let (_, rest) = expect(self.reader.names, Sort::RParen, ts)?;
        Ok((no_arguments(self.reader.alloc), rest))
    }

    #[tactic(auto, unfolding(nesc_tree::specs::Reading::read))]
    fn open_arguments(&self, ts: &'a [Token]) -> Found<'a, Arguments>
        requires nests { Nests self.now.reader.spare (E.pre self.now.reader.expr) (E.post self.now.reader.expr) (O.pre self.now.reader.opened) (O.post self.now.reader.opened) (F.pre self.now.reader.fields) (F.post self.now.reader.fields) }
        ensures { Gives self.now.reader.names.now result (form_in self.now.reader.spare parts.open_arguments self.now.reader.names.now ts.now) }
    {
        let (list, rest) = self.some_arguments(ts)?;
        let closing = expect(self.reader.names, Sort::RParen, rest);
        let (list, (_, rest)) = beside(list, closing)?;
        Ok((list, rest))
    }

    /// The arguments of a call, with their parentheses.
    #[tactic(auto, unfolding(nesc_tree::specs::Reading::read))]
    pub fn arguments(&self, ts: &'a [Token]) -> Found<'a, Arguments>
        requires nests { Nests self.now.reader.spare (E.pre self.now.reader.expr) (E.post self.now.reader.expr) (O.pre self.now.reader.opened) (O.post self.now.reader.opened) (F.pre self.now.reader.fields) (F.post self.now.reader.fields) }
        ensures gives { Gives self.now.reader.names.now result (form_in self.now.reader.spare grammar.arguments self.now.reader.names.now ts.now) }
        ensures fits { IfOk result (λ x. x.0.height ≤ self.now.reader.spare) }
    {
        let (_, rest) = expect(self.reader.names, Sort::LParen, ts)?;
        match ahead(self.reader.names, rest) {
            Sort::RParen => self.closed_arguments(rest),
            _ => self.open_arguments(rest),
        }
    }

    /// The parameter between brackets, where a call has one.
    #[tactic(auto, unfolding(nesc_tree::specs::Reading::read))]
    fn param(&self, ts: &'a [Token]) -> Found<'a, Option<Operand>>
        requires nests { Nests self.now.reader.spare (E.pre self.now.reader.expr) (E.post self.now.reader.expr) (O.pre self.now.reader.opened) (O.post self.now.reader.opened) (F.pre self.now.reader.fields) (F.post self.now.reader.fields) }
        ensures gives { Gives self.now.reader.names.now result (form_in self.now.reader.spare grammar.param self.now.reader.names.now ts.now) }
        ensures fits { IfOk result (λ x. grammar.height_of x.0 ≤ self.now.reader.spare) }
    {
        if !same_sort(Sort::LBracket, ahead(self.reader.names, ts)) {
            return Ok((None, ts));
        }
        if self.reader.spare == 0 {
            return Err(Stop::Deep(ts));
        }
        let (_, rest) = expect(self.reader.names, Sort::LBracket, ts)?;
        let (param, rest) = self.closed(level::ASSIGNMENT, Sort::RBracket, rest)?;
        Ok((Some(param), rest))
    }

    /// The parameter and the arguments of a call of an item, and the call.
    #[tactic(auto, unfolding(nesc_tree::specs::Reading::read))]
    fn item_behind(
        &self,
        item: &Token,
        element: &Token,
        word: &Token,
        ts: &'a [Token],
    ) -> Found<'a, Operand>
        requires nests { Nests self.now.reader.spare (E.pre self.now.reader.expr) (E.post self.now.reader.expr) (O.pre self.now.reader.opened) (O.post self.now.reader.opened) (F.pre self.now.reader.fields) (F.post self.now.reader.fields) }
        ensures { Gives self.now.reader.names.now result (form_in self.now.reader.spare (parts.item_behind item.now element.now word.now) self.now.reader.names.now ts.now) }
    {
        let (param, rest) = self.param(ts)?;
        let (param, (arguments, rest)) = beside(param, self.arguments(rest))?;
        Ok((
            item_operand(self.reader.alloc, param, arguments, item, element, word)?,
            rest,
        ))
    }

    /// `call` or `signal` of an item.
    #[tactic(auto, unfolding(nesc_tree::specs::Reading::read))]
    fn call_item(&self, ts: &'a [Token]) -> Found<'a, Operand>
        requires nests { Nests self.now.reader.spare (E.pre self.now.reader.expr) (E.post self.now.reader.expr) (O.pre self.now.reader.opened) (O.post self.now.reader.opened) (F.pre self.now.reader.fields) (F.post self.now.reader.fields) }
        ensures { Gives self.now.reader.names.now result (form_in self.now.reader.spare grammar.call_item self.now.reader.names.now ts.now) }
    {
        let (word, rest) = expect(self.reader.names, Sort::Call, ts)?;
        let (element, rest) = name(self.reader.names, rest)?;
        let (_, rest) = expect(self.reader.names, Sort::Dot, rest)?;
        let (item, rest) = name(self.reader.names, rest)?;
        self.item_behind(item, element, word, rest)
    }

    #[tactic(auto, unfolding(nesc_tree::specs::Reading::read))]
    fn port_read(&self, ts: &'a [Token]) -> Found<'a, Operand>
        requires nests { Nests self.now.reader.spare (E.pre self.now.reader.expr) (E.post self.now.reader.expr) (O.pre self.now.reader.opened) (O.post self.now.reader.opened) (F.pre self.now.reader.fields) (F.post self.now.reader.fields) }
        ensures { Gives self.now.reader.names.now result (form_in self.now.reader.spare grammar.port_read self.now.reader.names.now ts.now) }
    {
        let (word, rest) = expect(self.reader.names, Sort::PortRead, ts)?;
        let (_, rest) = expect(self.reader.names, Sort::LParen, rest)?;
        let (port, rest) = self.closed(level::CONDITIONAL, Sort::RParen, rest)?;
        Ok((port_read_operand(self.reader.alloc, word, port)?, rest))
    }

    /// The port of `port_write`, with its `(` and the comma behind it.
    #[tactic(auto, unfolding(nesc_tree::specs::Reading::read))]
    fn port_of(&self, ts: &'a [Token]) -> Found<'a, Operand>
        requires nests { Nests self.now.reader.spare (E.pre self.now.reader.expr) (E.post self.now.reader.expr) (O.pre self.now.reader.opened) (O.post self.now.reader.opened) (F.pre self.now.reader.fields) (F.post self.now.reader.fields) }
        ensures gives { Gives self.now.reader.names.now result (form_in self.now.reader.spare parts.port self.now.reader.names.now ts.now) }
        ensures fits { IfOk result (λ x. x.0.height ≤ self.now.reader.spare) }
    {
        let (_, rest) = expect(self.reader.names, Sort::LParen, ts)?;
        self.closed(level::CONDITIONAL, Sort::Comma, rest)
    }

    /// The value of `port_write`, with the `)` behind it.
    #[tactic(auto, unfolding(nesc_tree::specs::Reading::read))]
    fn port_value(&self, ts: &'a [Token]) -> Found<'a, Operand>
        requires nests { Nests self.now.reader.spare (E.pre self.now.reader.expr) (E.post self.now.reader.expr) (O.pre self.now.reader.opened) (O.post self.now.reader.opened) (F.pre self.now.reader.fields) (F.post self.now.reader.fields) }
        ensures gives { Gives self.now.reader.names.now result (form_in self.now.reader.spare parts.port_value self.now.reader.names.now ts.now) }
        ensures fits { IfOk result (λ x. x.0.height ≤ self.now.reader.spare) }
    {
        self.closed(level::ASSIGNMENT, Sort::RParen, ts)
    }

    #[tactic(auto, unfolding(nesc_tree::specs::Reading::read))]
    fn port_write(&self, ts: &'a [Token]) -> Found<'a, Operand>
        requires nests { Nests self.now.reader.spare (E.pre self.now.reader.expr) (E.post self.now.reader.expr) (O.pre self.now.reader.opened) (O.post self.now.reader.opened) (F.pre self.now.reader.fields) (F.post self.now.reader.fields) }
        ensures { Gives self.now.reader.names.now result (form_in self.now.reader.spare grammar.port_write self.now.reader.names.now ts.now) }
    {
        let (word, rest) = expect(self.reader.names, Sort::PortWrite, ts)?;
        let (port, rest) = self.port_of(rest)?;
        let (port, (value, rest)) = beside(port, self.port_value(rest))?;
        Ok((
            port_write_operand(self.reader.alloc, word, port, value)?,
            rest,
        ))
    }

    /// A sign, and the operand behind it.
    #[tactic(auto, unfolding(nesc_tree::specs::Reading::read))]
    fn signed(&self, sign: Sort, least: u8, ts: &'a [Token]) -> Found<'a, Operand>
        requires nests { Nests self.now.reader.spare (E.pre self.now.reader.expr) (E.post self.now.reader.expr) (O.pre self.now.reader.opened) (O.post self.now.reader.opened) (F.pre self.now.reader.fields) (F.post self.now.reader.fields) }
        ensures { Gives self.now.reader.names.now result (form_in self.now.reader.spare (grammar.signed sign least) self.now.reader.names.now ts.now) }
    {
        let (token, rest) = expect(self.reader.names, sign, ts)?;
        let (inner, rest) = self.reader.nested_expr(least, rest)?;
        Ok((unary_operand(self.reader.alloc, token, inner)?, rest))
    }

    /// The operand of a cast, with the `)` before it.
    #[tactic(auto, unfolding(nesc_tree::specs::Reading::read))]
    fn cast_inner(&self, ts: &'a [Token]) -> Found<'a, Operand>
        requires nests { Nests self.now.reader.spare (E.pre self.now.reader.expr) (E.post self.now.reader.expr) (O.pre self.now.reader.opened) (O.post self.now.reader.opened) (F.pre self.now.reader.fields) (F.post self.now.reader.fields) }
        ensures gives { Gives self.now.reader.names.now result (form_in self.now.reader.spare parts.cast_inner self.now.reader.names.now ts.now) }
        ensures fits { IfOk result (λ x. x.0.height ≤ self.now.reader.spare) }
    {
        let (_, rest) = expect(self.reader.names, Sort::RParen, ts)?;
        self.reader.nested_expr(level::CAST, rest)
    }

    /// A cast, behind its `(`.
    #[tactic(auto, unfolding(nesc_tree::specs::Reading::read))]
    fn cast(&self, opening: &Token, ts: &'a [Token]) -> Found<'a, Operand>
        requires nests { Nests self.now.reader.spare (E.pre self.now.reader.expr) (E.post self.now.reader.expr) (O.pre self.now.reader.opened) (O.post self.now.reader.opened) (F.pre self.now.reader.fields) (F.post self.now.reader.fields) }
        ensures { Gives self.now.reader.names.now result (form_in self.now.reader.spare (grammar.applied opening.now grammar.cast) self.now.reader.names.now ts.now) }
    {
        let (target, rest) = self.reader.cast_type(ts)?;
        let (target, (inner, rest)) = beside(target, self.cast_inner(rest))?;
        Ok((
            cast_operand(self.reader.alloc, target, inner, opening)?,
            rest,
        ))
    }

    /// An expression between parentheses, behind their `(`.
    #[tactic(auto, unfolding(nesc_tree::specs::Reading::read))]
    pub fn parens(&self, opening: &Token, ts: &'a [Token]) -> Found<'a, Operand>
        requires nests { Nests self.now.reader.spare (E.pre self.now.reader.expr) (E.post self.now.reader.expr) (O.pre self.now.reader.opened) (O.post self.now.reader.opened) (F.pre self.now.reader.fields) (F.post self.now.reader.fields) }
        ensures { Gives self.now.reader.names.now result (form_in self.now.reader.spare (grammar.applied opening.now grammar.parens) self.now.reader.names.now ts.now) }
    {
        let (inner, rest) = self.closed(level::COMMA, Sort::RParen, ts)?;
        Ok((paren_operand(inner, opening), rest))
    }

    /// A cast, where one may stand, or an expression between parentheses.
    #[tactic(auto, unfolding(nesc_tree::specs::Reading::read))]
    fn bracketed(&self, may_cast: bool, ts: &'a [Token]) -> Found<'a, Operand>
        requires nests { Nests self.now.reader.spare (E.pre self.now.reader.expr) (E.post self.now.reader.expr) (O.pre self.now.reader.opened) (O.post self.now.reader.opened) (F.pre self.now.reader.fields) (F.post self.now.reader.fields) }
        requires room { 0 < self.now.reader.spare }
        ensures { Gives self.now.reader.names.now result (form_in self.now.reader.spare (grammar.bracketed_expr may_cast) self.now.reader.names.now ts.now) }
    {
        let (opening, rest) = expect(self.reader.names, Sort::LParen, ts)?;
        if is_cast(self.reader.names, may_cast, rest) {
            self.cast(opening, rest)
        } else {
            self.parens(opening, rest)
        }
    }

    #[tactic(auto, unfolding(nesc_tree::specs::Reading::read))]
    fn size_type(&self, word: &Token, opening: &Token, ts: &'a [Token]) -> Found<'a, Operand>
        requires nests { Nests self.now.reader.spare (E.pre self.now.reader.expr) (E.post self.now.reader.expr) (O.pre self.now.reader.opened) (O.post self.now.reader.opened) (F.pre self.now.reader.fields) (F.post self.now.reader.fields) }
        ensures { Gives self.now.reader.names.now result (form_in self.now.reader.spare (parts.size_type word.now opening.now) self.now.reader.names.now ts.now) }
    {
        let (measured, rest) = self.reader.cast_type(ts)?;
        let closing = expect(self.reader.names, Sort::RParen, rest);
        let (measured, (_, rest)) = beside(measured, closing)?;
        Ok((size_of_type(measured, word), rest))
    }

    #[tactic(auto, unfolding(nesc_tree::specs::Reading::read))]
    fn size_opened(&self, word: &Token, opening: &Token, ts: &'a [Token]) -> Found<'a, Operand>
        requires nests { Nests self.now.reader.spare (E.pre self.now.reader.expr) (E.post self.now.reader.expr) (O.pre self.now.reader.opened) (O.post self.now.reader.opened) (F.pre self.now.reader.fields) (F.post self.now.reader.fields) }
        ensures { Gives self.now.reader.names.now result (form_in self.now.reader.spare (parts.size_opened word.now opening.now) self.now.reader.names.now ts.now) }
    {
        let (inner, rest) = self.reader.nested_opened(opening, ts)?;
        Ok((size_of_expr(self.reader.alloc, inner, word)?, rest))
    }

    #[tactic(auto, unfolding(nesc_tree::specs::Reading::read))]
    fn size_unary(&self, word: &Token, ts: &'a [Token]) -> Found<'a, Operand>
        requires nests { Nests self.now.reader.spare (E.pre self.now.reader.expr) (E.post self.now.reader.expr) (O.pre self.now.reader.opened) (O.post self.now.reader.opened) (F.pre self.now.reader.fields) (F.post self.now.reader.fields) }
        ensures { Gives self.now.reader.names.now result (form_in self.now.reader.spare (parts.size_unary word.now) self.now.reader.names.now ts.now) }
    {
        let (inner, rest) = self.reader.nested_expr(level::UNARY, ts)?;
        Ok((size_of_expr(self.reader.alloc, inner, word)?, rest))
    }

    /// What `sizeof` measures, where a `(` is behind it: a type, or an expression that begins so.
    #[tactic(auto, unfolding(nesc_tree::specs::Reading::read))]
    fn size_bracketed(&self, word: &Token, ts: &'a [Token]) -> Found<'a, Operand>
        requires nests { Nests self.now.reader.spare (E.pre self.now.reader.expr) (E.post self.now.reader.expr) (O.pre self.now.reader.opened) (O.post self.now.reader.opened) (F.pre self.now.reader.fields) (F.post self.now.reader.fields) }
        ensures { Gives self.now.reader.names.now result (form_in self.now.reader.spare (parts.size_bracketed word.now) self.now.reader.names.now ts.now) }
    {
        let (opening, rest) = expect(self.reader.names, Sort::LParen, ts)?;
        if begins_type(ahead(self.reader.names, rest)) {
            self.size_type(word, opening, rest)
        } else {
            self.size_opened(word, opening, rest)
        }
    }

    #[tactic(auto, unfolding(nesc_tree::specs::Reading::read))]
    fn size_of(&self, ts: &'a [Token]) -> Found<'a, Operand>
        requires nests { Nests self.now.reader.spare (E.pre self.now.reader.expr) (E.post self.now.reader.expr) (O.pre self.now.reader.opened) (O.post self.now.reader.opened) (F.pre self.now.reader.fields) (F.post self.now.reader.fields) }
        ensures { Gives self.now.reader.names.now result (form_in self.now.reader.spare grammar.size_of self.now.reader.names.now ts.now) }
    {
        let (word, rest) = expect(self.reader.names, Sort::SizeOf, ts)?;
        match ahead(self.reader.names, rest) {
            Sort::LParen => self.size_bracketed(word, rest),
            _ => self.size_unary(word, rest),
        }
    }

    /// The operand that a token of this sort begins, where a cast may stand or may not.
    #[tactic(auto, unfolding(nesc_tree::specs::Reading::read))]
    fn primary_of(&self, first: Sort, may_cast: bool, ts: &'a [Token]) -> Found<'a, Operand>
        requires nests { Nests self.now.reader.spare (E.pre self.now.reader.expr) (E.post self.now.reader.expr) (O.pre self.now.reader.opened) (O.post self.now.reader.opened) (F.pre self.now.reader.fields) (F.post self.now.reader.fields) }
        requires room { guards.nests_first first ≡ true → 0 < self.now.reader.spare }
        ensures { Gives self.now.reader.names.now result (form_in self.now.reader.spare (grammar.primary may_cast first) self.now.reader.names.now ts.now) }
    {
        match first {
            Sort::Word => name_leaf(self.reader.alloc, self.reader.names, ts),
            Sort::Number => number_leaf(self.reader.alloc, self.reader.names, ts),
            Sort::Char => char_leaf(self.reader.alloc, self.reader.names, ts),
            Sort::Null => null_leaf(self.reader.names, ts),
            Sort::LParen => self.bracketed(may_cast, ts),
            Sort::Plus => self.signed(Sort::Plus, level::CAST, ts),
            Sort::Minus => self.signed(Sort::Minus, level::CAST, ts),
            Sort::Star => self.signed(Sort::Star, level::CAST, ts),
            Sort::Amp => self.signed(Sort::Amp, level::CAST, ts),
            Sort::Complement => self.signed(Sort::Complement, level::CAST, ts),
            Sort::Step => self.signed(Sort::Step, level::UNARY, ts),
            Sort::SizeOf => self.size_of(ts),
            Sort::Unique => unique(self.reader.alloc, self.reader.names, ts),
            Sort::PortRead => self.port_read(ts),
            Sort::PortWrite => self.port_write(ts),
            Sort::Post => post_call(self.reader.alloc, self.reader.names, ts),
            Sort::Call => self.call_item(ts),
            _ => Err(Stop::Syntax(ts)),
        }
    }

    /// The operand that an expression begins with, where a cast may stand or may not.
    pub fn primary(&self, may_cast: bool, ts: &'a [Token]) -> Found<'a, Operand>
        requires nests { Nests self.now.reader.spare (E.pre self.now.reader.expr) (E.post self.now.reader.expr) (O.pre self.now.reader.opened) (O.post self.now.reader.opened) (F.pre self.now.reader.fields) (F.post self.now.reader.fields) }
        ensures { Gives self.now.reader.names.now result (form_in self.now.reader.spare (parts.primary may_cast) self.now.reader.names.now ts.now) }
    {
        let first = ahead(self.reader.names, ts);
        if self.reader.is_full(nests_first(first)) {
            return Err(Stop::Deep(ts));
        }
        self.primary_of(first, may_cast, ts)
    }
}
