//! Reading what goes on an expression (C99 6.5.2, 6.5.5 to 6.5.17).

ghost use Rattle.std.specs.Prelude.{◌≡◌, ◌≤◌, ◌<◌, ◌^◌, IfOk, IfErr, true, suc, length};
ghost use Rattle.nesc_tree.specs.Sorts as sorts;
ghost use Rattle.nesc_grammar.specs.Grammar as grammar;
ghost use Rattle.nesc_parse_types.specs.Gives.{Fails, Gives, Nests, form_in};
ghost use Rattle.nesc_parse_exprs.specs.Growing as growing;
ghost use Rattle.nesc_parse_exprs.specs.Growing.{GivesGrowth, growth_of};
ghost use Rattle.nesc_parse_exprs.specs.Turns.{climb_in};
ghost use Rattle.nesc_parse_exprs.specs.Climbing.{grown_by, step_in};

use crate::expr_reader::ExprReader;
use crate::growing::{Growing, grown};
use nesc_operands::operators::{assignment_of, infix_of, suffix_of};
use nesc_operands::precedence::{goes_on, nests_behind};
use nesc_parse_types::{Found, Stop, expect, name};
use nesc_tree::{Fields, Operand, Sort, TypeNames, ahead, level};
use nm_base::{Token, beside};
use std::alloc::Global;

impl<
    'a,
    E: Fn(Global, &TypeNames, usize, u8, &'a [Token]) -> Found<'a, Operand>,
    O: Fn(Global, &TypeNames, usize, &Token, &'a [Token]) -> Found<'a, Operand>,
    F: Fn(Global, &TypeNames, usize, &'a [Token]) -> Found<'a, Fields>,
> ExprReader<'_, E, O, F> {
    #[tactic(auto, unfolding(nesc_tree::specs::Reading::read))]
    fn comma(&self, ts: &'a [Token]) -> Found<'a, Growing<'a>>
        requires nests { Nests self.now.reader.spare (E.pre self.now.reader.expr) (E.post self.now.reader.expr) (O.pre self.now.reader.opened) (O.post self.now.reader.opened) (F.pre self.now.reader.fields) (F.post self.now.reader.fields) }
        ensures gives { GivesGrowth self.now.reader.names.now result (form_in self.now.reader.spare grammar.comma self.now.reader.names.now ts.now) }
        ensures fits { IfOk result (λ x. (growth_of x.0).height ≤ self.now.reader.spare) }
    {
        let (_, rest) = expect(self.reader.names, Sort::Comma, ts)?;
        let (right, rest) = self.reader.nested_expr(level::ASSIGNMENT, rest)?;
        Ok((Growing::Comma(right), rest))
    }

    #[tactic(auto, unfolding(nesc_tree::specs::Reading::read))]
    fn assign(&self, sign: Sort, ts: &'a [Token]) -> Found<'a, Growing<'a>>
        requires nests { Nests self.now.reader.spare (E.pre self.now.reader.expr) (E.post self.now.reader.expr) (O.pre self.now.reader.opened) (O.post self.now.reader.opened) (F.pre self.now.reader.fields) (F.post self.now.reader.fields) }
        ensures gives { GivesGrowth self.now.reader.names.now result (form_in self.now.reader.spare (grammar.assign sign) self.now.reader.names.now ts.now) }
        ensures fits { IfOk result (λ x. (growth_of x.0).height ≤ self.now.reader.spare) }
    {
        let (token, rest) = expect(self.reader.names, sign, ts)?;
        let (right, rest) = self.reader.nested_expr(level::ASSIGNMENT, rest)?;
        Ok((Growing::Assign(assignment_of(token), right), rest))
    }

    /// An operator of the level `binds`, and an operand of at least the level `least`.
    #[tactic(auto, unfolding(nesc_tree::specs::Reading::read))]
    fn binary(&self, sign: Sort, binds: u8, least: u8, ts: &'a [Token]) -> Found<'a, Growing<'a>>
        requires nests { Nests self.now.reader.spare (E.pre self.now.reader.expr) (E.post self.now.reader.expr) (O.pre self.now.reader.opened) (O.post self.now.reader.opened) (F.pre self.now.reader.fields) (F.post self.now.reader.fields) }
        ensures gives { GivesGrowth self.now.reader.names.now result (form_in self.now.reader.spare (growing.binary sign binds least) self.now.reader.names.now ts.now) }
        ensures fits { IfOk result (λ x. (growth_of x.0).height ≤ self.now.reader.spare) }
    {
        let (token, rest) = expect(self.reader.names, sign, ts)?;
        let (right, rest) = self.reader.nested_expr(least, rest)?;
        Ok((Growing::Binary(infix_of(token), binds, right), rest))
    }

    /// The value of a choice behind its `?`.
    #[tactic(auto, unfolding(nesc_tree::specs::Reading::read))]
    fn then_value(&self, ts: &'a [Token]) -> Found<'a, Operand>
        requires nests { Nests self.now.reader.spare (E.pre self.now.reader.expr) (E.post self.now.reader.expr) (O.pre self.now.reader.opened) (O.post self.now.reader.opened) (F.pre self.now.reader.fields) (F.post self.now.reader.fields) }
        ensures gives { Gives self.now.reader.names.now result (form_in self.now.reader.spare growing.then_value self.now.reader.names.now ts.now) }
        ensures fits { IfOk result (λ x. x.0.height ≤ self.now.reader.spare) }
    {
        let (_, rest) = expect(self.reader.names, Sort::Question, ts)?;
        self.reader.nested_expr(level::COMMA, rest)
    }

    /// The value of a choice behind its `:`.
    #[tactic(auto, unfolding(nesc_tree::specs::Reading::read))]
    fn other_value(&self, ts: &'a [Token]) -> Found<'a, Operand>
        requires nests { Nests self.now.reader.spare (E.pre self.now.reader.expr) (E.post self.now.reader.expr) (O.pre self.now.reader.opened) (O.post self.now.reader.opened) (F.pre self.now.reader.fields) (F.post self.now.reader.fields) }
        ensures gives { Gives self.now.reader.names.now result (form_in self.now.reader.spare growing.other_value self.now.reader.names.now ts.now) }
        ensures fits { IfOk result (λ x. x.0.height ≤ self.now.reader.spare) }
    {
        let (_, rest) = expect(self.reader.names, Sort::Colon, ts)?;
        self.reader.nested_expr(level::CONDITIONAL, rest)
    }

    #[tactic(auto, unfolding(nesc_tree::specs::Reading::read))]
    fn choose(&self, ts: &'a [Token]) -> Found<'a, Growing<'a>>
        requires nests { Nests self.now.reader.spare (E.pre self.now.reader.expr) (E.post self.now.reader.expr) (O.pre self.now.reader.opened) (O.post self.now.reader.opened) (F.pre self.now.reader.fields) (F.post self.now.reader.fields) }
        ensures gives { GivesGrowth self.now.reader.names.now result (form_in self.now.reader.spare grammar.choose self.now.reader.names.now ts.now) }
        ensures fits { IfOk result (λ x. (growth_of x.0).height ≤ self.now.reader.spare) }
    {
        let (then, rest) = self.then_value(ts)?;
        let (then, (other, rest)) = beside(then, self.other_value(rest))?;
        Ok((Growing::Choice(then, other), rest))
    }

    #[tactic(auto, unfolding(nesc_tree::specs::Reading::read))]
    fn index(&self, ts: &'a [Token]) -> Found<'a, Growing<'a>>
        requires nests { Nests self.now.reader.spare (E.pre self.now.reader.expr) (E.post self.now.reader.expr) (O.pre self.now.reader.opened) (O.post self.now.reader.opened) (F.pre self.now.reader.fields) (F.post self.now.reader.fields) }
        ensures gives { GivesGrowth self.now.reader.names.now result (form_in self.now.reader.spare grammar.index self.now.reader.names.now ts.now) }
        ensures fits { IfOk result (λ x. (growth_of x.0).height ≤ self.now.reader.spare) }
    {
        let (_, rest) = expect(self.reader.names, Sort::LBracket, ts)?;
        let (index, rest) = self.reader.nested_expr(level::COMMA, rest)?;
        let closing = expect(self.reader.names, Sort::RBracket, rest);
        let (index, (_, rest)) = beside(index, closing)?;
        Ok((Growing::Index(index), rest))
    }

    #[tactic(auto, unfolding(nesc_tree::specs::Reading::read))]
    fn call_function(&self, ts: &'a [Token]) -> Found<'a, Growing<'a>>
        requires nests { Nests self.now.reader.spare (E.pre self.now.reader.expr) (E.post self.now.reader.expr) (O.pre self.now.reader.opened) (O.post self.now.reader.opened) (F.pre self.now.reader.fields) (F.post self.now.reader.fields) }
        ensures gives { GivesGrowth self.now.reader.names.now result (form_in self.now.reader.spare grammar.call_function self.now.reader.names.now ts.now) }
        ensures fits { IfOk result (λ x. (growth_of x.0).height ≤ self.now.reader.spare) }
    {
        let (arguments, rest) = self.arguments(ts)?;
        Ok((Growing::Call(arguments), rest))
    }

    #[tactic(auto, unfolding(nesc_tree::specs::Reading::read))]
    fn member(&self, ts: &'a [Token]) -> Found<'a, Growing<'a>>
        ensures gives { GivesGrowth self.now.reader.names.now result (form_in self.now.reader.spare grammar.member self.now.reader.names.now ts.now) }
        ensures fits { IfOk result (λ x. (growth_of x.0).height ≤ self.now.reader.spare) }
    {
        let (_, rest) = expect(self.reader.names, Sort::Dot, ts)?;
        let (member, rest) = name(self.reader.names, rest)?;
        Ok((Growing::Member(member), rest))
    }

    #[tactic(auto, unfolding(nesc_tree::specs::Reading::read))]
    fn arrow(&self, ts: &'a [Token]) -> Found<'a, Growing<'a>>
        ensures gives { GivesGrowth self.now.reader.names.now result (form_in self.now.reader.spare grammar.arrow self.now.reader.names.now ts.now) }
        ensures fits { IfOk result (λ x. (growth_of x.0).height ≤ self.now.reader.spare) }
    {
        let (_, rest) = expect(self.reader.names, Sort::Arrow, ts)?;
        let (member, rest) = name(self.reader.names, rest)?;
        Ok((Growing::Arrow(member), rest))
    }

    #[tactic(auto, unfolding(nesc_tree::specs::Reading::read))]
    fn step(&self, ts: &'a [Token]) -> Found<'a, Growing<'a>>
        ensures gives { GivesGrowth self.now.reader.names.now result (form_in self.now.reader.spare grammar.step self.now.reader.names.now ts.now) }
        ensures fits { IfOk result (λ x. (growth_of x.0).height ≤ self.now.reader.spare) }
    {
        let (token, rest) = expect(self.reader.names, Sort::Step, ts)?;
        Ok((Growing::Step(suffix_of(token)), rest))
    }

    /// What an operator of this sort makes of an operand; operators of one level group from the left.
    #[tactic(auto, unfolding(nesc_tree::specs::Reading::read))]
    fn operation(&self, sign: Sort, ts: &'a [Token]) -> Found<'a, Growing<'a>>
        requires nests { Nests self.now.reader.spare (E.pre self.now.reader.expr) (E.post self.now.reader.expr) (O.pre self.now.reader.opened) (O.post self.now.reader.opened) (F.pre self.now.reader.fields) (F.post self.now.reader.fields) }
        ensures gives { GivesGrowth self.now.reader.names.now result (form_in self.now.reader.spare (grammar.operation sign) self.now.reader.names.now ts.now) }
        ensures fits { IfOk result (λ x. (growth_of x.0).height ≤ self.now.reader.spare) }
    {
        match sign {
            Sort::Comma => self.comma(ts),
            Sort::Assign => self.assign(Sort::Assign, ts),
            Sort::OpAssign => self.assign(Sort::OpAssign, ts),
            Sort::Question => self.choose(ts),
            Sort::OrOr => self.binary(Sort::OrOr, level::LOGICAL_OR, level::LOGICAL_AND, ts),
            Sort::AndAnd => self.binary(Sort::AndAnd, level::LOGICAL_AND, level::BIT_OR, ts),
            Sort::Bar => self.binary(Sort::Bar, level::BIT_OR, level::BIT_XOR, ts),
            Sort::Caret => self.binary(Sort::Caret, level::BIT_XOR, level::BIT_AND, ts),
            Sort::Amp => self.binary(Sort::Amp, level::BIT_AND, level::EQUALITY, ts),
            Sort::Equality => self.binary(Sort::Equality, level::EQUALITY, level::RELATIONAL, ts),
            Sort::Less => self.binary(Sort::Less, level::RELATIONAL, level::SHIFT, ts),
            Sort::Greater => self.binary(Sort::Greater, level::RELATIONAL, level::SHIFT, ts),
            Sort::OrEqual => self.binary(Sort::OrEqual, level::RELATIONAL, level::SHIFT, ts),
            Sort::Shift => self.binary(Sort::Shift, level::SHIFT, level::ADDITIVE, ts),
            Sort::Plus => self.binary(Sort::Plus, level::ADDITIVE, level::MULTIPLICATIVE, ts),
            Sort::Minus => self.binary(Sort::Minus, level::ADDITIVE, level::MULTIPLICATIVE, ts),
            Sort::Star => self.binary(Sort::Star, level::MULTIPLICATIVE, level::CAST, ts),
            Sort::Divide => self.binary(Sort::Divide, level::MULTIPLICATIVE, level::CAST, ts),
            Sort::LBracket => self.index(ts),
            Sort::LParen => self.call_function(ts),
            Sort::Dot => self.member(ts),
            Sort::Arrow => self.arrow(ts),
            Sort::Step => self.step(ts),
            _ => Err(Stop::Syntax(ts)),
        }
    }

    /// The operand with the operator of this sort and what belongs to it.
    #[tactic(auto, unfolding(nesc_tree::specs::Reading::read))]
    fn longer(&self, sign: Sort, left: Operand, ts: &'a [Token]) -> Found<'a, Operand>
        requires nests { Nests self.now.reader.spare (E.pre self.now.reader.expr) (E.post self.now.reader.expr) (O.pre self.now.reader.opened) (O.post self.now.reader.opened) (F.pre self.now.reader.fields) (F.post self.now.reader.fields) }
        requires fits { left.height ≤ self.now.reader.spare }
        ensures { Gives self.now.reader.names.now result (form_in self.now.reader.spare (grown_by left (grammar.operation sign)) self.now.reader.names.now ts.now) }
    {
        let (left, (growing, rest)) = beside(left, self.operation(sign, ts))?;
        Ok((grown(self.reader.alloc, left, growing)?, rest))
    }

    /// The operator ahead, where an operand of this height may be gone on with and a level is left for what nests.
    fn sign_behind(&self, left: &Operand, ts: &'a [Token]) -> Result<Sort, Stop<'a>>
        requires goes_on { grammar.is_operator (sorts.ahead self.now.reader.names.now ts.now) ≡ true }
        ensures fits { IfOk result (λ _. left.now.height ≤ self.now.reader.spare) }
        ensures open { IfOk result (λ x. step_in self.now.reader.spare left.now self.now.reader.names.now ts.now ≡ form_in self.now.reader.spare (grown_by left.now (grammar.operation x)) self.now.reader.names.now ts.now) }
        ensures full { IfErr result (λ e. Fails e (step_in self.now.reader.spare left.now self.now.reader.names.now ts.now)) }
    {
        let sign = ahead(self.reader.names, ts);
        if left.height > self.reader.spare || self.reader.is_full(nests_behind(sign)) {
            return Err(Stop::Deep(ts));
        }
        Ok(sign)
    }

    /// One operator that goes on the operand; an operand that is too high is not gone on with.
    fn growth(&self, left: Operand, ts: &'a [Token]) -> Found<'a, Operand>
        requires nests { Nests self.now.reader.spare (E.pre self.now.reader.expr) (E.post self.now.reader.expr) (O.pre self.now.reader.opened) (O.post self.now.reader.opened) (F.pre self.now.reader.fields) (F.post self.now.reader.fields) }
        requires goes_on { grammar.is_operator (sorts.ahead self.now.reader.names.now ts.now) ≡ true }
        ensures { Gives self.now.reader.names.now result (step_in self.now.reader.spare left self.now.reader.names.now ts.now) }
    {
        let found = self.sign_behind(&left, ts);
        let (kept, sign) = beside(left, found)?;
        self.longer(sign, kept, ts)
    }

    /// The operand with all that goes on it, in an expression of at least this level.
    pub fn climb(&self, least: u8, first: Operand, ts: &'a [Token]) -> Found<'a, Operand>
        requires nests { Nests self.now.reader.spare (E.pre self.now.reader.expr) (E.post self.now.reader.expr) (O.pre self.now.reader.opened) (O.post self.now.reader.opened) (F.pre self.now.reader.fields) (F.post self.now.reader.fields) }
        ensures { Gives self.now.reader.names.now result (climb_in self.now.reader.spare least (suc (length ts.now)) self.now.reader.names.now first ts.now) }
    {
        let mut left = first;
        let mut rest = ts;
        while goes_on(least, &left, ahead(self.reader.names, rest)) {
            let (longer, behind) = self.growth(left, rest)?;
            left = longer;
            rest = behind;
        }
        Ok((left, rest))
    }
}
