//! Reading the fields of structs (C99 6.7.2.1), and declarators.

ghost use Rattle.std.specs.Prelude.{◌≡◌, ◌≤◌, ◌<◌, ◌^◌, IfOk};
ghost use Rattle.nesc_tree.specs.declared.sorts.Sort.TheVariants as s;
ghost use Rattle.nesc_tree.specs.Level as levels;
ghost use Rattle.nesc_grammar.specs.Grammar as grammar;
ghost use Rattle.nesc_parse_types.specs.Gives.{Gives, Nests, form_in};

use crate::reader::{Reader, expect, name};
use crate::stop::{Found, Stop};
use crate::type_parts::{
    declared, definition, field_group, first_declarator, more_declarators, more_dims, more_fields,
    no_dims, no_fields,
};
use crate::types::{begins_type, is_comma, stars};
use nesc_tree::{
    Declarators, Declared, Dims, Fields, Grouped, Operand, Sort, TypeNames, ahead, level, same_sort,
};
use nm_base::{Token, beside};
use std::alloc::Global;

fn is_bracket(sort: Sort) -> bool
    ensures { result ≡ grammar.is_bracket sort }
{
    matches!(sort, Sort::LBracket)
}

impl<
    'a,
    E: Fn(Global, &TypeNames, usize, u8, &'a [Token]) -> Found<'a, Operand>,
    O: Fn(Global, &TypeNames, usize, &Token, &'a [Token]) -> Found<'a, Operand>,
    F: Fn(Global, &TypeNames, usize, &'a [Token]) -> Found<'a, Fields>,
> Reader<'_, E, O, F> {
    /// The size between the brackets of a dimension.
    #[tactic(auto, unfolding(nesc_tree::specs::Reading::read))]
    fn size(&self, ts: &'a [Token]) -> Found<'a, Operand>
        requires nests { Nests self.now.spare (E.pre self.now.expr) (E.post self.now.expr) (O.pre self.now.opened) (O.post self.now.opened) (F.pre self.now.fields) (F.post self.now.fields) }
        ensures { Gives self.now.names.now result (form_in self.now.spare (grammar.behind (grammar.one s.LBracket) (grammar.before (grammar.expr levels.conditional) (grammar.one s.RBracket))) self.now.names.now ts.now) }
    {
        let (_, rest) = expect(self.names, Sort::LBracket, ts)?;
        let (size, rest) = self.nested_expr(level::CONDITIONAL, rest)?;
        let (size, (_, rest)) = beside(size, expect(self.names, Sort::RBracket, rest))?;
        Ok((size, rest))
    }

    #[tactic(auto, unfolding(nesc_tree::specs::Reading::read))]
    fn another_dim(&self, so_far: Dims, ts: &'a [Token]) -> Found<'a, Dims>
        requires nests { Nests self.now.spare (E.pre self.now.expr) (E.post self.now.expr) (O.pre self.now.opened) (O.post self.now.opened) (F.pre self.now.fields) (F.post self.now.fields) }
        ensures { Gives self.now.names.now result (form_in self.now.spare (grammar.applied so_far grammar.another_dim) self.now.names.now ts.now) }
    {
        let (so_far, (size, rest)) = beside(so_far, self.size(ts))?;
        Ok((more_dims(so_far, size)?, rest))
    }

    /// The dimensions of an array.
    #[tactic(auto, unfolding(nesc_tree::specs::Reading::read))]
    fn dims(&self, ts: &'a [Token]) -> Found<'a, Dims>
        requires nests { Nests self.now.spare (E.pre self.now.expr) (E.post self.now.expr) (O.pre self.now.opened) (O.post self.now.opened) (F.pre self.now.fields) (F.post self.now.fields) }
        ensures { Gives self.now.names.now result (form_in self.now.spare grammar.dims self.now.names.now ts.now) }
    {
        let mut dims = no_dims(self.alloc);
        let mut rest = ts;
        while is_bracket(ahead(self.names, rest)) {
            if self.spare == 0 {
                return Err(Stop::Deep(rest));
            }
            let (so_far, behind) = self.another_dim(dims, rest)?;
            dims = so_far;
            rest = behind;
        }
        Ok((dims, rest))
    }

    #[tactic(auto, unfolding(nesc_tree::specs::Reading::read))]
    pub fn declarator(&self, ts: &'a [Token]) -> Found<'a, Declared>
        requires nests { Nests self.now.spare (E.pre self.now.expr) (E.post self.now.expr) (O.pre self.now.opened) (O.post self.now.opened) (F.pre self.now.fields) (F.post self.now.fields) }
        ensures { Gives self.now.names.now result (form_in self.now.spare grammar.declarator self.now.names.now ts.now) }
    {
        let (stars, rest) = stars(self.names, self.spare, ts)?;
        let (token, rest) = name(self.names, rest)?;
        let (dims, rest) = self.dims(rest)?;
        Ok((declared(self.alloc, token, dims, stars)?, rest))
    }

    /// The declarator behind a comma.
    #[tactic(auto, unfolding(nesc_tree::specs::Reading::read))]
    fn next_declarator(&self, ts: &'a [Token]) -> Found<'a, Declared>
        requires nests { Nests self.now.spare (E.pre self.now.expr) (E.post self.now.expr) (O.pre self.now.opened) (O.post self.now.opened) (F.pre self.now.fields) (F.post self.now.fields) }
        ensures { Gives self.now.names.now result (form_in self.now.spare (grammar.behind (grammar.one s.Comma) grammar.declarator) self.now.names.now ts.now) }
    {
        let (_, rest) = expect(self.names, Sort::Comma, ts)?;
        self.declarator(rest)
    }

    #[tactic(auto, unfolding(nesc_tree::specs::Reading::read))]
    fn another_declarator(&self, so_far: Declarators, ts: &'a [Token]) -> Found<'a, Declarators>
        requires nests { Nests self.now.spare (E.pre self.now.expr) (E.post self.now.expr) (O.pre self.now.opened) (O.post self.now.opened) (F.pre self.now.fields) (F.post self.now.fields) }
        ensures { Gives self.now.names.now result (form_in self.now.spare (grammar.applied so_far grammar.another_declarator) self.now.names.now ts.now) }
    {
        let (so_far, (next, rest)) = beside(so_far, self.next_declarator(ts))?;
        Ok((more_declarators(so_far, next)?, rest))
    }

    /// Declarators with commas between them.
    #[tactic(auto, unfolding(nesc_tree::specs::Reading::read))]
    fn declarators(&self, ts: &'a [Token]) -> Found<'a, Declarators>
        requires nests { Nests self.now.spare (E.pre self.now.expr) (E.post self.now.expr) (O.pre self.now.opened) (O.post self.now.opened) (F.pre self.now.fields) (F.post self.now.fields) }
        ensures { Gives self.now.names.now result (form_in self.now.spare grammar.declarators self.now.names.now ts.now) }
    {
        let (first, rest) = self.declarator(ts)?;
        let mut list = first_declarator(self.alloc, first)?;
        let mut rest = rest;
        while is_comma(ahead(self.names, rest)) {
            let (so_far, behind) = self.another_declarator(list, rest)?;
            list = so_far;
            rest = behind;
        }
        Ok((list, rest))
    }

    /// Declarators up to the semicolon behind them.
    #[tactic(auto, unfolding(nesc_tree::specs::Reading::read))]
    fn closed_declarators(&self, ts: &'a [Token]) -> Found<'a, Declarators>
        requires nests { Nests self.now.spare (E.pre self.now.expr) (E.post self.now.expr) (O.pre self.now.opened) (O.post self.now.opened) (F.pre self.now.fields) (F.post self.now.fields) }
        ensures { Gives self.now.names.now result (form_in self.now.spare (grammar.before grammar.declarators (grammar.one s.Semi)) self.now.names.now ts.now) }
    {
        let (declarators, rest) = self.declarators(ts)?;
        let (declarators, (_, rest)) = beside(declarators, expect(self.names, Sort::Semi, rest))?;
        Ok((declarators, rest))
    }

    /// Fields that share a type.
    #[tactic(auto, unfolding(nesc_tree::specs::Reading::read))]
    fn field(&self, ts: &'a [Token]) -> Found<'a, Grouped>
        requires nests { Nests self.now.spare (E.pre self.now.expr) (E.post self.now.expr) (O.pre self.now.opened) (O.post self.now.opened) (F.pre self.now.fields) (F.post self.now.fields) }
        ensures { Gives self.now.names.now result (form_in self.now.spare grammar.field self.now.names.now ts.now) }
    {
        let (shared, rest) = self.type_form(ts)?;
        let (shared, (declarators, rest)) = beside(shared, self.closed_declarators(rest))?;
        Ok((field_group(shared, declarators), rest))
    }

    #[tactic(auto, unfolding(nesc_tree::specs::Reading::read))]
    fn another_field(&self, so_far: Fields, ts: &'a [Token]) -> Found<'a, Fields>
        requires nests { Nests self.now.spare (E.pre self.now.expr) (E.post self.now.expr) (O.pre self.now.opened) (O.post self.now.opened) (F.pre self.now.fields) (F.post self.now.fields) }
        ensures { Gives self.now.names.now result (form_in self.now.spare (grammar.applied so_far grammar.another_field) self.now.names.now ts.now) }
    {
        let (so_far, (next, rest)) = beside(so_far, self.field(ts))?;
        Ok((more_fields(so_far, next)?, rest))
    }

    #[tactic(auto, unfolding(nesc_tree::specs::Reading::read))]
    fn all_fields(&self, ts: &'a [Token]) -> Found<'a, Fields>
        requires nests { Nests self.now.spare (E.pre self.now.expr) (E.post self.now.expr) (O.pre self.now.opened) (O.post self.now.opened) (F.pre self.now.fields) (F.post self.now.fields) }
        ensures gives { Gives self.now.names.now result (form_in self.now.spare grammar.all_fields self.now.names.now ts.now) }
        ensures fits { IfOk result (λ x. x.0.height ≤ self.now.spare) }
    {
        let mut fields = no_fields(self.alloc);
        let mut rest = ts;
        while begins_type(ahead(self.names, rest)) {
            let (so_far, behind) = self.another_field(fields, rest)?;
            fields = so_far;
            rest = behind;
        }
        Ok((fields, rest))
    }

    /// The fields of a struct definition, with their braces.
    #[tactic(auto, unfolding(nesc_tree::specs::Reading::read))]
    pub fn struct_fields(&self, ts: &'a [Token]) -> Found<'a, Fields>
        requires nests { Nests self.now.spare (E.pre self.now.expr) (E.post self.now.expr) (O.pre self.now.opened) (O.post self.now.opened) (F.pre self.now.fields) (F.post self.now.fields) }
        ensures { Gives self.now.names.now result (form_in self.now.spare grammar.struct_fields self.now.names.now ts.now) }
    {
        let (_, rest) = expect(self.names, Sort::LBrace, ts)?;
        let (fields, rest) = self.all_fields(rest)?;
        let (fields, (_, rest)) = beside(fields, expect(self.names, Sort::RBrace, rest))?;
        Ok((definition(fields), rest))
    }
}
