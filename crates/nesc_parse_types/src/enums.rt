//! Reading enums (C99 6.7.2.2).

ghost use Rattle.std.specs.Prelude.{◌≡◌, ◌<◌, ◌^◌};
ghost use Rattle.nesc_tree.specs.Form.{goes};
ghost use Rattle.nesc_tree.specs.declared.sorts.Sort.TheVariants as s;
ghost use Rattle.nesc_grammar.specs.Grammar as grammar;
ghost use Rattle.nesc_parse_types.specs.Gives.{Gives, Nests, form_in};

use crate::reader::{Reader, expect, name};
use crate::stop::{Found, Stop};
use crate::type_parts::{enum_type, first_item, item_of, more_items};
use crate::types::is_comma;
use nesc_tree::{CastType, Fields, Item, Items, Operand, Sort, TypeNames, ahead, level, same_sort};
use nm_base::{Name, Token, beside};
use std::alloc::Global;

// Whether a comma may go on the constants.
fn goes_on(so_far: &Items, sort: Sort) -> bool
    ensures { result ≡ goes grammar.is_comma grammar.not_ended so_far.now sort }
{
    is_comma(sort) && !so_far.ended
}

impl<
    'a,
    E: Fn(Global, &TypeNames, usize, u8, &'a [Token]) -> Found<'a, Operand>,
    O: Fn(Global, &TypeNames, usize, &Token, &'a [Token]) -> Found<'a, Operand>,
    F: Fn(Global, &TypeNames, usize, &'a [Token]) -> Found<'a, Fields>,
> Reader<'_, E, O, F> {
    /// The value of a constant, where it has one.
    #[tactic(auto, unfolding(nesc_tree::specs::Reading::read))]
    fn item_value(&self, ts: &'a [Token]) -> Found<'a, Option<Operand>>
        requires nests { Nests self.now.spare (E.pre self.now.expr) (E.post self.now.expr) (O.pre self.now.opened) (O.post self.now.opened) (F.pre self.now.fields) (F.post self.now.fields) }
        ensures { Gives self.now.names.now result (form_in self.now.spare grammar.item_value self.now.names.now ts.now) }
    {
        if !same_sort(Sort::Assign, ahead(self.names, ts)) {
            return Ok((None, ts));
        }
        if self.spare == 0 {
            return Err(Stop::Deep(ts));
        }
        let (_, rest) = expect(self.names, Sort::Assign, ts)?;
        let (value, rest) = self.nested_expr(level::CONDITIONAL, rest)?;
        Ok((Some(value), rest))
    }

    /// A constant.
    #[tactic(auto, unfolding(nesc_tree::specs::Reading::read))]
    fn item(&self, ts: &'a [Token]) -> Found<'a, Item>
        requires nests { Nests self.now.spare (E.pre self.now.expr) (E.post self.now.expr) (O.pre self.now.opened) (O.post self.now.opened) (F.pre self.now.fields) (F.post self.now.fields) }
        ensures { Gives self.now.names.now result (form_in self.now.spare grammar.item self.now.names.now ts.now) }
    {
        let (token, rest) = name(self.names, ts)?;
        let (value, rest) = self.item_value(rest)?;
        Ok((item_of(self.alloc, token, value)?, rest))
    }

    /// A constant, where one is behind the comma.
    #[tactic(auto, unfolding(nesc_tree::specs::Reading::read))]
    fn some_item(&self, ts: &'a [Token]) -> Found<'a, Option<Item>>
        requires nests { Nests self.now.spare (E.pre self.now.expr) (E.post self.now.expr) (O.pre self.now.opened) (O.post self.now.opened) (F.pre self.now.fields) (F.post self.now.fields) }
        ensures { Gives self.now.names.now result (form_in self.now.spare grammar.some_item self.now.names.now ts.now) }
    {
        match ahead(self.names, ts) {
            Sort::Word | Sort::TypeName => {
                let (item, rest) = self.item(ts)?;
                Ok((Some(item), rest))
            }
            _ => Ok((None, ts)),
        }
    }

    /// The constant behind a comma, where one is there.
    #[tactic(auto, unfolding(nesc_tree::specs::Reading::read))]
    fn next_item(&self, ts: &'a [Token]) -> Found<'a, Option<Item>>
        requires nests { Nests self.now.spare (E.pre self.now.expr) (E.post self.now.expr) (O.pre self.now.opened) (O.post self.now.opened) (F.pre self.now.fields) (F.post self.now.fields) }
        ensures { Gives self.now.names.now result (form_in self.now.spare (grammar.behind (grammar.one s.Comma) grammar.some_item) self.now.names.now ts.now) }
    {
        let (_, rest) = expect(self.names, Sort::Comma, ts)?;
        self.some_item(rest)
    }

    #[tactic(auto, unfolding(nesc_tree::specs::Reading::read))]
    fn another_item(&self, so_far: Items, ts: &'a [Token]) -> Found<'a, Items>
        requires nests { Nests self.now.spare (E.pre self.now.expr) (E.post self.now.expr) (O.pre self.now.opened) (O.post self.now.opened) (F.pre self.now.fields) (F.post self.now.fields) }
        ensures { Gives self.now.names.now result (form_in self.now.spare (grammar.applied so_far grammar.another_item) self.now.names.now ts.now) }
    {
        let (so_far, (next, rest)) = beside(so_far, self.next_item(ts))?;
        Ok((more_items(so_far, next)?, rest))
    }

    /// Constants with commas between them, and maybe one behind them.
    #[tactic(auto, unfolding(nesc_tree::specs::Reading::read))]
    fn items(&self, ts: &'a [Token]) -> Found<'a, Items>
        requires nests { Nests self.now.spare (E.pre self.now.expr) (E.post self.now.expr) (O.pre self.now.opened) (O.post self.now.opened) (F.pre self.now.fields) (F.post self.now.fields) }
        ensures { Gives self.now.names.now result (form_in self.now.spare grammar.items self.now.names.now ts.now) }
    {
        let (first, rest) = self.item(ts)?;
        let mut items = first_item(self.alloc, first)?;
        let mut rest = rest;
        while goes_on(&items, ahead(self.names, rest)) {
            let (so_far, behind) = self.another_item(items, rest)?;
            items = so_far;
            rest = behind;
        }
        Ok((items, rest))
    }

    #[tactic(auto, unfolding(nesc_tree::specs::Reading::read))]
    fn braced_items(&self, ts: &'a [Token]) -> Found<'a, Items>
        requires nests { Nests self.now.spare (E.pre self.now.expr) (E.post self.now.expr) (O.pre self.now.opened) (O.post self.now.opened) (F.pre self.now.fields) (F.post self.now.fields) }
        ensures { Gives self.now.names.now result (form_in self.now.spare grammar.braced_items self.now.names.now ts.now) }
    {
        let (_, rest) = expect(self.names, Sort::LBrace, ts)?;
        let (items, rest) = self.items(rest)?;
        let (items, (_, rest)) = beside(items, expect(self.names, Sort::RBrace, rest))?;
        Ok((items, rest))
    }

    /// The constants behind a tag, where it has a definition.
    #[tactic(auto, unfolding(nesc_tree::specs::Reading::read))]
    fn some_items(&self, ts: &'a [Token]) -> Found<'a, Option<Items>>
        requires nests { Nests self.now.spare (E.pre self.now.expr) (E.post self.now.expr) (O.pre self.now.opened) (O.post self.now.opened) (F.pre self.now.fields) (F.post self.now.fields) }
        ensures { Gives self.now.names.now result (form_in self.now.spare grammar.some_items self.now.names.now ts.now) }
    {
        if !same_sort(Sort::LBrace, ahead(self.names, ts)) {
            return Ok((None, ts));
        }
        let (items, rest) = self.braced_items(ts)?;
        Ok((Some(items), rest))
    }

    #[tactic(auto, unfolding(nesc_tree::specs::Reading::read))]
    fn tagged_enum(&self, keyword: &Token, ts: &'a [Token]) -> Found<'a, CastType>
        requires nests { Nests self.now.spare (E.pre self.now.expr) (E.post self.now.expr) (O.pre self.now.opened) (O.post self.now.opened) (F.pre self.now.fields) (F.post self.now.fields) }
        ensures { Gives self.now.names.now result (form_in self.now.spare (grammar.applied keyword.now grammar.tagged_enum) self.now.names.now ts.now) }
    {
        let (token, rest) = name(self.names, ts)?;
        let (items, rest) = self.some_items(rest)?;
        let (items, tag) = beside(items, Name::new(self.alloc, token.text.as_bytes()))?;
        Ok((enum_type(self.alloc, Some(tag), items, keyword), rest))
    }

    #[tactic(auto, unfolding(nesc_tree::specs::Reading::read))]
    fn untagged_enum(&self, keyword: &Token, ts: &'a [Token]) -> Found<'a, CastType>
        requires nests { Nests self.now.spare (E.pre self.now.expr) (E.post self.now.expr) (O.pre self.now.opened) (O.post self.now.opened) (F.pre self.now.fields) (F.post self.now.fields) }
        ensures { Gives self.now.names.now result (form_in self.now.spare (grammar.applied keyword.now grammar.untagged_enum) self.now.names.now ts.now) }
    {
        let (items, rest) = self.braced_items(ts)?;
        let items = Some(items);
        Ok((enum_type(self.alloc, None, items, keyword), rest))
    }

    /// An enum.
    #[tactic(auto, unfolding(nesc_tree::specs::Reading::read))]
    pub fn enum_base(&self, ts: &'a [Token]) -> Found<'a, CastType>
        requires nests { Nests self.now.spare (E.pre self.now.expr) (E.post self.now.expr) (O.pre self.now.opened) (O.post self.now.opened) (F.pre self.now.fields) (F.post self.now.fields) }
        ensures { Gives self.now.names.now result (form_in self.now.spare grammar.enum_base self.now.names.now ts.now) }
    {
        let (keyword, rest) = expect(self.names, Sort::Enum, ts)?;
        match ahead(self.names, rest) {
            Sort::LBrace => self.untagged_enum(keyword, rest),
            _ => self.tagged_enum(keyword, rest),
        }
    }
}
