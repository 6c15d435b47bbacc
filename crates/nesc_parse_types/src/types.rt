//! Reading types (C99 6.7.2, 6.7.3, 6.7.6).

ghost use Rattle.std.specs.Prelude.{◌≡◌, ◌≤◌, ◌<◌, ◌^◌, IfOk};
ghost use Rattle.nesc_tree.specs.Phrase as phrase;
ghost use Rattle.nesc_grammar.specs.Grammar as grammar;
ghost use Rattle.nesc_parse_types.specs.Gives.{Gives, Nests, form_in};

use crate::reader::{Reader, expect, name};
use crate::stop::{Found, Stop};
use crate::type_parts::{
    integer, is_unsigned, length_of, more_qualifiers, no_qualifiers, plain, pointer, struct_type,
    type_of,
};
use nesc_tree::{
    Base, CastType, Fields, Operand, Qualifiers, Sort, TypeNames, Width, ahead, same_sort,
};
use nm_base::{Name, Token, beside};
use std::alloc::Global;

/// Whether a type begins with a token of this sort.
pub fn begins_type(sort: Sort) -> bool
    ensures { result ≡ phrase.begins_type sort }
{
    matches!(
        sort,
        Sort::Qualifier
            | Sort::Void
            | Sort::Signedness
            | Sort::CharType
            | Sort::Length
            | Sort::Int
            | Sort::TypeName
            | Sort::Struct
            | Sort::Enum
    )
}

/// Whether it is the comma between parts of a list.
pub fn is_comma(sort: Sort) -> bool
    ensures { result ≡ grammar.is_comma sort }
{
    matches!(sort, Sort::Comma)
}

fn is_qualifier(sort: Sort) -> bool
    ensures { result ≡ grammar.is_qualifier sort }
{
    matches!(sort, Sort::Qualifier)
}

/// The stars before the next token; each is a level below the one before it (C99 6.7.5.1).
pub fn stars<'a>(names: &TypeNames, spare: usize, ts: &'a [Token]) -> Found<'a, u8>
    requires { spare < 2 ^ 8 }
    ensures gives { Gives names.now result (form_in spare grammar.stars names.now ts.now) }
    ensures fits { IfOk result (λ x. x.0 ≤ spare) }
{
    if !same_sort(Sort::Star, ahead(names, ts)) {
        return Ok((0, ts));
    }
    if spare == 0 {
        return Err(Stop::Deep(ts));
    }
    let (_, rest) = expect(names, Sort::Star, ts)?;
    let (behind, rest) = stars(names, spare - 1, rest)?;
    Ok((behind + 1, rest))
}

impl<
    'a,
    E: Fn(Global, &TypeNames, usize, u8, &'a [Token]) -> Found<'a, Operand>,
    O: Fn(Global, &TypeNames, usize, &Token, &'a [Token]) -> Found<'a, Operand>,
    F: Fn(Global, &TypeNames, usize, &'a [Token]) -> Found<'a, Fields>,
> Reader<'_, E, O, F> {
    /// Whether the token stands there.
    #[tactic(auto, unfolding(nesc_tree::specs::Reading::read))]
    fn optional(&self, want: Sort, ts: &'a [Token]) -> Found<'a, bool>
        ensures { Gives self.now.names.now result (form_in self.now.spare (grammar.optional want) self.now.names.now ts.now) }
    {
        if !same_sort(want, ahead(self.names, ts)) {
            return Ok((false, ts));
        }
        let (_, rest) = expect(self.names, want, ts)?;
        Ok((true, rest))
    }

    #[tactic(auto, unfolding(nesc_tree::specs::Reading::read))]
    fn qualifier(&self, so_far: Qualifiers, ts: &'a [Token]) -> Found<'a, Qualifiers>
        ensures { Gives self.now.names.now result (form_in self.now.spare (grammar.applied so_far grammar.another_qualifier) self.now.names.now ts.now) }
    {
        let (token, rest) = expect(self.names, Sort::Qualifier, ts)?;
        Ok((more_qualifiers(so_far, token), rest))
    }

    #[tactic(auto, unfolding(nesc_tree::specs::Reading::read))]
    fn qualifiers(&self, ts: &'a [Token]) -> Found<'a, Qualifiers>
        ensures { Gives self.now.names.now result (form_in self.now.spare grammar.qualifiers self.now.names.now ts.now) }
    {
        let mut found = no_qualifiers();
        let mut rest = ts;
        while is_qualifier(ahead(self.names, rest)) {
            let (so_far, behind) = self.qualifier(found, rest)?;
            found = so_far;
            rest = behind;
        }
        Ok((found, rest))
    }

    /// What this token tells of an integer's width, with the `int` that may stand behind.
    #[tactic(auto, unfolding(nesc_tree::specs::Reading::read))]
    fn width_of(&self, sort: Sort, ts: &'a [Token]) -> Found<'a, Width>
        ensures { Gives self.now.names.now result (form_in self.now.spare (grammar.width_of sort) self.now.names.now ts.now) }
    {
        match sort {
            Sort::CharType => {
                let (_, rest) = expect(self.names, Sort::CharType, ts)?;
                Ok((Width::Char, rest))
            }
            Sort::Length => {
                let (token, rest) = expect(self.names, Sort::Length, ts)?;
                let (_, rest) = self.optional(Sort::Int, rest)?;
                Ok((length_of(token), rest))
            }
            Sort::Int => {
                let (_, rest) = expect(self.names, Sort::Int, ts)?;
                Ok((Width::Short, rest))
            }
            _ => Err(Stop::Syntax(ts)),
        }
    }

    /// The width behind `signed` or `unsigned`; none is that of `int`.
    #[tactic(auto, unfolding(nesc_tree::specs::Reading::read))]
    fn width(&self, ts: &'a [Token]) -> Found<'a, Width>
        ensures { Gives self.now.names.now result (form_in self.now.spare grammar.width self.now.names.now ts.now) }
    {
        match ahead(self.names, ts) {
            Sort::CharType => self.width_of(Sort::CharType, ts),
            Sort::Length => self.width_of(Sort::Length, ts),
            Sort::Int => self.width_of(Sort::Int, ts),
            _ => Ok((Width::Short, ts)),
        }
    }

    #[tactic(auto, unfolding(nesc_tree::specs::Reading::read))]
    fn signed_base(&self, ts: &'a [Token]) -> Found<'a, CastType>
        ensures { Gives self.now.names.now result (form_in self.now.spare grammar.signed_base self.now.names.now ts.now) }
    {
        let (token, rest) = expect(self.names, Sort::Signedness, ts)?;
        let (width, rest) = self.width(rest)?;
        let base = Base::Int(integer(is_unsigned(token), width));
        Ok((plain(self.alloc, base, 0, token.pos), rest))
    }

    #[tactic(auto, unfolding(nesc_tree::specs::Reading::read))]
    fn char_base(&self, ts: &'a [Token]) -> Found<'a, CastType>
        ensures { Gives self.now.names.now result (form_in self.now.spare grammar.char_base self.now.names.now ts.now) }
    {
        let (token, rest) = expect(self.names, Sort::CharType, ts)?;
        let base = Base::Int(integer(false, Width::Char));
        Ok((plain(self.alloc, base, 0, token.pos), rest))
    }

    #[tactic(auto, unfolding(nesc_tree::specs::Reading::read))]
    fn length_base(&self, ts: &'a [Token]) -> Found<'a, CastType>
        ensures { Gives self.now.names.now result (form_in self.now.spare grammar.length_base self.now.names.now ts.now) }
    {
        let (token, rest) = expect(self.names, Sort::Length, ts)?;
        let (_, rest) = self.optional(Sort::Int, rest)?;
        let base = Base::Int(integer(false, length_of(token)));
        Ok((plain(self.alloc, base, 0, token.pos), rest))
    }

    #[tactic(auto, unfolding(nesc_tree::specs::Reading::read))]
    fn int_base(&self, ts: &'a [Token]) -> Found<'a, CastType>
        ensures { Gives self.now.names.now result (form_in self.now.spare grammar.int_base self.now.names.now ts.now) }
    {
        let (token, rest) = expect(self.names, Sort::Int, ts)?;
        let base = Base::Int(integer(false, Width::Short));
        Ok((plain(self.alloc, base, 0, token.pos), rest))
    }

    #[tactic(auto, unfolding(nesc_tree::specs::Reading::read))]
    fn void_base(&self, ts: &'a [Token]) -> Found<'a, CastType>
        ensures { Gives self.now.names.now result (form_in self.now.spare grammar.void_base self.now.names.now ts.now) }
    {
        let (token, rest) = expect(self.names, Sort::Void, ts)?;
        Ok((plain(self.alloc, Base::Void, 0, token.pos), rest))
    }

    #[tactic(auto, unfolding(nesc_tree::specs::Reading::read))]
    fn named_base(&self, ts: &'a [Token]) -> Found<'a, CastType>
        ensures { Gives self.now.names.now result (form_in self.now.spare grammar.named_base self.now.names.now ts.now) }
    {
        let (token, rest) = expect(self.names, Sort::TypeName, ts)?;
        let name = Name::new(self.alloc, token.text.as_bytes())?;
        Ok((plain(self.alloc, Base::Named(name), 0, token.pos), rest))
    }

    /// The fields behind a tag, where it has a definition.
    #[tactic(auto, unfolding(nesc_tree::specs::Reading::read))]
    fn some_fields(&self, ts: &'a [Token]) -> Found<'a, Option<Fields>>
        requires nests { Nests self.now.spare (E.pre self.now.expr) (E.post self.now.expr) (O.pre self.now.opened) (O.post self.now.opened) (F.pre self.now.fields) (F.post self.now.fields) }
        ensures { Gives self.now.names.now result (form_in self.now.spare grammar.some_fields self.now.names.now ts.now) }
    {
        if !same_sort(Sort::LBrace, ahead(self.names, ts)) {
            return Ok((None, ts));
        }
        let (fields, rest) = self.nested_fields(ts)?;
        Ok((Some(fields), rest))
    }

    #[tactic(auto, unfolding(nesc_tree::specs::Reading::read))]
    fn tagged_struct(&self, keyword: &Token, ts: &'a [Token]) -> Found<'a, CastType>
        requires nests { Nests self.now.spare (E.pre self.now.expr) (E.post self.now.expr) (O.pre self.now.opened) (O.post self.now.opened) (F.pre self.now.fields) (F.post self.now.fields) }
        ensures { Gives self.now.names.now result (form_in self.now.spare (grammar.applied keyword.now grammar.tagged_struct) self.now.names.now ts.now) }
    {
        let (token, rest) = name(self.names, ts)?;
        let (fields, rest) = self.some_fields(rest)?;
        let (fields, tag) = beside(fields, Name::new(self.alloc, token.text.as_bytes()))?;
        Ok((struct_type(self.alloc, Some(tag), fields, keyword), rest))
    }

    #[tactic(auto, unfolding(nesc_tree::specs::Reading::read))]
    fn untagged_struct(&self, keyword: &Token, ts: &'a [Token]) -> Found<'a, CastType>
        requires nests { Nests self.now.spare (E.pre self.now.expr) (E.post self.now.expr) (O.pre self.now.opened) (O.post self.now.opened) (F.pre self.now.fields) (F.post self.now.fields) }
        ensures { Gives self.now.names.now result (form_in self.now.spare (grammar.applied keyword.now grammar.untagged_struct) self.now.names.now ts.now) }
    {
        let (fields, rest) = self.nested_fields(ts)?;
        let fields = Some(fields);
        Ok((struct_type(self.alloc, None, fields, keyword), rest))
    }

    #[tactic(auto, unfolding(nesc_tree::specs::Reading::read))]
    fn struct_base(&self, ts: &'a [Token]) -> Found<'a, CastType>
        requires nests { Nests self.now.spare (E.pre self.now.expr) (E.post self.now.expr) (O.pre self.now.opened) (O.post self.now.opened) (F.pre self.now.fields) (F.post self.now.fields) }
        ensures { Gives self.now.names.now result (form_in self.now.spare grammar.struct_base self.now.names.now ts.now) }
    {
        let (keyword, rest) = expect(self.names, Sort::Struct, ts)?;
        match ahead(self.names, rest) {
            Sort::LBrace => self.untagged_struct(keyword, rest),
            _ => self.tagged_struct(keyword, rest),
        }
    }

    /// A type without qualifiers.
    #[tactic(auto, unfolding(nesc_tree::specs::Reading::read))]
    fn base(&self, ts: &'a [Token]) -> Found<'a, CastType>
        requires nests { Nests self.now.spare (E.pre self.now.expr) (E.post self.now.expr) (O.pre self.now.opened) (O.post self.now.opened) (F.pre self.now.fields) (F.post self.now.fields) }
        ensures { Gives self.now.names.now result (form_in self.now.spare grammar.base self.now.names.now ts.now) }
    {
        match ahead(self.names, ts) {
            Sort::Void => self.void_base(ts),
            Sort::Signedness => self.signed_base(ts),
            Sort::CharType => self.char_base(ts),
            Sort::Length => self.length_base(ts),
            Sort::Int => self.int_base(ts),
            Sort::TypeName => self.named_base(ts),
            Sort::Struct => self.struct_base(ts),
            Sort::Enum => self.enum_base(ts),
            _ => Err(Stop::Syntax(ts)),
        }
    }

    /// A type without stars.
    #[tactic(auto, unfolding(nesc_tree::specs::Reading::read))]
    pub fn type_form(&self, ts: &'a [Token]) -> Found<'a, CastType>
        requires nests { Nests self.now.spare (E.pre self.now.expr) (E.post self.now.expr) (O.pre self.now.opened) (O.post self.now.opened) (F.pre self.now.fields) (F.post self.now.fields) }
        ensures gives { Gives self.now.names.now result (form_in self.now.spare grammar.type_form self.now.names.now ts.now) }
        ensures fits { IfOk result (λ x. x.0.height ≤ self.now.spare) }
    {
        let (before, rest) = self.qualifiers(ts)?;
        let (inner, rest) = self.base(rest)?;
        let (behind, rest) = self.qualifiers(rest)?;
        Ok((type_of(before, inner, behind), rest))
    }

    /// A type and its stars.
    #[tactic(auto, unfolding(nesc_tree::specs::Reading::read))]
    pub fn cast_type(&self, ts: &'a [Token]) -> Found<'a, CastType>
        requires nests { Nests self.now.spare (E.pre self.now.expr) (E.post self.now.expr) (O.pre self.now.opened) (O.post self.now.opened) (F.pre self.now.fields) (F.post self.now.fields) }
        ensures gives { Gives self.now.names.now result (form_in self.now.spare grammar.cast_type self.now.names.now ts.now) }
        ensures fits { IfOk result (λ x. x.0.height ≤ self.now.spare) }
    {
        let (inner, rest) = self.type_form(ts)?;
        let (stars, rest) = stars(self.names, self.spare, rest)?;
        Ok((pointer(inner, stars), rest))
    }
}
