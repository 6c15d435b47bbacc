//! Types, declarators, fields and constants made of their parts.

ghost use Rattle.std.specs.Prelude.{◌≡◌, ◌<◌, ◌^◌, IfOk};
ghost use Rattle.nesc_grammar.specs.Grammar as spec;

use nesc_tree::{
    Base, CastType, Declarator, Declarators, Declared, Dims, EnumItem, Expr, FieldGroup, Fields,
    Grouped, Item, Items, Operand, Qualifiers, TypeSpec, Width,
};
use nm_base::{IntType, List, Name, NoMemory, Pos, Token, beside};
use std::alloc::Global;

/// The integer type of this width (C99 6.7.2).
pub fn integer(is_unsigned: bool, width: Width) -> IntType
    ensures { result ≡ spec.integer is_unsigned width }
{
    match (is_unsigned, width) {
        (true, Width::Char) => IntType::U8,
        (true, Width::Short) => IntType::U16,
        (true, Width::Long) => IntType::U32,
        (false, Width::Char) => IntType::I8,
        (false, Width::Short) => IntType::I16,
        (false, Width::Long) => IntType::I32,
    }
}

/// Of `signed` and `unsigned`, whether it is the second.
#[tactic(auto, unfolding(nesc_grammar::specs::Grammar::is_unsigned))]
pub fn is_unsigned(token: &Token) -> bool
    ensures { result ≡ spec.is_unsigned token.now }
{
    token.text.as_bytes() == b"unsigned".as_slice()
}

/// Of `const` and `volatile`, whether it is the first.
#[tactic(auto, unfolding(nesc_grammar::specs::Grammar::is_const))]
pub fn is_const(token: &Token) -> bool
    ensures { result ≡ spec.is_const token.now }
{
    token.text.as_bytes() == b"const".as_slice()
}

/// The width that `short` or `long` tells.
#[tactic(auto, unfolding(nesc_grammar::specs::Grammar::length_of))]
pub fn length_of(token: &Token) -> Width
    ensures { result ≡ spec.length_of token.now }
{
    if token.text.as_bytes() == b"long".as_slice() {
        Width::Long
    } else {
        Width::Short
    }
}

/// A type without stars, dimensions and qualifiers; the height is that of the definition in it.
pub fn plain(alloc: Global, base: Base, height: usize, from: Pos) -> CastType
    ensures { result ≡ spec.plain base height from }
{
    CastType {
        ty: TypeSpec {
            base,
            stars: 0,
            dims: List::new(Vec::new(alloc)),
            is_const: false,
        },
        from,
        height,
    }
}

/// A struct by its keyword, tag and definition.
pub fn struct_type(
    alloc: Global,
    tag: Option<Name>,
    fields: Option<Fields>,
    keyword: &Token,
) -> CastType
    ensures { result ≡ spec.struct_type tag fields keyword.now }
{
    match fields {
        None => plain(alloc, Base::Struct(tag, None), 0, keyword.pos),
        Some(fields) => {
            let Fields { groups, height } = fields;
            plain(alloc, Base::Struct(tag, Some(groups)), height, keyword.pos)
        }
    }
}

/// An enum by its keyword, tag and definition.
pub fn enum_type(
    alloc: Global,
    tag: Option<Name>,
    items: Option<Items>,
    keyword: &Token,
) -> CastType
    ensures { result ≡ spec.enum_type tag items keyword.now }
{
    match items {
        None => plain(alloc, Base::Enum(tag, None), 0, keyword.pos),
        Some(items) => {
            let Items { items, height, .. } = items;
            plain(alloc, Base::Enum(tag, Some(items)), height, keyword.pos)
        }
    }
}

// The expression of a value and its height, where there is one.
fn parts_of(value: Option<Operand>) -> (Option<Expr>, usize)
    ensures { result ≡ (spec.value_of value, spec.height_of value) }
{
    match value {
        None => (None, 0),
        Some(operand) => {
            let Operand { expr, height, .. } = operand;
            (Some(expr), height)
        }
    }
}

/// A constant of an enum, with its value where it has one.
pub fn item_of(alloc: Global, token: &Token, value: Option<Operand>) -> Result<Item, NoMemory>
    ensures { IfOk result (λ m. m ≡ spec.item_of token.now value) }
{
    let (value, height) = parts_of(value);
    let (value, name) = beside(value, Name::new(alloc, token.text.as_bytes()))?;
    Ok(Item {
        item: EnumItem {
            name,
            value,
            pos: token.pos,
        },
        height,
    })
}

pub fn first_item(alloc: Global, first: Item) -> Result<Items, NoMemory>
    ensures { IfOk result (λ l. l ≡ spec.first_item first) }
{
    let Item { item, height } = first;
    let mut items = Vec::new(alloc);
    items.push(item)?;
    Ok(Items {
        items: List::new(items),
        height,
        ended: false,
    })
}

/// The constants, with what is behind a comma; nothing there ends them.
pub fn more_items(so_far: Items, next: Option<Item>) -> Result<Items, NoMemory>
    ensures { IfOk result (λ l. l ≡ spec.more_items next so_far) }
{
    let Items { items, height, .. } = so_far;
    match next {
        None => Ok(Items {
            items,
            height,
            ended: true,
        }),
        Some(next) => {
            let mut longer = items.into_vec();
            longer.push(next.item)?;
            Ok(Items {
                items: List::new(longer),
                height: height.max(next.height),
                ended: false,
            })
        }
    }
}

pub fn no_qualifiers() -> Qualifiers
    ensures { result ≡ spec.no_qualifiers }
{
    Qualifiers {
        has_const: false,
        from: None,
    }
}

pub fn more_qualifiers(so_far: Qualifiers, token: &Token) -> Qualifiers
    ensures { result ≡ spec.more_qualifiers token.now so_far }
{
    Qualifiers {
        has_const: so_far.has_const || is_const(token),
        from: Some(first_of(so_far.from, token.pos)),
    }
}

// The place, or else the other.
fn first_of(place: Option<Pos>, other: Pos) -> Pos
    ensures { result ≡ spec.first_of place other }
{
    match place {
        None => other,
        Some(place) => place,
    }
}

/// The type with the qualifiers before and behind it, of which only `const` tells something.
pub fn type_of(first: Qualifiers, inner: CastType, second: Qualifiers) -> CastType
    ensures { result ≡ spec.type_of first inner second }
{
    let CastType { ty, from, height } = inner;
    CastType {
        ty: TypeSpec {
            base: ty.base,
            stars: ty.stars,
            dims: ty.dims,
            is_const: first.has_const || second.has_const,
        },
        from: first_of(first.from, from),
        height,
    }
}

/// The type with stars behind it.
pub fn pointer(inner: CastType, stars: u8) -> CastType
    ensures { result ≡ spec.pointer inner stars }
{
    let CastType { ty, from, height } = inner;
    CastType {
        ty: TypeSpec {
            base: ty.base,
            stars,
            dims: ty.dims,
            is_const: ty.is_const,
        },
        from,
        height: height.max(usize::from(stars)),
    }
}

pub fn no_dims(alloc: Global) -> Dims
    ensures { result ≡ spec.no_dims }
{
    Dims {
        exprs: List::new(Vec::new(alloc)),
        height: 0,
    }
}

pub fn more_dims(so_far: Dims, size: Operand) -> Result<Dims, NoMemory>
    ensures { IfOk result (λ l. l ≡ spec.more_dims size so_far) }
{
    let Dims { exprs, height } = so_far;
    let mut longer = exprs.into_vec();
    longer.push(size.expr)?;
    Ok(Dims {
        exprs: List::new(longer),
        height: height.max(size.height),
    })
}

pub fn declared(alloc: Global, token: &Token, dims: Dims, stars: u8) -> Result<Declared, NoMemory>
    ensures { IfOk result (λ d. d ≡ spec.declared token.now dims stars) }
{
    let Dims { exprs, height } = dims;
    let (dims, name) = beside(exprs, Name::new(alloc, token.text.as_bytes()))?;
    Ok(Declared {
        declarator: Declarator { stars, name, dims },
        height: usize::from(stars).max(height),
    })
}

pub fn first_declarator(alloc: Global, first: Declared) -> Result<Declarators, NoMemory>
    ensures { IfOk result (λ l. l ≡ spec.first_declarator first) }
{
    let mut list = Vec::new(alloc);
    list.push(first.declarator)?;
    Ok(Declarators {
        list: List::new(list),
        height: first.height,
    })
}

pub fn more_declarators(so_far: Declarators, next: Declared) -> Result<Declarators, NoMemory>
    ensures { IfOk result (λ l. l ≡ spec.more_declarators next so_far) }
{
    let Declarators { list, height } = so_far;
    let mut longer = list.into_vec();
    longer.push(next.declarator)?;
    Ok(Declarators {
        list: List::new(longer),
        height: height.max(next.height),
    })
}

/// Fields that share the type.
pub fn field_group(shared: CastType, declarators: Declarators) -> Grouped
    ensures { result ≡ spec.field_group shared declarators }
{
    Grouped {
        group: FieldGroup {
            ty: shared.ty,
            fields: declarators.list,
        },
        height: shared.height.max(declarators.height),
    }
}

pub fn no_fields(alloc: Global) -> Fields
    ensures { result ≡ spec.no_fields }
{
    Fields {
        groups: List::new(Vec::new(alloc)),
        height: 0,
    }
}

pub fn more_fields(so_far: Fields, next: Grouped) -> Result<Fields, NoMemory>
    ensures { IfOk result (λ l. l ≡ spec.more_fields next so_far) }
{
    let Fields { groups, height } = so_far;
    let mut longer = groups.into_vec();
    longer.push(next.group)?;
    Ok(Fields {
        groups: List::new(longer),
        height: height.max(next.height),
    })
}

/// The fields as a definition, which is a level.
pub fn definition(fields: Fields) -> Fields
    requires { fields.height < 2 ^ 63 }
    ensures { result ≡ spec.definition fields }
{
    Fields {
        groups: fields.groups,
        height: fields.height + 1,
    }
}
