//! Heads of components and elements of specifications made of their parts.

ghost use Rattle.std.specs.Prelude.{◌≡◌, ◌++◌, IfOk};
ghost use Rattle.nesc_grammar.specs.Components as spec;
ghost use Rattle.nesc_specifications.specs.Parts as parts;

use nesc_operands::operators::is_spelled;
use nesc_tree::{Attr, CastType, Elem, GenericParam, Head, TypeSpec};
use nm_base::{List, Name, NoMemory, Token, beside};
use std::alloc::Global;

/// The list with another behind it.
pub fn joined<T: Drop>(so_far: List<T>, more: List<T>) -> Result<List<T>, NoMemory>
    ensures { IfOk result (λ l. l ≡ so_far ++ more) }
{
    let mut longer = so_far.into_vec();
    let mut others = more.into_vec();
    longer.append(&mut others)?;
    Ok(List::new(longer))
}

/// Whether the word before the elements is `provides`.
#[tactic(auto, unfolding(nesc_grammar::specs::Components::provides))]
pub fn provides(word: &Token) -> bool
    ensures { result ≡ spec.provides word.now }
{
    is_spelled(word, b"provides")
}

/// The type of a bracket's parameter, where there is one.
pub fn type_in(found: Option<CastType>) -> Option<TypeSpec>
    ensures { result ≡ spec.type_in found }
{
    match found {
        None => None,
        Some(found) => Some(found.ty),
    }
}

// The texts of two tokens.
fn two_texts(alloc: Global, first: &Token, second: &Token) -> Result<(Name, Name), NoMemory>
    ensures { IfOk result (λ x. (x.0 ≡ first.now.text) × (x.1 ≡ second.now.text)) }
{
    let first = Name::new(alloc, first.text.as_bytes())?;
    beside(first, Name::new(alloc, second.text.as_bytes()))
}

pub fn element_of(
    alloc: Global,
    provides: bool,
    interface: &Token,
    args: List<TypeSpec>,
    name: &Token,
    param: Option<TypeSpec>,
) -> Result<Elem, NoMemory>
    ensures { IfOk result (λ e. e ≡ parts.element_of provides interface.now args name.now param) }
{
    let (types, texts) = beside((args, param), two_texts(alloc, interface, name))?;
    Ok(Elem {
        provides,
        iface: texts.0,
        args: types.0,
        name: texts.1,
        param: types.1,
        pos: name.pos,
    })
}

/// A parameter that is a type.
pub fn type_param(alloc: Global, name: &Token) -> Result<GenericParam, NoMemory>
    ensures { IfOk result (λ p. p ≡ parts.type_param name.now) }
{
    Ok(GenericParam {
        name: Name::new(alloc, name.text.as_bytes())?,
        ty: None,
    })
}

/// A parameter that is a value of this type.
pub fn value_param(alloc: Global, shared: CastType, name: &Token) -> Result<GenericParam, NoMemory>
    ensures { IfOk result (λ p. p ≡ parts.value_param shared name.now) }
{
    let (shared, name) = beside(shared, Name::new(alloc, name.text.as_bytes()))?;
    Ok(GenericParam {
        name,
        ty: Some(shared.ty),
    })
}

/// `generic` or parameters make a component generic.
pub fn generic_of(
    alloc: Global,
    is_generic: bool,
    params: Option<List<GenericParam>>,
) -> Option<List<GenericParam>>
    ensures { result ≡ spec.generic_of is_generic params }
{
    match params {
        Some(list) => Some(list),
        None => {
            if is_generic {
                Some(List::new(Vec::new(alloc)))
            } else {
                None
            }
        }
    }
}

pub fn head_of(
    alloc: Global,
    name: &Token,
    generic: Option<List<GenericParam>>,
    attrs: List<Attr>,
    elems: List<Elem>,
) -> Result<Head, NoMemory>
    ensures { IfOk result (λ h. h ≡ parts.head_of name.now generic attrs elems) }
{
    let (lists, name) = beside(
        (generic, elems, attrs),
        Name::new(alloc, name.text.as_bytes()),
    )?;
    Ok(Head {
        name,
        generic: lists.0,
        elems: lists.1,
        attrs: lists.2,
    })
}
