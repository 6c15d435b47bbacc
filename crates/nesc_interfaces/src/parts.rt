//! Interfaces made of their parts.

ghost use Rattle.std.specs.Prelude.{◌≡◌, IfOk};
ghost use Rattle.nesc_grammar.specs.Components as spec;
ghost use Rattle.nesc_grammar.specs.Declarations as inner;
ghost use Rattle.nesc_interfaces.specs.Parts as parts;

use nesc_declarators::declared_type;
use nesc_operands::operators::is_spelled;
use nesc_parse_decls::no_list;
use nesc_tree::{Attr, CastType, Interface, Param, Part, Sig};
use nm_base::{List, Name, NoMemory, Token, beside};
use std::alloc::Global;

/// Whether the word is that of an event.
#[tactic(auto, unfolding(nesc_grammar::specs::Declarations::is_event))]
fn is_event(word: &Token) -> bool
    ensures { result ≡ inner.is_event word.now }
{
    is_spelled(word, b"event")
}

/// A command or event, by the words before its type and what stands behind it.
pub fn sig_of(
    alloc: Global,
    is_async: bool,
    word: &Token,
    shared: CastType,
    stars: u8,
    name: &Token,
    params: List<Param>,
) -> Result<Sig, NoMemory>
    ensures { IfOk result (λ s. s ≡ spec.item_of name.now params stars shared word.now is_async) }
{
    let (parts, text) = beside((shared, params), Name::new(alloc, name.text.as_bytes()))?;
    let (shared, params) = parts;
    Ok(Sig {
        name: text,
        is_event: is_event(word),
        is_async,
        result: declared_type(shared, stars, no_list(alloc)),
        params,
        pos: name.pos,
    })
}

pub fn interface_of(
    alloc: Global,
    name: &Token,
    params: List<Name>,
    attrs: List<Attr>,
    items: List<Sig>,
) -> Result<Part, NoMemory>
    ensures { IfOk result (λ p. p ≡ parts.interface_of name.now params attrs items) }
{
    let (lists, name) = beside(
        (params, items, attrs),
        Name::new(alloc, name.text.as_bytes()),
    )?;
    Ok(Part::Interface(Interface {
        name,
        params: lists.0,
        items: lists.1,
        attrs: lists.2,
    }))
}
