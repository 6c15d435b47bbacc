//! Heads of components as words, each interface that is provided or used on a line.

ghost use Rattle.std.specs.Prelude.{◌≡◌, ◌++◌, ◌∷◌, [], bytes_eq, codes, map, OnOk};
ghost use Rattle.nesc_tree.specs.View.{spec_of};
ghost use Rattle.nesc_print_words.specs.Components as spec;
ghost use Rattle.nesc_print_words.specs.Expressions.{type_words};
ghost use Rattle.nesc_print_words.specs.Lexemes.{behind_commas, flagged, in_braces, joined, listed, word};

use crate::interfaces::{gap_of_end, put_interface_name};
use nesc_print_exprs::{Words, put_type};
use nesc_print_stmts::put_attrs;
use nesc_tree::{Elem, GenericParam, Head, TypeSpec};
use nm_base::{List, Name, NoMemory};
use printed_words::Gap;

// ---- parameters of generic components

fn put_generic_param(
    words: &mut Words,
    gap: Gap,
    param: &GenericParam,
    levels: u32,
) -> Result<(), NoMemory>
    ensures { OnOk result (words.new ≡ words.old ++ spec.generic_param_words param.now) }
{
    match &param.ty {
        None => words.word(gap, b"typedef")?,
        Some(ty) => put_type(words, gap, ty, levels)?,
    }
    words.word(Gap::Spaced, param.name.as_bytes())
}

#[tactic(auto, using(crate::proofs::Lists::lists))]
fn put_more_generic_params(
    words: &mut Words,
    params: &[GenericParam],
    levels: u32,
) -> Result<(), NoMemory>
    ensures { OnOk result (words.new ≡ words.old ++ behind_commas (map spec.generic_param_words params.now)) }
{
    for param in params {
        words.sign(Gap::Joined, b",")?;
        put_generic_param(words, Gap::Spaced, param, levels)?;
    }
    Ok(())
}

fn put_generic_params(
    words: &mut Words,
    params: &[GenericParam],
    levels: u32,
) -> Result<(), NoMemory>
    ensures { OnOk result (words.new ≡ words.old ++ listed (map spec.generic_param_words params.now)) }
{
    match params {
        [] => Ok(()),
        [first, rest @ ..] => {
            put_generic_param(words, Gap::Joined, first, levels)?;
            put_more_generic_params(words, rest, levels)
        }
    }
}

fn put_generic(
    words: &mut Words,
    generic: &Option<List<GenericParam>>,
    levels: u32,
) -> Result<(), NoMemory>
    ensures { OnOk result (words.new ≡ words.old ++ spec.generic_words generic.now) }
{
    match generic {
        None => Ok(()),
        Some(params) => {
            words.sign(Gap::Joined, b"(")?;
            put_generic_params(words, params.as_slice(), levels)?;
            words.sign(Gap::Joined, b")")
        }
    }
}

// ---- interfaces that are provided or used

#[tactic(auto, using(crate::proofs::Lists::lists))]
fn put_more_type_arguments(
    words: &mut Words,
    args: &[TypeSpec],
    levels: u32,
) -> Result<(), NoMemory>
    ensures { OnOk result (words.new ≡ words.old ++ behind_commas (map spec.type_argument_words args.now)) }
{
    for ty in args {
        words.sign(Gap::Joined, b",")?;
        put_type(words, Gap::Spaced, ty, levels)?;
    }
    Ok(())
}

// The arguments of an interface in their brackets, if there are some.
fn put_type_arguments(words: &mut Words, args: &List<TypeSpec>, levels: u32) -> Result<(), NoMemory>
    ensures { OnOk result (words.new ≡ words.old ++ spec.type_arguments_words args.now) }
{
    match args.as_slice() {
        [] => Ok(()),
        [first, rest @ ..] => {
            words.sign(Gap::Joined, b"<")?;
            put_type(words, Gap::Joined, first, levels)?;
            put_more_type_arguments(words, rest, levels)?;
            words.sign(Gap::Joined, b">")
        }
    }
}

fn same(a: &[u8], b: &[u8]) -> bool
    ensures { result ≡ bytes_eq a.now b.now }
{
    a == b
}

/// Adds a name of its own, where that is another one.
pub fn put_alias(words: &mut Words, name: &Name, alias: &Name) -> Result<(), NoMemory>
    ensures { OnOk result (words.new ≡ words.old ++ spec.alias_words name.now alias.now) }
{
    if same(alias.as_bytes(), name.as_bytes()) {
        return Ok(());
    }
    words.word(Gap::Spaced, b"as")?;
    words.word(Gap::Spaced, alias.as_bytes())
}

// The type in the bracket of an element, with a name for its parameter.
fn put_element_bracket(
    words: &mut Words,
    param: &Option<TypeSpec>,
    levels: u32,
) -> Result<(), NoMemory>
    ensures { OnOk result (words.new ≡ words.old ++ spec.element_bracket_words param.now) }
{
    match param {
        None => Ok(()),
        Some(ty) => {
            words.sign(Gap::Joined, b"[")?;
            put_type(words, Gap::Joined, ty, levels)?;
            words.word(Gap::Spaced, b"id")?;
            words.sign(Gap::Joined, b"]")
        }
    }
}

// What stands behind the name of the element's interface.
fn put_elem_end(words: &mut Words, elem: &Elem, levels: u32) -> Result<(), NoMemory>
    ensures { OnOk result (words.new ≡ words.old ++ spec.elem_end_words elem.now) }
{
    put_type_arguments(words, &elem.args, levels)?;
    put_alias(words, &elem.iface, &elem.name)?;
    put_element_bracket(words, &elem.param, levels)?;
    words.sign(Gap::Joined, b";")
}

fn specify_word(provides: bool) -> &'static [u8]
    ensures { result.now ≡ spec.specify_word provides }
{
    if provides { b"provides" } else { b"uses" }
}

// Up to the name of the element's interface.
fn put_elem_start(words: &mut Words, elem: &Elem) -> Result<(), NoMemory>
    ensures { OnOk result (words.new ≡ words.old ++ word (spec.specify_word elem.now.provides) ∷ word (codes "interface") ∷ word elem.now.iface ∷ []) }
{
    words.word(Gap::Line, specify_word(elem.provides))?;
    put_interface_name(words, Gap::Spaced, &elem.iface)
}

fn put_elem(words: &mut Words, elem: &Elem, levels: u32) -> Result<(), NoMemory>
    ensures { OnOk result (words.new ≡ words.old ++ spec.elem_words elem.now) }
{
    put_elem_start(words, elem)?;
    put_elem_end(words, elem, levels)
}

#[tactic(auto, using(crate::proofs::Lists::lists))]
fn put_elems(words: &mut Words, elems: &[Elem], levels: u32) -> Result<(), NoMemory>
    ensures { OnOk result (words.new ≡ words.old ++ joined (map spec.elem_words elems.now)) }
{
    for elem in elems {
        put_elem(words, elem, levels)?;
    }
    Ok(())
}

fn put_specification(words: &mut Words, elems: &List<Elem>, levels: u32) -> Result<(), NoMemory>
    ensures { OnOk result (words.new ≡ words.old ++ in_braces (joined (map spec.elem_words elems.now))) }
{
    words.sign(Gap::Spaced, b"{")?;
    put_elems(words, elems.as_slice(), levels)?;
    words.sign(gap_of_end(elems.as_slice().is_empty()), b"}")
}

// ---- heads

// From the parameters of a generic component on.
fn put_head_end(words: &mut Words, head: &Head, levels: u32) -> Result<(), NoMemory>
    ensures { OnOk result (words.new ≡ words.old ++ spec.head_end_words head.now) }
{
    put_generic(words, &head.generic, levels)?;
    put_attrs(words, &head.attrs, levels)?;
    put_specification(words, &head.elems, levels)
}

/// Adds the head of a component behind its keyword.
pub fn put_component_head(
    words: &mut Words,
    keyword: &[u8],
    head: &Head,
    levels: u32,
) -> Result<(), NoMemory>
    ensures { OnOk result (words.new ≡ words.old ++ spec.component_head_words keyword.now head.now) }
{
    let gap = words.flag(Gap::Line, head.generic.is_some(), b"generic")?;
    words.word(gap, keyword)?;
    words.word(Gap::Spaced, head.name.as_bytes())?;
    put_head_end(words, head, levels)
}
