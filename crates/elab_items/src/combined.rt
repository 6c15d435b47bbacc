//! The function that combines two results of a type.

ghost use Rattle.std.specs.Prelude.{◌≡◌, IfOk, None, Some, List, codes, flat_map, map};
ghost use Rattle.std.specs.List.{filter, filter_map};
ghost use Rattle.std.specs.Option.{option_map};
ghost use Rattle.nesc_tree.specs.View.{base_of, spec_of};
ghost use Rattle.body_meaning.specs.View.{attr_arg_of, attr_of, decl_of};
ghost use Rattle.program_meaning.specs.Heads.{is_named};
ghost use Rattle.program_meaning.specs.Items as spec;
ghost use Rattle.elab_targets.specs.View.{headers_of};
ghost use Rattle.elab_items.specs.Parts as parts;

use elab_targets::Application;
use nesc_tree::{Attr, AttrArg, Base, Decl, TypeSpec};
use nm_base::{List, Name, NoMemory};
use std::alloc::Global;

// ---- the name of a type

fn base_name(b: &Base) -> Option<&Name>
    ensures { option_map (λ n. n.now) result ≡ parts.base_name (base_of b.now) }
{
    match b {
        Base::Named(name) => Some(name),
        Base::Void => None,
        Base::Int(_) => None,
        Base::Struct(_, fields) => match fields {
            Some(_) => None,
            None => None,
        },
        Base::Enum(_, items) => match items {
            Some(_) => None,
            None => None,
        },
    }
}

// The name of a type that stands by itself.
fn type_name(t: &TypeSpec) -> Option<&Name>
    ensures { option_map (λ n. n.now) result ≡ parts.type_name (spec_of t.now) }
{
    if t.stars == 0 {
        base_name(&t.base)
    } else {
        None
    }
}

// ---- attributes

fn is_combine(a: &Attr) -> bool
    ensures { result ≡ is_named (codes "combine") (attr_of a.now) }
{
    a.name.as_bytes() == b"combine".as_slice()
}

// What stands between the quotes of a text.
#[tactic(auto, using(crate::proofs::Quotes::quotes))]
fn unquoted(alloc: Global, text: &Name) -> Result<Name, NoMemory>
    ensures { IfOk result (λ name. name ≡ spec.unquoted text.now) }
{
    let Some((_, behind)) = text.as_bytes().split_first() else {
        return Name::new(alloc, &[]);
    };
    let Some((_, inner)) = behind.split_last() else {
        return Name::new(alloc, &[]);
    };
    Name::new(alloc, inner)
}

fn function_named(alloc: Global, args: &[AttrArg]) -> Result<Name, NoMemory>
    ensures { IfOk result (λ name. name ≡ spec.function_named (map attr_arg_of args.now)) }
{
    match args {
        [AttrArg::Text(text)] => unquoted(alloc, text),
        [] => Name::new(alloc, &[]),
        [AttrArg::Value(_)] => Name::new(alloc, &[]),
        [_, _, ..] => Name::new(alloc, &[]),
    }
}

fn combined_by(alloc: Global, attrs: &[Attr]) -> Result<Option<Name>, NoMemory>
    ensures { IfOk result (λ name. name ≡ spec.combined_by (filter (is_named (codes "combine")) (map attr_of attrs.now))) }
{
    let mut rest = attrs;
    while let Some((a, more)) = rest.split_first() {
        if is_combine(a) {
            return Ok(Some(function_named(alloc, a.args.as_slice())?));
        }
        rest = more;
    }
    Ok(None)
}

// The attributes of the type of this name, where this declares it.
fn attrs_of<'d>(name: &Name, decl: &'d Decl) -> Option<&'d List<Attr>>
    ensures { option_map (λ l. map attr_of l.now) result ≡ spec.attrs_of name.now (decl_of decl.now) }
{
    match decl {
        Decl::Typedef {
            name: own,
            ty: _,
            attrs,
            pos: _,
        } => { if own == name { Some(attrs) } else { None } }
        Decl::TypeOnly(_, _) => None,
        Decl::Vars(_) => None,
        Decl::Func { .. } => None,
    }
}

fn attrs_in<'d>(name: &Name, decls: &'d [Decl]) -> Option<&'d List<Attr>>
    ensures { option_map (λ l. map attr_of l.now) result ≡ parts.first (filter_map (spec.attrs_of name.now) (map decl_of decls.now)) }
{
    let mut rest = decls;
    while let Some((decl, more)) = rest.split_first() {
        if let Some(attrs) = attrs_of(name, decl) {
            return Some(attrs);
        }
        rest = more;
    }
    None
}

#[tactic(auto, using(crate::proofs::Headers::headers))]
fn attrs_among<'d>(name: &Name, headers: &[&'d [Decl]]) -> Option<&'d List<Attr>>
    ensures { option_map (λ l. map attr_of l.now) result ≡ parts.first (filter_map (spec.attrs_of name.now) (flat_map (λ h. map decl_of h.now) headers.now)) }
{
    for decls in headers {
        if let Some(attrs) = attrs_in(name, decls) {
            return Some(attrs);
        }
    }
    None
}

// ---- the function

fn is_text_in(name: &Name, names: &[Name]) -> bool
    ensures { result ≡ spec.is_text_in name.now names.now }
{
    names.iter().any(|other| name == other)
}

fn combine_of(alloc: Global, headers: &[&[Decl]], name: &Name) -> Result<Option<Name>, NoMemory>
    ensures { IfOk result (λ f. f ≡ spec.combine_of (flat_map (λ h. map decl_of h.now) headers.now) name.now) }
{
    match attrs_among(name, headers) {
        None => Ok(None),
        Some(attrs) => combined_by(alloc, attrs.as_slice()),
    }
}

/// The name of the function that combines two results of this type: that of its `@combine` in a header, where no parameter of the interface
/// hides the type's name (nesC 1.3 Reference, 9).
pub fn combiner(
    alloc: Global,
    app: &Application,
    params: &[Name],
    t: &TypeSpec,
) -> Result<Option<Name>, NoMemory>
    ensures { IfOk result (λ f. f ≡ spec.combine_named (headers_of app.now) params.now (spec.type_name (spec_of t.now))) }
{
    match type_name(t) {
        None => Ok(None),
        Some(name) => {
            if is_text_in(name, params) {
                return Ok(None);
            }
            combine_of(alloc, app.headers.as_slice(), name)
        }
    }
}
