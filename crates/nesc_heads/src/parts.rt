//! Parameters made of their parts.

ghost use Rattle.std.specs.Prelude.{◌≡◌, IfOk, Some};
ghost use Rattle.nesc_tree.specs.View.{base_of};
ghost use Rattle.nesc_grammar.specs.Declarations as spec;
ghost use Rattle.nesc_heads.specs.Parts as parts;

use nesc_declarators::declared_type;
use nesc_parse_decls::{no_list, single};
use nesc_tree::{Base, CastType, Expr, Param};
use nm_base::{List, Name, NoMemory, Token, beside};
use std::alloc::Global;

/// The dimension as a list, where there is one.
pub fn listed_dimension(alloc: Global, size: Option<Expr>) -> Result<List<Expr>, NoMemory>
    ensures { IfOk result (λ l. l ≡ spec.listed_dimension size) }
{
    match size {
        None => Ok(no_list(alloc)),
        Some(size) => single(alloc, size),
    }
}

/// The name of a parameter with its dimension.
pub fn named(
    alloc: Global,
    token: &Token,
    size: Option<Expr>,
) -> Result<(Option<Name>, List<Expr>), NoMemory>
    ensures { IfOk result (λ p. p ≡ parts.texts (Some token.now, spec.listed_dimension size)) }
{
    let (size, name) = beside(size, Name::new(alloc, token.text.as_bytes()))?;
    let (name, dims) = beside(name, listed_dimension(alloc, size))?;
    Ok((Some(name), dims))
}

/// The dimension of a parameter without a name.
pub fn unnamed(alloc: Global, size: Option<Expr>) -> Result<(Option<Name>, List<Expr>), NoMemory>
    ensures { IfOk result (λ p. p ≡ parts.unnamed size) }
{
    Ok((None, listed_dimension(alloc, size)?))
}

pub fn param_of(shared: CastType, stars: u8, parameter: (Option<Name>, List<Expr>)) -> Param
    ensures { result ≡ parts.param_of shared stars parameter }
{
    let (name, dims) = parameter;
    Param {
        ty: declared_type(shared, stars, dims),
        name,
    }
}

/// The parameter in the bracket behind a function's name.
pub fn bracket_of(alloc: Global, shared: CastType, token: &Token) -> Result<Param, NoMemory>
    ensures { IfOk result (λ p. p ≡ spec.bracket_of shared token.now) }
{
    let (shared, name) = beside(shared, Name::new(alloc, token.text.as_bytes()))?;
    Ok(Param {
        ty: shared.ty,
        name: Some(name),
    })
}

fn is_void_base(base: &Base) -> bool
    ensures { result ≡ parts.is_void_base (base_of base.now) }
{
    match base {
        Base::Void => true,
        Base::Int(_) => false,
        Base::Named(_) => false,
        Base::Struct(_, None) => false,
        Base::Struct(_, Some(_)) => false,
        Base::Enum(_, None) => false,
        Base::Enum(_, Some(_)) => false,
    }
}

// Whether it is `void` alone.
fn is_void(param: &Param) -> bool
    ensures { result ≡ spec.is_void param.now }
{
    if param.ty.stars > 0 {
        return false;
    }
    if !param.ty.dims.as_slice().is_empty() {
        return false;
    }
    if param.ty.is_const {
        return false;
    }
    match &param.name {
        Some(_) => false,
        None => is_void_base(&param.ty.base),
    }
}

// Whether `void` is all that is listed.
fn is_nothing(params: &List<Param>) -> bool
    ensures { result ≡ parts.is_nothing params.now }
{
    match params.as_slice() {
        [only] => is_void(only),
        _ => false,
    }
}

/// `void` alone is no parameter.
pub fn without_void(alloc: Global, params: List<Param>) -> List<Param>
    ensures { result ≡ spec.without_void params }
{
    if is_nothing(&params) {
        no_list(alloc)
    } else {
        params
    }
}
