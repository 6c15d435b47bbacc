//! Variables, types and declarations made of their parts.

ghost use Rattle.std.specs.Prelude.{◌≡◌, IfOk, false};
ghost use Rattle.nesc_grammar.specs.Grammar as grammar;
ghost use Rattle.nesc_grammar.specs.Declarations as spec;
ghost use Rattle.nesc_grammar.specs.Statements as statements;
ghost use Rattle.nesc_tree.specs.declared.declarations.ForStart.TheVariants as start;
ghost use Rattle.nesc_declarators.specs.Parts as parts;

use nesc_parse_decls::added;
use nesc_tree::{
    Attr, CastType, Decl, Declarator, Dims, Expr, ForStart, Init, Operand, Stmt, TypeSpec,
    VarGroup, Variable,
};
use nm_base::{Boxed, List, Name, NoMemory, Pos, Token, beside};
use std::alloc::Global;

pub fn no_dims(alloc: Global) -> Dims
    ensures { result ≡ grammar.no_dims }
{
    Dims {
        exprs: List::new(Vec::new(alloc)),
        height: 0,
    }
}

/// The dimensions with one more.
pub fn more_dims(so_far: Dims, size: Operand) -> Result<Dims, NoMemory>
    ensures { IfOk result (λ l. l ≡ grammar.more_dims size so_far) }
{
    let height = so_far.height.max(size.height);
    let exprs = added(so_far.exprs, size.expr)?;
    Ok(Dims { exprs, height })
}

/// A variable without an initialiser.
pub fn plain_variable(
    alloc: Global,
    token: &Token,
    dims: Dims,
    stars: u8,
) -> Result<Variable, NoMemory>
    ensures { IfOk result (λ v. v ≡ spec.variable_of token.now dims stars) }
{
    let (exprs, name) = beside(dims.exprs, Name::new(alloc, token.text.as_bytes()))?;
    Ok(Variable {
        declarator: Declarator {
            stars,
            name,
            dims: exprs,
        },
        init: None,
        pos: token.pos,
    })
}

/// The variable with what is behind its declarator.
pub fn with_init(variable: Variable, init: Option<Init>) -> Variable
    ensures { result ≡ spec.with_init variable init }
{
    Variable {
        declarator: variable.declarator,
        init,
        pos: variable.pos,
    }
}

/// Variables that share a type.
pub fn group(norace: bool, shared: CastType, vars: List<Variable>) -> VarGroup
    ensures { result ≡ spec.group norace shared vars }
{
    VarGroup {
        ty: shared.ty,
        norace,
        vars,
    }
}

/// The type of what a declarator declares.
pub fn declared_type(shared: CastType, stars: u8, dims: List<Expr>) -> TypeSpec
    ensures { result ≡ spec.declared_type shared stars dims }
{
    let TypeSpec { base, is_const, .. } = shared.ty;
    TypeSpec {
        base,
        stars,
        dims,
        is_const,
    }
}

/// The declaration of a type name.
pub fn type_name(variable: Variable, attrs: List<Attr>, shared: CastType) -> Decl
    ensures { result ≡ spec.type_name variable attrs shared }
{
    let Declarator { stars, name, dims } = variable.declarator;
    Decl::Typedef {
        name,
        ty: declared_type(shared, stars, dims),
        attrs,
        pos: variable.pos,
    }
}

/// Variables, or a type alone.
pub fn type_or_group(shared: CastType, vars: List<Variable>) -> Decl
    ensures { result ≡ spec.type_or_group shared vars }
{
    if vars.as_slice().is_empty() {
        Decl::TypeOnly(shared.ty, shared.from)
    } else {
        Decl::Vars(group(false, shared, vars))
    }
}

/// Variables or a type in a block.
pub fn local_group(alloc: Global, shared: CastType, vars: List<Variable>) -> Result<Stmt, NoMemory>
    ensures { IfOk result (λ x. x ≡ statements.local_group shared vars) }
{
    let from = shared.from;
    local_decl(alloc, type_or_group(shared, vars), from)
}

/// A declaration in a block, from this place on.
pub fn local_decl(alloc: Global, decl: Decl, from: Pos) -> Result<Stmt, NoMemory>
    ensures { IfOk result (λ x. x ≡ parts.local_at decl from) }
{
    Ok(Stmt::Local(Boxed::new(alloc, decl)?, from))
}

/// The variables that begin a `for`.
pub fn for_group(shared: CastType, vars: List<Variable>) -> ForStart
    ensures { result ≡ start.Vars (spec.group false shared vars) }
{
    ForStart::Vars(group(false, shared, vars))
}
