//! What stands behind the name of a function or a variable, and declarations made of it.

ghost use Rattle.std.specs.Prelude.{◌≡◌, IfOk, ◌∷◌};
ghost use Rattle.nesc_grammar.specs.Declarations as spec;
ghost use Rattle.nesc_grammar.specs.Declarations.{no_words};
ghost use Rattle.nesc_heads.specs.Gives.{token_in};
ghost use Rattle.nesc_heads.specs.Words.{words_of};
ghost use Rattle.nesc_declarations.specs.Views.{behind_of, declaring_of, first_of, function_of, named_function, named_variable, start, type_of};

use nesc_declarators::{declared_type, group};
use nesc_heads::Words;
use nesc_parse_decls::no_list;
use nesc_tree::{
    Attr, CastType, Decl, Declarator, Expr, FuncHead, Init, Param, Site, Stmt, TypeSpec, VarGroup,
    Variable,
};
use nm_base::{List, Name, NoMemory, Pos, Token, beside};
use std::alloc::Global;

/// Which form stands behind a name.
#[derive(Clone, Copy, PartialEq, Eq, Debug)]
pub enum Behind {
    /// That of a function
    Function,
    /// That of a function, or of a variable where one may stand
    Either(Site),
}

/// A function from its parameters on; a prototype has no body.
#[derive(Drop)]
pub struct CallEnd {
    pub params: List<Param>,
    pub attrs: List<Attr>,
    pub body: Option<Stmt>,
}

/// A function from its bracket on.
#[derive(Drop)]
pub struct FunctionRest {
    pub bracket: Option<Param>,
    pub call: CallEnd,
}

/// What is behind the dimensions of the first variable: its initialiser, and more variables.
#[derive(Drop)]
pub struct FirstEnd {
    pub init: Option<Init>,
    pub more: List<Variable>,
}

/// What is behind a name: an interface's item and the rest of a function, or the dimensions and the rest of variables.
#[derive(Drop)]
pub enum End<'a> {
    Function(Option<&'a Token>, FunctionRest),
    Variables(List<Expr>, FirstEnd),
}

/// A declaration that hides names from its end on.
#[derive(Drop)]
pub enum Declared {
    Type(TypeSpec, Pos),
    Vars(VarGroup),
    Func(FuncHead, Option<Stmt>),
}

// The text of a token, where there is one.
fn text_in(alloc: Global, token: Option<&Token>) -> Result<Option<Name>, NoMemory>
    ensures { IfOk result (λ x. x ≡ spec.text_of (token_in token.entry)) }
{
    match token {
        None => Ok(None),
        Some(token) => Ok(Some(Name::new(alloc, token.text.as_bytes())?)),
    }
}

// The list with one before it.
fn prepended<T: Drop>(first: T, rest: List<T>) -> Result<List<T>, NoMemory>
    ensures { IfOk result (λ l. l ≡ first ∷ rest) }
{
    let mut longer = rest.into_vec();
    longer.insert(0, first)?;
    Ok(List::new(longer))
}

/// The dimensions with one before them.
pub fn first_dims(size: Expr, rest: List<Expr>) -> Result<List<Expr>, NoMemory>
    ensures { IfOk result (λ l. l ≡ size ∷ rest) }
{
    prepended(size, rest)
}

// A function of this result, with these names.
fn function_named(
    words: Words,
    returns: TypeSpec,
    name: Name,
    pos: Pos,
    item: Option<Name>,
    rest: FunctionRest,
) -> Declared
    ensures { declaring_of result ≡ named_function words returns name pos item rest }
{
    let FunctionRest { bracket, call } = rest;
    let head = FuncHead {
        kind: words.kind,
        name,
        item,
        bracket,
        is_async: words.is_async,
        is_default: words.is_default,
        result: returns,
        params: call.params,
        attrs: call.attrs,
        pos,
    };
    Declared::Func(head, call.body)
}

// The texts of a name and of the item behind it, where there is one.
fn texts_in(
    alloc: Global,
    name: &Token,
    item: Option<&Token>,
) -> Result<(Name, Option<Name>), NoMemory>
    ensures { IfOk result (λ x. (x.0 ≡ name.now.text) × (x.1 ≡ spec.text_of (token_in item.entry))) }
{
    let text = Name::new(alloc, name.text.as_bytes())?;
    beside(text, text_in(alloc, item))
}

/// A function by its words, its type, its name and what is behind it.
#[tactic(auto, using(crate::proofs::Forms::function_is))]
fn function_decl(
    alloc: Global,
    words: Words,
    shared: CastType,
    stars: u8,
    name: &Token,
    item: Option<&Token>,
    rest: FunctionRest,
) -> Result<Declared, NoMemory>
    ensures { IfOk result (λ d. declaring_of d ≡ function_of rest (token_in item.entry) (words_of words) (start shared stars name.now)) }
{
    let ((shared, rest), (text, item)) = beside((shared, rest), texts_in(alloc, name, item))?;
    let returns = declared_type(shared, stars, no_list(alloc));
    Ok(function_named(words, returns, text, name.pos, item, rest))
}

// A variable by its stars, its name, its dimensions and its initialiser.
fn variable_named(
    alloc: Global,
    stars: u8,
    name: &Token,
    dims: List<Expr>,
    init: Option<Init>,
) -> Result<Variable, NoMemory>
    ensures { IfOk result (λ v. v ≡ named_variable stars name.now dims init) }
{
    let ((dims, init), text) = beside((dims, init), Name::new(alloc, name.text.as_bytes()))?;
    Ok(Variable {
        declarator: Declarator {
            stars,
            name: text,
            dims,
        },
        init,
        pos: name.pos,
    })
}

/// Variables by their type, the name of the first one and what is behind it.
fn variables_decl(
    alloc: Global,
    shared: CastType,
    stars: u8,
    name: &Token,
    dims: List<Expr>,
    end: FirstEnd,
) -> Result<Declared, NoMemory>
    ensures { IfOk result (λ d. declaring_of d ≡ first_of end dims no_words (start shared stars name.now)) }
{
    let FirstEnd { init, more } = end;
    let ((shared, more), first) = beside(
        (shared, more),
        variable_named(alloc, stars, name, dims, init),
    )?;
    let (shared, vars) = beside(shared, prepended(first, more))?;
    Ok(Declared::Vars(group(false, shared, vars)))
}

/// A declaration by its words, its type, its name and what is behind it.
pub fn finished(
    alloc: Global,
    words: Words,
    shared: CastType,
    stars: u8,
    name: &Token,
    end: End<'_>,
) -> Result<Declared, NoMemory>
    ensures { IfOk result (λ d. declaring_of d ≡ behind_of end.entry (words_of words) (start shared stars name.now)) }
{
    match end {
        End::Function(item, rest) => function_decl(alloc, words, shared, stars, name, item, rest),
        End::Variables(dims, end) => variables_decl(alloc, shared, stars, name, dims, end),
    }
}

/// Variables that share a type, with `norace` or without.
pub fn grouped(norace: bool, shared: CastType, vars: List<Variable>) -> Declared
    ensures { declaring_of result ≡ spec.grouped norace shared vars }
{
    Declared::Vars(group(norace, shared, vars))
}

/// A type alone.
pub fn type_alone(shared: CastType) -> Declared
    ensures { declaring_of result ≡ type_of shared }
{
    Declared::Type(shared.ty, shared.from)
}

/// The tree of the declaration.
pub fn decl_of(declared: Declared) -> Decl
    ensures { result ≡ (declaring_of declared).decl }
{
    match declared {
        Declared::Type(ty, from) => Decl::TypeOnly(ty, from),
        Declared::Vars(vars) => Decl::Vars(vars),
        Declared::Func(head, body) => Decl::Func { head, body },
    }
}
