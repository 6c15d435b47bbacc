//! Declarations as words: attributes, variables, type names, parameters and heads of functions. Each function adds the words of its
//! part, the first behind the gap where it is told one, and goes down so many levels of expressions and initialisers.

ghost use Rattle.std.specs.Prelude.{◌≡◌, ◌++◌, ◌∷◌, map, option_map, OnOk};
ghost use Rattle.nesc_tree.specs.View.{spec_of};
ghost use Rattle.nesc_print_words.specs.Declarations as spec;
ghost use Rattle.nesc_print_words.specs.Expressions.{before_name, behind_name};
ghost use Rattle.nesc_print_words.specs.Lexemes.{behind_commas, in_parentheses, listed, or_nothing, word};

use crate::initialisers::put_init;
use nesc_print_exprs::{Words, put_before_name, put_declarator, put_dims, put_expr, put_type};
use nesc_tree::level::CONDITIONAL;
use nesc_tree::{Attr, AttrArg, FuncHead, FuncKind, Init, Param, TypeSpec, VarGroup, Variable};
use nm_base::{List, Name, NoMemory};
use printed_words::Gap;

// ---- attributes

fn put_attr_arg(words: &mut Words, gap: Gap, arg: &AttrArg, levels: u32) -> Result<(), NoMemory>
    ensures { OnOk result (words.new ≡ words.old ++ spec.attr_arg_words arg.now) }
{
    match arg {
        AttrArg::Text(text) => words.literal(gap, text.as_bytes()),
        AttrArg::Value(e) => put_expr(words, gap, CONDITIONAL, e, levels),
    }
}

#[tactic(auto, using(crate::proofs::Lists::lists))]
fn put_more_attr_args(words: &mut Words, args: &[AttrArg], levels: u32) -> Result<(), NoMemory>
    ensures { OnOk result (words.new ≡ words.old ++ behind_commas (map spec.attr_arg_words args.now)) }
{
    for arg in args {
        words.sign(Gap::Joined, b",")?;
        put_attr_arg(words, Gap::Spaced, arg, levels)?;
    }
    Ok(())
}

fn put_attr_args(words: &mut Words, args: &[AttrArg], levels: u32) -> Result<(), NoMemory>
    ensures { OnOk result (words.new ≡ words.old ++ listed (map spec.attr_arg_words args.now)) }
{
    match args {
        [] => Ok(()),
        [first, rest @ ..] => {
            put_attr_arg(words, Gap::Joined, first, levels)?;
            put_more_attr_args(words, rest, levels)
        }
    }
}

// The arguments in their parentheses.
fn put_attr_call(words: &mut Words, args: &List<AttrArg>, levels: u32) -> Result<(), NoMemory>
    ensures { OnOk result (words.new ≡ words.old ++ in_parentheses (listed (map spec.attr_arg_words args.now))) }
{
    words.sign(Gap::Joined, b"(")?;
    put_attr_args(words, args.as_slice(), levels)?;
    words.sign(Gap::Joined, b")")
}

fn put_attr(words: &mut Words, attr: &Attr, levels: u32) -> Result<(), NoMemory>
    ensures { OnOk result (words.new ≡ words.old ++ spec.attr_words attr.now) }
{
    words.sign(Gap::Spaced, b"@")?;
    words.word(Gap::Joined, attr.name.as_bytes())?;
    put_attr_call(words, &attr.args, levels)
}

/// Adds the attributes, each behind a space.
#[tactic(auto, using(crate::proofs::Lists::lists))]
pub fn put_attrs(words: &mut Words, attrs: &List<Attr>, levels: u32) -> Result<(), NoMemory>
    ensures { OnOk result (words.new ≡ words.old ++ spec.attrs_words attrs.now) }
{
    for attr in attrs.as_slice() {
        put_attr(words, attr, levels)?;
    }
    Ok(())
}

// ---- variables

fn put_initialiser(words: &mut Words, init: &Option<Init>, levels: u32) -> Result<(), NoMemory>
    ensures { OnOk result (words.new ≡ words.old ++ or_nothing (option_map spec.initialised init.now)) }
{
    match init {
        None => Ok(()),
        Some(init) => {
            words.sign(Gap::Spaced, b"=")?;
            put_init(words, init, levels)
        }
    }
}

fn put_variable(words: &mut Words, variable: &Variable, levels: u32) -> Result<(), NoMemory>
    ensures { OnOk result (words.new ≡ words.old ++ spec.variable_words variable.now) }
{
    put_declarator(words, &variable.declarator, levels)?;
    put_initialiser(words, &variable.init, levels)
}

#[tactic(auto, using(crate::proofs::Lists::lists))]
fn put_more_variables(
    words: &mut Words,
    variables: &[Variable],
    levels: u32,
) -> Result<(), NoMemory>
    ensures { OnOk result (words.new ≡ words.old ++ behind_commas (map spec.variable_words variables.now)) }
{
    for variable in variables {
        words.sign(Gap::Joined, b",")?;
        put_variable(words, variable, levels)?;
    }
    Ok(())
}

fn put_variables(words: &mut Words, variables: &[Variable], levels: u32) -> Result<(), NoMemory>
    ensures { OnOk result (words.new ≡ words.old ++ listed (map spec.variable_words variables.now)) }
{
    match variables {
        [] => Ok(()),
        [first, rest @ ..] => {
            put_variable(words, first, levels)?;
            put_more_variables(words, rest, levels)
        }
    }
}

/// Adds variables that share a type, and the `;` behind them.
pub fn put_vars(words: &mut Words, gap: Gap, group: &VarGroup, levels: u32) -> Result<(), NoMemory>
    ensures { OnOk result (words.new ≡ words.old ++ spec.vars_words group.now) }
{
    let gap = words.flag(gap, group.norace, b"norace")?;
    put_type(words, gap, &group.ty, levels)?;
    put_variables(words, group.vars.as_slice(), levels)?;
    words.sign(Gap::Joined, b";")
}

// ---- type names

// A type with the name that it declares among its stars and dimensions.
fn put_named_type(
    words: &mut Words,
    gap: Gap,
    ty: &TypeSpec,
    name: &Name,
    levels: u32,
) -> Result<(), NoMemory>
    ensures { OnOk result (words.new ≡ words.old ++ (before_name (spec_of ty.now) ++ word name.now ∷ behind_name (spec_of ty.now))) }
{
    let gap = put_before_name(words, gap, ty, levels)?;
    words.word(gap, name.as_bytes())?;
    put_dims(words, &ty.dims, levels)
}

/// Adds the declaration of a type name.
pub fn put_typedef(
    words: &mut Words,
    gap: Gap,
    name: &Name,
    ty: &TypeSpec,
    attrs: &List<Attr>,
    levels: u32,
) -> Result<(), NoMemory>
    ensures { OnOk result (words.new ≡ words.old ++ spec.typedef_words name.now ty.now attrs.now) }
{
    words.word(gap, b"typedef")?;
    put_named_type(words, Gap::Spaced, ty, name, levels)?;
    put_attrs(words, attrs, levels)?;
    words.sign(Gap::Joined, b";")
}

/// Adds a type that stands alone, and the `;` behind it.
pub fn put_type_only(
    words: &mut Words,
    gap: Gap,
    ty: &TypeSpec,
    levels: u32,
) -> Result<(), NoMemory>
    ensures { OnOk result (words.new ≡ words.old ++ spec.type_only_words ty.now) }
{
    put_type(words, gap, ty, levels)?;
    words.sign(Gap::Joined, b";")
}

// ---- heads of functions

fn put_name(words: &mut Words, gap: Gap, name: &Option<Name>) -> Result<(), NoMemory>
    ensures { OnOk result (words.new ≡ words.old ++ spec.name_words name.now) }
{
    match name {
        None => Ok(()),
        Some(name) => words.word(gap, name.as_bytes()),
    }
}

fn put_param(words: &mut Words, gap: Gap, param: &Param, levels: u32) -> Result<(), NoMemory>
    ensures { OnOk result (words.new ≡ words.old ++ spec.param_words param.now) }
{
    let gap = put_before_name(words, gap, &param.ty, levels)?;
    put_name(words, gap, &param.name)?;
    put_dims(words, &param.ty.dims, levels)
}

#[tactic(auto, using(crate::proofs::Lists::lists))]
fn put_more_params(words: &mut Words, params: &[Param], levels: u32) -> Result<(), NoMemory>
    ensures { OnOk result (words.new ≡ words.old ++ behind_commas (map spec.param_words params.now)) }
{
    for param in params {
        words.sign(Gap::Joined, b",")?;
        put_param(words, Gap::Spaced, param, levels)?;
    }
    Ok(())
}

fn put_listed_params(words: &mut Words, params: &[Param], levels: u32) -> Result<(), NoMemory>
    ensures { OnOk result (words.new ≡ words.old ++ listed (map spec.param_words params.now)) }
{
    match params {
        [] => Ok(()),
        [first, rest @ ..] => {
            put_param(words, Gap::Joined, first, levels)?;
            put_more_params(words, rest, levels)
        }
    }
}

/// Adds the parameters of a function in their parentheses.
pub fn put_params(words: &mut Words, params: &List<Param>, levels: u32) -> Result<(), NoMemory>
    ensures { OnOk result (words.new ≡ words.old ++ spec.params_words params.now) }
{
    words.sign(Gap::Joined, b"(")?;
    put_listed_params(words, params.as_slice(), levels)?;
    words.sign(Gap::Joined, b")")
}

fn put_bracket(words: &mut Words, bracket: &Option<Param>, levels: u32) -> Result<(), NoMemory>
    ensures { OnOk result (words.new ≡ words.old ++ spec.bracket_words bracket.now) }
{
    match bracket {
        None => Ok(()),
        Some(param) => {
            words.sign(Gap::Joined, b"[")?;
            put_param(words, Gap::Joined, param, levels)?;
            words.sign(Gap::Joined, b"]")
        }
    }
}

/// Adds the name behind a point, if there is one.
pub fn put_item(words: &mut Words, item: &Option<Name>) -> Result<(), NoMemory>
    ensures { OnOk result (words.new ≡ words.old ++ spec.item_words item.now) }
{
    match item {
        None => Ok(()),
        Some(name) => {
            words.sign(Gap::Joined, b".")?;
            words.word(Gap::Joined, name.as_bytes())
        }
    }
}

fn is_plain(kind: FuncKind) -> bool
    ensures { result ≡ spec.is_plain kind }
{
    match kind {
        FuncKind::Plain => true,
        FuncKind::Task | FuncKind::Command | FuncKind::Event => false,
    }
}

// Whether nothing but a word before the type tells that this is a function.
fn wants_word(head: &FuncHead) -> bool
    ensures { result ≡ spec.wants_word head.now }
{
    head.bracket.is_some()
        && head.item.is_none()
        && is_plain(head.kind)
        && !head.is_async
        && !head.is_default
}

// Gives the gap of what stands behind.
fn put_kind(words: &mut Words, gap: Gap, kind: FuncKind) -> Result<Gap, NoMemory>
    ensures { OnOk result (words.new ≡ words.old ++ spec.kind_words kind) }
{
    match kind {
        FuncKind::Plain => Ok(gap),
        FuncKind::Task => words.flag(gap, true, b"task"),
        FuncKind::Command => words.flag(gap, true, b"command"),
        FuncKind::Event => words.flag(gap, true, b"event"),
    }
}

// The words before the type; gives its gap.
fn put_function_words(words: &mut Words, gap: Gap, head: &FuncHead) -> Result<Gap, NoMemory>
    ensures { OnOk result (words.new ≡ words.old ++ spec.function_words head.now) }
{
    let gap = words.flag(gap, wants_word(head), b"inline")?;
    let gap = words.flag(gap, head.is_default, b"default")?;
    let gap = words.flag(gap, head.is_async, b"async")?;
    put_kind(words, gap, head.kind)
}

// What stands behind the name.
fn put_call(words: &mut Words, head: &FuncHead, levels: u32) -> Result<(), NoMemory>
    ensures { OnOk result (words.new ≡ words.old ++ spec.call_words head.now) }
{
    put_item(words, &head.item)?;
    put_bracket(words, &head.bracket, levels)?;
    put_params(words, &head.params, levels)?;
    put_attrs(words, &head.attrs, levels)
}

/// Adds the head of a function, with its attributes.
pub fn put_head(words: &mut Words, gap: Gap, head: &FuncHead, levels: u32) -> Result<(), NoMemory>
    ensures { OnOk result (words.new ≡ words.old ++ spec.head_words head.now) }
{
    let gap = put_function_words(words, gap, head)?;
    let gap = put_before_name(words, gap, &head.result, levels)?;
    words.word(gap, head.name.as_bytes())?;
    put_call(words, head, levels)
}
