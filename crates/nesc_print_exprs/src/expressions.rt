//! Expressions and types as words. Each function adds the words of its part, the first behind the gap, and goes down so many
//! levels of expressions and struct definitions: where more are in it, it answers `NoMemory`.

ghost use Rattle.std.specs.Prelude.{◌≡◌, ◌++◌, ◌∷◌, [], suc, OnOk, codes};
ghost use Rattle.nesc_tree.specs.Level as level;
ghost use Rattle.nesc_tree.specs.View.{base_of, expr_of, exprs_of, spec_of};
ghost use Rattle.nesc_print_words.specs.Expressions as spec;
ghost use Rattle.nesc_print_words.specs.Expressions.{words_at};
ghost use Rattle.nesc_print_words.specs.Lexemes.{in_braces, in_brackets, in_parentheses, literal, sign, stars, word, comma};
ghost use Rattle.nesc_print_words.specs.Operators as operators;
ghost use Rattle.nesc_print_words.specs.Trees.{declarator_of, declarators_of, group_of, groups_of, item_of, items_of, maybe_of};

use crate::operators::{
    assignment_text, infix_level, infix_text, integer_text, is_unsigned_type, prefix_needs,
    prefix_text, stands_bare, suffix_text,
};
use crate::words::Words;
use nesc_tree::level::{ASSIGNMENT, CAST, COMMA, CONDITIONAL, LOGICAL_OR, POSTFIX, UNARY};
use nesc_tree::{Base, Declarator, EnumItem, Expr, FieldGroup, InOp, PostOp, PreOp, TypeSpec};
use nm_base::{Boxed, IntType, List, Name, NoMemory};
use printed_words::Gap;

// A keyword and the parenthesis behind it.
fn open_call(words: &mut Words, gap: Gap, keyword: &[u8]) -> Result<(), NoMemory>
    ensures { OnOk result (words.new ≡ words.old ++ word keyword.now ∷ sign (codes "(") ∷ []) }
{
    words.word(gap, keyword)?;
    words.sign(Gap::Joined, b"(")
}

// `unique` and `uniqueCount`.
fn put_unique(words: &mut Words, gap: Gap, keyword: &[u8], text: &Name) -> Result<(), NoMemory>
    ensures { OnOk result (words.new ≡ words.old ++ word keyword.now ∷ in_parentheses (literal text.now ∷ [])) }
{
    open_call(words, gap, keyword)?;
    words.literal(Gap::Joined, text.as_bytes())?;
    words.sign(Gap::Joined, b")")
}

fn put_post(words: &mut Words, gap: Gap, task: &Name) -> Result<(), NoMemory>
    ensures { OnOk result (words.new ≡ words.old ++ word (codes "post") ∷ word task.now ∷ in_parentheses []) }
{
    words.word(gap, b"post")?;
    words.word(Gap::Spaced, task.as_bytes())?;
    words.sign(Gap::Joined, b"(")?;
    words.sign(Gap::Joined, b")")
}

fn call_word(signal: bool) -> &'static [u8]
    ensures { result.now ≡ spec.call_word signal }
{
    if signal { b"signal" } else { b"call" }
}

// An item of an element, up to its name.
fn put_item_name(
    words: &mut Words,
    gap: Gap,
    signal: bool,
    element: &Name,
    item: &Name,
) -> Result<(), NoMemory>
    ensures { OnOk result (words.new ≡ words.old ++ word (spec.call_word signal) ∷ word element.now ∷ sign (codes ".") ∷ word item.now ∷ []) }
{
    words.word(gap, call_word(signal))?;
    words.word(Gap::Spaced, element.as_bytes())?;
    words.sign(Gap::Joined, b".")?;
    words.word(Gap::Joined, item.as_bytes())
}

fn put_integer(words: &mut Words, gap: Gap, ty: IntType) -> Result<(), NoMemory>
    ensures { OnOk result (words.new ≡ words.old ++ spec.integer_words ty) }
{
    if is_unsigned_type(ty) {
        words.word(gap, b"unsigned")?;
        return words.word(Gap::Spaced, integer_text(ty));
    }
    words.word(gap, integer_text(ty))
}

fn put_tagged(
    words: &mut Words,
    gap: Gap,
    keyword: &[u8],
    tag: &Option<Name>,
) -> Result<(), NoMemory>
    ensures { OnOk result (words.new ≡ words.old ++ word keyword.now ∷ spec.tag_words tag.now) }
{
    words.word(gap, keyword)?;
    match tag {
        None => Ok(()),
        Some(tag) => words.word(Gap::Spaced, tag.as_bytes()),
    }
}

// Gives the gap of what stands behind.
fn put_stars(words: &mut Words, count: u8) -> Result<Gap, NoMemory>
    ensures { OnOk result (words.new ≡ words.old ++ stars count) }
{
    let mut gap = Gap::Spaced;
    for _ in 0..count {
        words.sign(gap, b"*")?;
        gap = Gap::Joined;
    }
    Ok(gap)
}

/// Adds the expression where one of at least the level `least` stands, in parentheses if it needs them.
#[cycle(tree)]
pub fn put_expr(
    words: &mut Words,
    gap: Gap,
    least: u8,
    e: &Expr,
    levels: u32,
) -> Result<(), NoMemory>
    ensures { OnOk result (words.new ≡ words.old ++ words_at least (expr_of e.now)) }
{
    if levels == 0 {
        return Err(NoMemory);
    }
    if stands_bare(least, e) {
        return put_bare(words, gap, e, levels - 1);
    }
    words.sign(gap, b"(")?;
    put_bare(words, Gap::Joined, e, levels - 1)?;
    words.sign(Gap::Joined, b")")
}

// The expression without parentheses of its own.
#[cycle(tree)]
fn put_bare(words: &mut Words, gap: Gap, e: &Expr, levels: u32) -> Result<(), NoMemory>
    ensures { OnOk result (words.new ≡ words.old ++ spec.expr_words (expr_of e.now)) }
{
    match e {
        Expr::Name(name, _) => words.word(gap, name.as_bytes()),
        Expr::Number(text, _) => words.number(gap, text.as_bytes()),
        Expr::Char(text, _) => words.character(gap, text.as_bytes()),
        Expr::Null(_) => words.word(gap, b"NULL"),
        Expr::Unique(text, _) => put_unique(words, gap, b"unique", text),
        Expr::UniqueCount(text, _) => put_unique(words, gap, b"uniqueCount", text),
        Expr::Unary(op, a, _) => put_prefixed(words, gap, *op, a.get(), levels),
        Expr::Postfix(op, a, _) => put_suffixed(words, gap, *op, a.get(), levels),
        Expr::Binary(op, a, b, _) => put_binary(words, gap, *op, a.get(), b.get(), levels),
        Expr::Assign(op, a, b, _) => put_assignment(words, gap, *op, a.get(), b.get(), levels),
        Expr::Cond(a, b, c, _) => put_choice(words, gap, a.get(), b.get(), c.get(), levels),
        Expr::Comma(a, b, _) => put_pair(words, gap, a.get(), b.get(), levels),
        Expr::Cast(t, a, _) => put_cast(words, gap, t, a.get(), levels),
        Expr::SizeOfExpr(a, _) => put_size_of(words, gap, a.get(), levels),
        Expr::SizeOfType(t, _) => put_type_size(words, gap, t, levels),
        Expr::Index(a, i, _) => put_index(words, gap, a.get(), i.get(), levels),
        Expr::Member(a, name, _) => put_member(words, gap, b".", a.get(), name, levels),
        Expr::Arrow(a, name, _) => put_member(words, gap, b"->", a.get(), name, levels),
        Expr::CallFn(f, args, _) => put_call(words, gap, f.get(), args, levels),
        Expr::CallItem {
            signal,
            element,
            item,
            param,
            args,
            ..
        } => {
            put_item_name(words, gap, *signal, element, item)?;
            put_item_arguments(words, param, args, levels)
        }
        Expr::PortRead(a, _) => put_port_read(words, gap, a.get(), levels),
        Expr::PortWrite(a, b, _) => put_port_write(words, gap, a.get(), b.get(), levels),
        Expr::Post(task, _) => put_post(words, gap, task),
    }
}

#[cycle(tree)]
fn put_prefixed(
    words: &mut Words,
    gap: Gap,
    op: PreOp,
    e: &Expr,
    levels: u32,
) -> Result<(), NoMemory>
    ensures { OnOk result (words.new ≡ words.old ++ sign (operators.prefix_text op) ∷ words_at (operators.prefix_needs op) (expr_of e.now)) }
{
    words.sign(gap, prefix_text(op))?;
    put_expr(words, Gap::Joined, prefix_needs(op), e, levels)
}

#[cycle(tree)]
fn put_suffixed(
    words: &mut Words,
    gap: Gap,
    op: PostOp,
    e: &Expr,
    levels: u32,
) -> Result<(), NoMemory>
    ensures { OnOk result (words.new ≡ words.old ++ (words_at level.postfix (expr_of e.now) ++ sign (operators.suffix_text op) ∷ [])) }
{
    put_expr(words, gap, POSTFIX, e, levels)?;
    words.sign(Gap::Joined, suffix_text(op))
}

#[cycle(tree)]
fn put_binary(
    words: &mut Words,
    gap: Gap,
    op: InOp,
    a: &Expr,
    b: &Expr,
    levels: u32,
) -> Result<(), NoMemory>
    ensures { OnOk result (words.new ≡ words.old ++ (words_at (operators.infix_level op) (expr_of a.now) ++ sign (operators.infix_text op) ∷ words_at (suc (operators.infix_level op)) (expr_of b.now))) }
{
    let level = infix_level(op);
    put_expr(words, gap, level, a, levels)?;
    words.sign(Gap::Spaced, infix_text(op))?;
    put_expr(words, Gap::Spaced, level + 1, b, levels)
}

#[cycle(tree)]
fn put_assignment(
    words: &mut Words,
    gap: Gap,
    op: Option<InOp>,
    a: &Expr,
    b: &Expr,
    levels: u32,
) -> Result<(), NoMemory>
    ensures { OnOk result (words.new ≡ words.old ++ (words_at level.unary (expr_of a.now) ++ sign (operators.assignment_text op) ∷ words_at level.assignment (expr_of b.now))) }
{
    put_expr(words, gap, UNARY, a, levels)?;
    words.sign(Gap::Spaced, assignment_text(op))?;
    put_expr(words, Gap::Spaced, ASSIGNMENT, b, levels)
}

#[cycle(tree)]
fn put_choice(
    words: &mut Words,
    gap: Gap,
    test: &Expr,
    first: &Expr,
    second: &Expr,
    levels: u32,
) -> Result<(), NoMemory>
    ensures { OnOk result (words.new ≡ words.old ++ (words_at level.logical_or (expr_of test.now) ++ sign (codes "?") ∷ (words_at level.comma (expr_of first.now) ++ sign (codes ":") ∷ words_at level.conditional (expr_of second.now)))) }
{
    put_expr(words, gap, LOGICAL_OR, test, levels)?;
    words.sign(Gap::Spaced, b"?")?;
    put_expr(words, Gap::Spaced, COMMA, first, levels)?;
    words.sign(Gap::Spaced, b":")?;
    put_expr(words, Gap::Spaced, CONDITIONAL, second, levels)
}

#[cycle(tree)]
fn put_pair(
    words: &mut Words,
    gap: Gap,
    first: &Expr,
    second: &Expr,
    levels: u32,
) -> Result<(), NoMemory>
    ensures { OnOk result (words.new ≡ words.old ++ (words_at level.comma (expr_of first.now) ++ comma ∷ words_at level.assignment (expr_of second.now))) }
{
    put_expr(words, gap, COMMA, first, levels)?;
    put_after_comma(words, second, levels)
}

#[cycle(tree)]
fn put_cast(
    words: &mut Words,
    gap: Gap,
    t: &TypeSpec,
    e: &Expr,
    levels: u32,
) -> Result<(), NoMemory>
    ensures { OnOk result (words.new ≡ words.old ++ (in_parentheses (spec.type_words (spec_of t.now)) ++ words_at level.cast (expr_of e.now))) }
{
    put_in_parentheses(words, gap, t, levels)?;
    put_expr(words, Gap::Spaced, CAST, e, levels)
}

#[cycle(tree)]
fn put_size_of(words: &mut Words, gap: Gap, e: &Expr, levels: u32) -> Result<(), NoMemory>
    ensures { OnOk result (words.new ≡ words.old ++ word (codes "sizeof") ∷ words_at level.unary (expr_of e.now)) }
{
    words.word(gap, b"sizeof")?;
    put_expr(words, Gap::Spaced, UNARY, e, levels)
}

#[cycle(tree)]
fn put_type_size(words: &mut Words, gap: Gap, t: &TypeSpec, levels: u32) -> Result<(), NoMemory>
    ensures { OnOk result (words.new ≡ words.old ++ word (codes "sizeof") ∷ in_parentheses (spec.type_words (spec_of t.now))) }
{
    words.word(gap, b"sizeof")?;
    put_in_parentheses(words, Gap::Joined, t, levels)
}

#[cycle(tree)]
fn put_index(words: &mut Words, gap: Gap, e: &Expr, at: &Expr, levels: u32) -> Result<(), NoMemory>
    ensures { OnOk result (words.new ≡ words.old ++ (words_at level.postfix (expr_of e.now) ++ in_brackets (words_at level.comma (expr_of at.now)))) }
{
    put_expr(words, gap, POSTFIX, e, levels)?;
    put_bracket(words, COMMA, at, levels)
}

#[cycle(tree)]
fn put_call(
    words: &mut Words,
    gap: Gap,
    f: &Expr,
    args: &List<Expr>,
    levels: u32,
) -> Result<(), NoMemory>
    ensures { OnOk result (words.new ≡ words.old ++ (words_at level.postfix (expr_of f.now) ++ in_parentheses (spec.argument_words (exprs_of args.now)))) }
{
    put_expr(words, gap, POSTFIX, f, levels)?;
    put_arguments(words, args, levels)
}

// What stands behind the name of an item that is called.
#[cycle(tree)]
fn put_item_arguments(
    words: &mut Words,
    param: &Option<Boxed<Expr>>,
    args: &List<Expr>,
    levels: u32,
) -> Result<(), NoMemory>
    ensures { OnOk result (words.new ≡ words.old ++ (spec.parameter_words (maybe_of param.now) ++ in_parentheses (spec.argument_words (exprs_of args.now)))) }
{
    put_parameter(words, param, levels)?;
    put_arguments(words, args, levels)
}

#[cycle(tree)]
fn put_after_comma(words: &mut Words, e: &Expr, levels: u32) -> Result<(), NoMemory>
    ensures { OnOk result (words.new ≡ words.old ++ comma ∷ words_at level.assignment (expr_of e.now)) }
{
    words.sign(Gap::Joined, b",")?;
    put_expr(words, Gap::Spaced, ASSIGNMENT, e, levels)
}

#[cycle(tree)]
fn put_bracket(words: &mut Words, least: u8, e: &Expr, levels: u32) -> Result<(), NoMemory>
    ensures { OnOk result (words.new ≡ words.old ++ in_brackets (words_at least (expr_of e.now))) }
{
    words.sign(Gap::Joined, b"[")?;
    put_expr(words, Gap::Joined, least, e, levels)?;
    words.sign(Gap::Joined, b"]")
}

#[cycle(tree)]
fn put_member(
    words: &mut Words,
    gap: Gap,
    joint: &[u8],
    e: &Expr,
    name: &Name,
    levels: u32,
) -> Result<(), NoMemory>
    ensures { OnOk result (words.new ≡ words.old ++ (words_at level.postfix (expr_of e.now) ++ sign joint.now ∷ word name.now ∷ [])) }
{
    put_expr(words, gap, POSTFIX, e, levels)?;
    words.sign(Gap::Joined, joint)?;
    words.word(Gap::Joined, name.as_bytes())
}

#[cycle(tree)]
fn put_port_read(words: &mut Words, gap: Gap, port: &Expr, levels: u32) -> Result<(), NoMemory>
    ensures { OnOk result (words.new ≡ words.old ++ word (codes "port_read") ∷ in_parentheses (words_at level.conditional (expr_of port.now))) }
{
    open_call(words, gap, b"port_read")?;
    put_expr(words, Gap::Joined, CONDITIONAL, port, levels)?;
    words.sign(Gap::Joined, b")")
}

#[cycle(tree)]
fn put_port_write(
    words: &mut Words,
    gap: Gap,
    port: &Expr,
    value: &Expr,
    levels: u32,
) -> Result<(), NoMemory>
    ensures { OnOk result (words.new ≡ words.old ++ word (codes "port_write") ∷ in_parentheses (words_at level.conditional (expr_of port.now) ++ comma ∷ words_at level.assignment (expr_of value.now))) }
{
    open_call(words, gap, b"port_write")?;
    put_expr(words, Gap::Joined, CONDITIONAL, port, levels)?;
    put_after_comma(words, value, levels)?;
    words.sign(Gap::Joined, b")")
}

// The arguments of a call, in their parentheses.
#[cycle(tree)]
fn put_arguments(words: &mut Words, args: &List<Expr>, levels: u32) -> Result<(), NoMemory>
    ensures { OnOk result (words.new ≡ words.old ++ in_parentheses (spec.argument_words (exprs_of args.now))) }
{
    words.sign(Gap::Joined, b"(")?;
    put_listed(words, args.as_slice(), levels)?;
    words.sign(Gap::Joined, b")")
}

#[cycle(tree)]
fn put_listed(words: &mut Words, list: &[Expr], levels: u32) -> Result<(), NoMemory>
    ensures { OnOk result (words.new ≡ words.old ++ spec.argument_words (exprs_of list.now)) }
{
    match list {
        [] => Ok(()),
        [first, rest @ ..] => {
            put_expr(words, Gap::Joined, ASSIGNMENT, first, levels)?;
            put_more(words, rest, levels)
        }
    }
}

#[cycle(tree)]
#[tactic(auto, using(crate::proofs::Lists::lists))]
fn put_more(words: &mut Words, list: &[Expr], levels: u32) -> Result<(), NoMemory>
    ensures { OnOk result (words.new ≡ words.old ++ spec.more_argument_words (exprs_of list.now)) }
{
    for e in list {
        put_after_comma(words, e, levels)?;
    }
    Ok(())
}

// The parameter of a call, in its bracket.
#[cycle(tree)]
fn put_parameter(
    words: &mut Words,
    param: &Option<Boxed<Expr>>,
    levels: u32,
) -> Result<(), NoMemory>
    ensures { OnOk result (words.new ≡ words.old ++ spec.parameter_words (maybe_of param.now)) }
{
    match param {
        None => Ok(()),
        Some(e) => put_bracket(words, ASSIGNMENT, e.get(), levels),
    }
}

/// Adds the dimensions of an array.
#[cycle(tree)]
#[tactic(auto, using(crate::proofs::Lists::lists))]
pub fn put_dims(words: &mut Words, dims: &List<Expr>, levels: u32) -> Result<(), NoMemory>
    ensures { OnOk result (words.new ≡ words.old ++ spec.dim_words (exprs_of dims.now)) }
{
    for e in dims.as_slice() {
        put_bracket(words, CONDITIONAL, e, levels)?;
    }
    Ok(())
}

#[cycle(tree)]
fn put_in_parentheses(
    words: &mut Words,
    gap: Gap,
    t: &TypeSpec,
    levels: u32,
) -> Result<(), NoMemory>
    ensures { OnOk result (words.new ≡ words.old ++ in_parentheses (spec.type_words (spec_of t.now))) }
{
    words.sign(gap, b"(")?;
    put_type(words, Gap::Joined, t, levels)?;
    words.sign(Gap::Joined, b")")
}

/// Adds the type, with its stars and dimensions.
#[cycle(tree)]
pub fn put_type(words: &mut Words, gap: Gap, t: &TypeSpec, levels: u32) -> Result<(), NoMemory>
    ensures { OnOk result (words.new ≡ words.old ++ spec.type_words (spec_of t.now)) }
{
    let gap = words.flag(gap, t.is_const, b"const")?;
    put_base(words, gap, &t.base, levels)?;
    put_stars(words, t.stars)?;
    put_dims(words, &t.dims, levels)
}

/// Adds the type and its stars, before a name that is declared, and gives the gap of that name.
pub fn put_before_name(
    words: &mut Words,
    gap: Gap,
    t: &TypeSpec,
    levels: u32,
) -> Result<Gap, NoMemory>
    ensures { OnOk result (words.new ≡ words.old ++ spec.before_name (spec_of t.now)) }
{
    let gap = words.flag(gap, t.is_const, b"const")?;
    put_base(words, gap, &t.base, levels)?;
    put_stars(words, t.stars)
}

#[cycle(tree)]
fn put_base(words: &mut Words, gap: Gap, base: &Base, levels: u32) -> Result<(), NoMemory>
    ensures { OnOk result (words.new ≡ words.old ++ spec.base_words (base_of base.now)) }
{
    match base {
        Base::Void => words.word(gap, b"void"),
        Base::Int(ty) => put_integer(words, gap, *ty),
        Base::Named(name) => words.word(gap, name.as_bytes()),
        Base::Struct(tag, groups) => match groups {
            None => put_tagged(words, gap, b"struct", tag),
            Some(groups) => {
                put_tagged(words, gap, b"struct", tag)?;
                put_fields(words, groups, levels)
            }
        },
        Base::Enum(tag, items) => match items {
            None => put_tagged(words, gap, b"enum", tag),
            Some(items) => {
                put_tagged(words, gap, b"enum", tag)?;
                put_constants(words, items, levels)
            }
        },
    }
}

// The fields of a struct definition, each group on a line.
#[cycle(tree)]
fn put_fields(words: &mut Words, groups: &List<FieldGroup>, levels: u32) -> Result<(), NoMemory>
    ensures { OnOk result (words.new ≡ words.old ++ in_braces (spec.group_words (groups_of groups.now))) }
{
    if levels == 0 {
        return Err(NoMemory);
    }
    words.sign(Gap::Spaced, b"{")?;
    put_groups(words, groups, levels - 1)?;
    words.sign(Gap::Line, b"}")
}

#[cycle(tree)]
#[tactic(auto, using(crate::proofs::Lists::lists))]
fn put_groups(words: &mut Words, groups: &List<FieldGroup>, levels: u32) -> Result<(), NoMemory>
    ensures { OnOk result (words.new ≡ words.old ++ spec.group_words (groups_of groups.now)) }
{
    for group in groups.as_slice() {
        put_group(words, group, levels)?;
    }
    Ok(())
}

#[cycle(tree)]
fn put_group(words: &mut Words, group: &FieldGroup, levels: u32) -> Result<(), NoMemory>
    ensures { OnOk result (words.new ≡ words.old ++ (spec.type_words (group_of group.now).0 ++ (spec.field_words (group_of group.now).1 ++ sign (codes ";") ∷ []))) }
{
    put_type(words, Gap::Line, &group.ty, levels)?;
    put_declarators(words, group.fields.as_slice(), levels)?;
    words.sign(Gap::Joined, b";")
}

#[cycle(tree)]
fn put_declarators(words: &mut Words, fields: &[Declarator], levels: u32) -> Result<(), NoMemory>
    ensures { OnOk result (words.new ≡ words.old ++ spec.field_words (declarators_of fields.now)) }
{
    match fields {
        [] => Ok(()),
        [first, rest @ ..] => {
            put_declarator(words, first, levels)?;
            put_more_declarators(words, rest, levels)
        }
    }
}

#[cycle(tree)]
#[tactic(auto, using(crate::proofs::Lists::lists))]
fn put_more_declarators(
    words: &mut Words,
    fields: &[Declarator],
    levels: u32,
) -> Result<(), NoMemory>
    ensures { OnOk result (words.new ≡ words.old ++ spec.more_field_words (declarators_of fields.now)) }
{
    for field in fields {
        words.sign(Gap::Joined, b",")?;
        put_declarator(words, field, levels)?;
    }
    Ok(())
}

/// Adds a declared name between its stars and its dimensions.
#[cycle(tree)]
pub fn put_declarator(
    words: &mut Words,
    declarator: &Declarator,
    levels: u32,
) -> Result<(), NoMemory>
    ensures { OnOk result (words.new ≡ words.old ++ spec.declarator_words (declarator_of declarator.now).0 (declarator_of declarator.now).1 (spec.dim_words (declarator_of declarator.now).2)) }
{
    let gap = put_stars(words, declarator.stars)?;
    words.word(gap, declarator.name.as_bytes())?;
    put_dims(words, &declarator.dims, levels)
}

// The constants of an enum, on one line.
#[cycle(tree)]
fn put_constants(words: &mut Words, items: &List<EnumItem>, levels: u32) -> Result<(), NoMemory>
    ensures { OnOk result (words.new ≡ words.old ++ in_braces (spec.item_words (items_of items.now))) }
{
    words.sign(Gap::Spaced, b"{")?;
    put_items(words, items.as_slice(), levels)?;
    words.sign(Gap::Spaced, b"}")
}

#[cycle(tree)]
fn put_items(words: &mut Words, items: &[EnumItem], levels: u32) -> Result<(), NoMemory>
    ensures { OnOk result (words.new ≡ words.old ++ spec.item_words (items_of items.now)) }
{
    match items {
        [] => Ok(()),
        [first, rest @ ..] => {
            put_item(words, first, levels)?;
            put_more_items(words, rest, levels)
        }
    }
}

#[cycle(tree)]
#[tactic(auto, using(crate::proofs::Lists::lists))]
fn put_more_items(words: &mut Words, items: &[EnumItem], levels: u32) -> Result<(), NoMemory>
    ensures { OnOk result (words.new ≡ words.old ++ spec.more_item_words (items_of items.now)) }
{
    for item in items {
        words.sign(Gap::Joined, b",")?;
        put_item(words, item, levels)?;
    }
    Ok(())
}

#[cycle(tree)]
fn put_item(words: &mut Words, item: &EnumItem, levels: u32) -> Result<(), NoMemory>
    ensures { OnOk result (words.new ≡ words.old ++ word (item_of item.now).0 ∷ spec.value_words (item_of item.now).1) }
{
    words.word(Gap::Spaced, item.name.as_bytes())?;
    put_value(words, &item.value, levels)
}

// The value of a constant behind `=`, if there is one.
#[cycle(tree)]
fn put_value(words: &mut Words, value: &Option<Expr>, levels: u32) -> Result<(), NoMemory>
    ensures { OnOk result (words.new ≡ words.old ++ spec.value_words (maybe_of value.now)) }
{
    match value {
        None => Ok(()),
        Some(e) => {
            words.sign(Gap::Spaced, b"=")?;
            put_expr(words, Gap::Spaced, CONDITIONAL, e, levels)
        }
    }
}
