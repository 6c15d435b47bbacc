//! Lines of configurations as words: each component that is named, and each wire, is a line.

ghost use Rattle.std.specs.Prelude.{◌≡◌, ◌++◌, ◌∷◌, [], codes, map, OnOk};
ghost use Rattle.nesc_print_words.specs.Components as spec;
ghost use Rattle.nesc_print_words.specs.Lexemes.{behind_commas, in_parentheses, joined, listed, semicolon, word};

use crate::heads::put_alias;
use nesc_print_exprs::{Words, put_expr, put_type};
use nesc_print_stmts::{put_decl, put_item};
use nesc_tree::level::CONDITIONAL;
use nesc_tree::{ConfLine, Expr, GenericArg, WireEnd};
use nm_base::{List, Name, NoMemory};
use printed_words::Gap;

// ---- components

fn put_generic_arg(
    words: &mut Words,
    gap: Gap,
    arg: &GenericArg,
    levels: u32,
) -> Result<(), NoMemory>
    ensures { OnOk result (words.new ≡ words.old ++ spec.generic_arg_words arg.now) }
{
    match arg {
        GenericArg::Ty(ty) => put_type(words, gap, ty, levels),
        GenericArg::Value(e) => put_expr(words, gap, CONDITIONAL, e, levels),
    }
}

#[tactic(auto, using(crate::proofs::Lists::lists))]
fn put_more_generic_args(
    words: &mut Words,
    args: &[GenericArg],
    levels: u32,
) -> Result<(), NoMemory>
    ensures { OnOk result (words.new ≡ words.old ++ behind_commas (map spec.generic_arg_words args.now)) }
{
    for arg in args {
        words.sign(Gap::Joined, b",")?;
        put_generic_arg(words, Gap::Spaced, arg, levels)?;
    }
    Ok(())
}

fn put_generic_args(words: &mut Words, args: &[GenericArg], levels: u32) -> Result<(), NoMemory>
    ensures { OnOk result (words.new ≡ words.old ++ listed (map spec.generic_arg_words args.now)) }
{
    match args {
        [] => Ok(()),
        [first, rest @ ..] => {
            put_generic_arg(words, Gap::Joined, first, levels)?;
            put_more_generic_args(words, rest, levels)
        }
    }
}

// The arguments of a generic component in their parentheses.
fn put_new_args(words: &mut Words, args: &List<GenericArg>, levels: u32) -> Result<(), NoMemory>
    ensures { OnOk result (words.new ≡ words.old ++ in_parentheses (listed (map spec.generic_arg_words args.now))) }
{
    words.sign(Gap::Joined, b"(")?;
    put_generic_args(words, args.as_slice(), levels)?;
    words.sign(Gap::Joined, b")")
}

fn put_component_name(
    words: &mut Words,
    name: &Name,
    new_args: &Option<List<GenericArg>>,
    levels: u32,
) -> Result<(), NoMemory>
    ensures { OnOk result (words.new ≡ words.old ++ spec.component_name_words name.now new_args.now) }
{
    match new_args {
        None => words.word(Gap::Spaced, name.as_bytes()),
        Some(args) => {
            words.word(Gap::Spaced, b"new")?;
            words.word(Gap::Spaced, name.as_bytes())?;
            put_new_args(words, args, levels)
        }
    }
}

// What stands behind `components`.
fn put_component_end(
    words: &mut Words,
    name: &Name,
    new_args: &Option<List<GenericArg>>,
    alias: &Name,
    levels: u32,
) -> Result<(), NoMemory>
    ensures { OnOk result (words.new ≡ words.old ++ (spec.component_name_words name.now new_args.now ++ (spec.alias_words name.now alias.now ++ semicolon ∷ []))) }
{
    put_component_name(words, name, new_args, levels)?;
    put_alias(words, name, alias)?;
    words.sign(Gap::Joined, b";")
}

fn put_component(
    words: &mut Words,
    name: &Name,
    new_args: &Option<List<GenericArg>>,
    alias: &Name,
    levels: u32,
) -> Result<(), NoMemory>
    ensures { OnOk result (words.new ≡ words.old ++ word (codes "components") ∷ (spec.component_name_words name.now new_args.now ++ (spec.alias_words name.now alias.now ++ semicolon ∷ []))) }
{
    words.word(Gap::Line, b"components")?;
    put_component_end(words, name, new_args, alias, levels)
}

// ---- wires

fn put_end_bracket(words: &mut Words, param: &Option<Expr>, levels: u32) -> Result<(), NoMemory>
    ensures { OnOk result (words.new ≡ words.old ++ spec.end_bracket_words param.now) }
{
    match param {
        None => Ok(()),
        Some(e) => {
            words.sign(Gap::Joined, b"[")?;
            put_expr(words, Gap::Joined, CONDITIONAL, e, levels)?;
            words.sign(Gap::Joined, b"]")
        }
    }
}

fn put_end(words: &mut Words, gap: Gap, end: &WireEnd, levels: u32) -> Result<(), NoMemory>
    ensures { OnOk result (words.new ≡ words.old ++ spec.end_words end.now) }
{
    words.word(gap, end.first.as_bytes())?;
    put_item(words, &end.second)?;
    put_end_bracket(words, &end.param, levels)
}

fn put_wire(
    words: &mut Words,
    joint: &[u8],
    from: &WireEnd,
    to: &WireEnd,
    levels: u32,
) -> Result<(), NoMemory>
    ensures { OnOk result (words.new ≡ words.old ++ spec.wire_words joint.now from.now to.now) }
{
    put_end(words, Gap::Line, from, levels)?;
    words.sign(Gap::Spaced, joint)?;
    put_end(words, Gap::Spaced, to, levels)?;
    words.sign(Gap::Joined, b";")
}

// ---- lines

fn put_line(words: &mut Words, line: &ConfLine, levels: u32) -> Result<(), NoMemory>
    ensures { OnOk result (words.new ≡ words.old ++ spec.line_words line.now) }
{
    match line {
        ConfLine::Component {
            name,
            new_args,
            alias,
            ..
        } => put_component(words, name, new_args, alias, levels),
        ConfLine::Link { from, to, .. } => put_wire(words, b"->", from, to, levels),
        ConfLine::Equate { a, b, .. } => put_wire(words, b"=", a, b, levels),
        ConfLine::Decl(decl) => put_decl(words, Gap::Line, decl, levels),
    }
}

/// Adds the lines of a configuration.
#[tactic(auto, using(crate::proofs::Lists::lists))]
pub fn put_lines(words: &mut Words, lines: &[ConfLine], levels: u32) -> Result<(), NoMemory>
    ensures { OnOk result (words.new ≡ words.old ++ joined (map spec.line_words lines.now)) }
{
    for line in lines {
        put_line(words, line, levels)?;
    }
    Ok(())
}
