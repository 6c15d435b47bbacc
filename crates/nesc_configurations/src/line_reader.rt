//! Reading the lines of a configuration (nesC 1.3 Reference).

ghost use Rattle.std.specs.Prelude.{◌≡◌, ◌<◌, ◌^◌};
ghost use Rattle.nesc_tree.specs.Changes.{all_taken_back};
ghost use Rattle.nesc_tree.specs.Phrase as phrase;
ghost use Rattle.nesc_grammar.specs.Grammar as grammar;
ghost use Rattle.nesc_grammar.specs.Declarations as inner;
ghost use Rattle.nesc_grammar.specs.Components as spec;
ghost use Rattle.nesc_parse_types.specs.Gives.{Gives, form_in};
ghost use Rattle.nesc_configurations.specs.Parts as parts;
ghost use Rattle.nesc_configurations.specs.Reads.{line_in};

use crate::components::components_line;
use crate::parts::{declaration_of, type_of};
use crate::wires::{wire_rest, word_line};
use nesc_declarators::{begins_local, typedef};
use nesc_parse_decls::no_list;
use nesc_parse_exprs::type_form;
use nesc_parse_types::{Found, Stop, begins_type, expect};
use nesc_specifications::joined;
use nesc_tree::{Change, ConfLine, Decl, Sort, TypeNames, ahead};
use nm_base::{List, Token, beside};
use std::alloc::Global;

/// A type alone.
#[tactic(auto, unfolding(nesc_tree::specs::Reading::read))]
fn type_line<'a>(
    alloc: Global,
    names: &TypeNames,
    spare: usize,
    ts: &'a [Token],
) -> Found<'a, List<ConfLine>>
    requires { spare < 2 ^ 8 }
    ensures { Gives names.now result (form_in spare parts.type_alone names.now ts.now) }
{
    let (found, rest) = type_form(alloc, names, spare, ts)?;
    let (found, (_, rest)) = beside(found, expect(names, Sort::Semi, rest))?;
    Ok((type_of(alloc, found)?, rest))
}

// Whether the type name before a token of this sort is a type.
fn ends_type(sort: Sort) -> bool
    ensures { result ≡ parts.ends_type sort }
{
    matches!(sort, Sort::Semi | Sort::Qualifier)
}

// Whether the name before a token of this sort begins a wire.
fn goes_on_wire(sort: Sort) -> bool
    ensures { result ≡ parts.goes_on_wire sort }
{
    matches!(
        sort,
        Sort::Dot | Sort::LBracket | Sort::Arrow | Sort::BackArrow | Sort::Assign
    )
}

/// A type, or a wire whose first name is a type name.
#[tactic(auto, unfolding(nesc_tree::specs::Reading::read))]
fn type_name_line<'a>(
    alloc: Global,
    names: &TypeNames,
    spare: usize,
    ts: &'a [Token],
) -> Found<'a, List<ConfLine>>
    requires few { spare < 2 ^ 8 }
    requires room { 0 < spare }
    ensures { Gives names.now result (form_in spare parts.type_name_line names.now ts.now) }
{
    let (first, rest) = expect(names, Sort::TypeName, ts)?;
    let second = ahead(names, rest);
    if ends_type(second) {
        return type_line(alloc, names, spare, ts);
    }
    if goes_on_wire(second) {
        return wire_rest(alloc, names, spare, first, rest);
    }
    Err(Stop::Syntax(rest))
}

#[tactic(auto, unfolding(nesc_tree::specs::Reading::read))]
fn typedef_decl<'a>(
    alloc: Global,
    names: &mut TypeNames,
    changes: &mut Vec<Change>,
    spare: usize,
    ts: &'a [Token],
) -> Found<'a, Decl>
    requires { spare < 2 ^ 8 }
    ensures gives { Gives names.new result (form_in spare inner.typedef_decl names.old ts.now) }
    ensures noted { all_taken_back changes.new.items names.new ≡ all_taken_back changes.old.items names.old }
{
    let (_, rest) = expect(names, Sort::Typedef, ts)?;
    typedef(alloc, names, changes, spare, rest)
}

/// The declaration of a type name, in force from behind its declarator on.
#[tactic(auto, unfolding(nesc_tree::specs::Reading::read))]
fn typedef_line<'a>(
    alloc: Global,
    names: &mut TypeNames,
    changes: &mut Vec<Change>,
    spare: usize,
    ts: &'a [Token],
) -> Found<'a, List<ConfLine>>
    requires { spare < 2 ^ 8 }
    ensures gives { Gives names.new result (form_in spare parts.typedef_line names.old ts.now) }
    ensures noted { all_taken_back changes.new.items names.new ≡ all_taken_back changes.old.items names.old }
{
    let (found, rest) = typedef_decl(alloc, names, changes, spare, ts)?;
    Ok((declaration_of(alloc, found)?, rest))
}

// A line by its first token.
fn line_of<'a>(
    alloc: Global,
    names: &mut TypeNames,
    changes: &mut Vec<Change>,
    spare: usize,
    first: Sort,
    ts: &'a [Token],
) -> Found<'a, List<ConfLine>>
    requires few { spare < 2 ^ 8 }
    requires room { 0 < spare }
    ensures gives { Gives names.new result (form_in spare (spec.line_of first) names.old ts.now) }
    ensures noted { all_taken_back changes.new.items names.new ≡ all_taken_back changes.old.items names.old }
{
    match first {
        Sort::Components => components_line(alloc, names, spare, ts),
        Sort::Word => word_line(alloc, names, spare, ts),
        Sort::TypeName => type_name_line(alloc, names, spare, ts),
        Sort::Typedef => typedef_line(alloc, names, changes, spare, ts),
        _ => {
            if begins_type(first) {
                type_line(alloc, names, spare, ts)
            } else {
                Err(Stop::Syntax(ts))
            }
        }
    }
}

/// A line of a configuration, with at most `levels` levels, of which it takes one itself.
fn line<'a>(
    alloc: Global,
    names: &mut TypeNames,
    changes: &mut Vec<Change>,
    levels: usize,
    ts: &'a [Token],
) -> Found<'a, List<ConfLine>>
    requires few { levels < 2 ^ 8 }
    requires room { 1 < levels }
    ensures gives { Gives names.new result (line_in levels names.old ts.now) }
    ensures noted { all_taken_back changes.new.items names.new ≡ all_taken_back changes.old.items names.old }
{
    let first = ahead(names, ts);
    line_of(alloc, names, changes, levels - 1, first, ts)
}

// Whether a line begins with a token of this sort.
fn begins_line(sort: Sort) -> bool
    ensures { result ≡ phrase.begins_line sort }
{
    match sort {
        Sort::Components | Sort::Word => true,
        _ => begins_local(sort),
    }
}

#[tactic(auto, unfolding(nesc_tree::specs::Reading::read))]
fn another_line<'a>(
    alloc: Global,
    names: &mut TypeNames,
    changes: &mut Vec<Change>,
    spare: usize,
    so_far: List<ConfLine>,
    ts: &'a [Token],
) -> Found<'a, List<ConfLine>>
    requires few { spare < 2 ^ 8 }
    requires room { 1 < spare }
    ensures gives { Gives names.new result (form_in spare (grammar.applied so_far parts.another_line) names.old ts.now) }
    ensures noted { all_taken_back changes.new.items names.new ≡ all_taken_back changes.old.items names.old }
{
    let (so_far, (more, rest)) = beside(so_far, line(alloc, names, changes, spare, ts))?;
    Ok((joined(so_far, more)?, rest))
}

#[tactic(auto, unfolding(nesc_tree::specs::Reading::read))]
fn some_lines<'a>(
    alloc: Global,
    names: &mut TypeNames,
    changes: &mut Vec<Change>,
    spare: usize,
    ts: &'a [Token],
) -> Found<'a, List<ConfLine>>
    requires few { spare < 2 ^ 8 }
    requires room { 1 < spare }
    ensures gives { Gives names.new result (form_in spare parts.some_lines names.old ts.now) }
    ensures noted { all_taken_back changes.new.items names.new ≡ all_taken_back changes.old.items names.old }
{
    let mut list = no_list(alloc);
    let mut rest = ts;
    while begins_line(ahead(names, rest)) {
        let (so_far, behind) = another_line(alloc, names, changes, spare, list, rest)?;
        list = so_far;
        rest = behind;
    }
    Ok((list, rest))
}

/// The lines of a configuration, between braces; the names that they declare are in force behind them.
#[tactic(auto, unfolding(nesc_tree::specs::Reading::read))]
pub fn lines<'a>(
    alloc: Global,
    names: &mut TypeNames,
    changes: &mut Vec<Change>,
    spare: usize,
    ts: &'a [Token],
) -> Found<'a, List<ConfLine>>
    requires few { spare < 2 ^ 8 }
    requires room { 1 < spare }
    ensures gives { Gives names.new result (form_in spare spec.lines names.old ts.now) }
    ensures noted { all_taken_back changes.new.items names.new ≡ all_taken_back changes.old.items names.old }
{
    let (_, rest) = expect(names, Sort::LBrace, ts)?;
    let (list, rest) = some_lines(alloc, names, changes, spare, rest)?;
    let (list, (_, rest)) = beside(list, expect(names, Sort::RBrace, rest))?;
    Ok((list, rest))
}
