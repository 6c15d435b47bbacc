//! Reading the words before the type of a function (nesC 1.3 Reference).

ghost use Rattle.std.specs.Prelude.{◌≡◌, ℕ};
ghost use Rattle.nesc_tree.specs.Sorts.{ahead};
ghost use Rattle.nesc_grammar.specs.Grammar as grammar;
ghost use Rattle.nesc_grammar.specs.Declarations as spec;
ghost use Rattle.nesc_parse_types.specs.Gives.{Gives, form_in};
ghost use Rattle.nesc_heads.specs.Gives.{GivesAs};
ghost use Rattle.nesc_heads.specs.Parts as parts;
ghost use Rattle.nesc_heads.specs.Words.{words_of};

use nesc_operands::operators::is_spelled;
use nesc_parse_types::{Found, expect};
use nesc_tree::{FuncKind, Sort, TypeNames, ahead};
use nm_base::Token;

/// The words before the type of a function.
#[derive(Clone, Copy, PartialEq, Eq, Debug)]
pub struct Words {
    pub kind: FuncKind,
    pub is_async: bool,
    pub is_default: bool,
}

/// No word at all.
pub fn no_words() -> Words
    ensures { words_of result ≡ spec.no_words }
{
    Words {
        kind: FuncKind::Plain,
        is_async: false,
        is_default: false,
    }
}

fn is_modifier(sort: Sort) -> bool
    ensures { result ≡ spec.is_modifier sort }
{
    matches!(
        sort,
        Sort::Async | Sort::Default | Sort::Static | Sort::Inline
    )
}

/// The words with a modifier of this sort.
fn modified(sort: Sort, words: Words) -> Words
    ensures { words_of result ≡ spec.modified sort (words_of words) }
{
    match sort {
        Sort::Async => Words {
            is_async: true,
            ..words
        },
        Sort::Default => Words {
            is_default: true,
            ..words
        },
        _ => words,
    }
}

/// The words with the modifier that is ahead.
#[tactic(auto, unfolding(nesc_tree::specs::Reading::read))]
fn another_modifier<'a>(names: &TypeNames, so_far: Words, ts: &'a [Token]) -> Found<'a, Words>
    ensures { (spare : ℕ) → GivesAs words_of names.now result (form_in spare (grammar.applied (words_of so_far) (parts.another_modifier (ahead names.now ts.now))) names.now ts.now) }
{
    let sort = ahead(names, ts);
    let (_, rest) = expect(names, sort, ts)?;
    Ok((modified(sort, so_far), rest))
}

/// The modifiers of a function.
#[tactic(auto, unfolding(nesc_tree::specs::Reading::read))]
fn modifiers<'a>(names: &TypeNames, ts: &'a [Token]) -> Found<'a, Words>
    ensures { (spare : ℕ) → GivesAs words_of names.now result (form_in spare spec.modifiers names.now ts.now) }
{
    let mut words = no_words();
    let mut rest = ts;
    while is_modifier(ahead(names, rest)) {
        let (so_far, behind) = another_modifier(names, words, rest)?;
        words = so_far;
        rest = behind;
    }
    Ok((words, rest))
}

/// Whether the word is that of a command or of an event.
#[tactic(auto, unfolding(nesc_grammar::specs::Declarations::is_event))]
fn item_kind(word: &Token) -> FuncKind
    ensures { result ≡ spec.item_kind word.now }
{
    if is_spelled(word, b"event") {
        FuncKind::Event
    } else {
        FuncKind::Command
    }
}

/// What kind of function it is.
#[tactic(auto, unfolding(nesc_tree::specs::Reading::read))]
fn some_kind<'a>(names: &TypeNames, ts: &'a [Token]) -> Found<'a, FuncKind>
    ensures { (spare : ℕ) → Gives names.now result (form_in spare parts.some_kind names.now ts.now) }
{
    match ahead(names, ts) {
        Sort::Task => {
            let (_, rest) = expect(names, Sort::Task, ts)?;
            Ok((FuncKind::Task, rest))
        }
        Sort::Item => {
            let (word, rest) = expect(names, Sort::Item, ts)?;
            Ok((item_kind(word), rest))
        }
        _ => Ok((FuncKind::Plain, ts)),
    }
}

/// The words before the type of a function.
#[tactic(auto, unfolding(nesc_tree::specs::Reading::read))]
pub fn function_words<'a>(names: &TypeNames, ts: &'a [Token]) -> Found<'a, Words>
    ensures { (spare : ℕ) → GivesAs words_of names.now result (form_in spare spec.function_words names.now ts.now) }
{
    let (words, rest) = modifiers(names, ts)?;
    let (kind, rest) = some_kind(names, rest)?;
    Ok((Words { kind, ..words }, rest))
}
