//! What a file holds, printed.

ghost use Rattle.std.specs.Prelude.{◌≡◌, ◌++◌, ◌∷◌, codes, map, IfOk, OnOk, List as ListOf};
ghost use Rattle.nesc_print_words.specs.Components as spec;
ghost use Rattle.nesc_print_words.specs.Lexemes.{in_braces, joined, word};
ghost use Rattle.nesc_print_words.specs.Statements.{decls_words};
ghost use Rattle.printed_words.specs.LaidOut.{Laid, Lexeme};

use crate::configurations::put_lines;
use crate::heads::put_component_head;
use crate::interfaces::{gap_of_end, put_interface};
use nesc_print_exprs::Words;
use nesc_print_stmts::put_decls;
use nesc_tree::{ConfLine, Config, Decl, Module, Part, Unit};
use nm_base::{List, NoMemory};
use printed_words::{Gap, lay_out};
use std::alloc::Global;

/// How many levels of statements may be printed, and how many of expressions, initialisers and struct definitions in one of them.
pub const MAX_LEVELS: u32 = 1_000;

// Declarations in braces.
fn put_decl_block(words: &mut Words, decls: &List<Decl>) -> Result<(), NoMemory>
    ensures { OnOk result (words.new ≡ words.old ++ in_braces (decls_words decls.now)) }
{
    words.sign(Gap::Spaced, b"{")?;
    put_decls(words, decls, MAX_LEVELS)?;
    words.sign(gap_of_end(decls.as_slice().is_empty()), b"}")
}

fn put_module_body(words: &mut Words, decls: &List<Decl>) -> Result<(), NoMemory>
    ensures { OnOk result (words.new ≡ words.old ++ word (codes "implementation") ∷ in_braces (decls_words decls.now)) }
{
    words.word(Gap::Line, b"implementation")?;
    put_decl_block(words, decls)
}

fn put_module(words: &mut Words, component: &Module) -> Result<(), NoMemory>
    ensures { OnOk result (words.new ≡ words.old ++ (spec.component_head_words (codes "module") component.now.head ++ word (codes "implementation") ∷ in_braces (decls_words component.now.decls))) }
{
    put_component_head(words, b"module", &component.head, MAX_LEVELS)?;
    put_module_body(words, &component.decls)
}

// The lines of a configuration in braces.
fn put_line_block(words: &mut Words, lines: &List<ConfLine>) -> Result<(), NoMemory>
    ensures { OnOk result (words.new ≡ words.old ++ in_braces (joined (map spec.line_words lines.now))) }
{
    words.sign(Gap::Spaced, b"{")?;
    put_lines(words, lines.as_slice(), MAX_LEVELS)?;
    words.sign(gap_of_end(lines.as_slice().is_empty()), b"}")
}

fn put_configuration_body(words: &mut Words, lines: &List<ConfLine>) -> Result<(), NoMemory>
    ensures { OnOk result (words.new ≡ words.old ++ word (codes "implementation") ∷ in_braces (joined (map spec.line_words lines.now))) }
{
    words.word(Gap::Line, b"implementation")?;
    put_line_block(words, lines)
}

fn put_configuration(words: &mut Words, component: &Config) -> Result<(), NoMemory>
    ensures { OnOk result (words.new ≡ words.old ++ (spec.component_head_words (codes "configuration") component.now.head ++ word (codes "implementation") ∷ in_braces (joined (map spec.line_words component.now.lines)))) }
{
    put_component_head(words, b"configuration", &component.head, MAX_LEVELS)?;
    put_configuration_body(words, &component.lines)
}

fn put_part(words: &mut Words, part: &Part) -> Result<(), NoMemory>
    ensures { OnOk result (words.new ≡ words.old ++ spec.part_words part.now) }
{
    match part {
        Part::Interface(interface) => put_interface(words, interface, MAX_LEVELS),
        Part::Module(component) => put_module(words, component),
        Part::Config(component) => put_configuration(words, component),
        Part::Header => Ok(()),
    }
}

fn words_of(alloc: Global, unit: &Unit) -> Result<Words, NoMemory>
    ensures { IfOk result (λ words. words ≡ spec.unit_words unit.now) }
{
    let mut words = Words::new(alloc);
    put_decls(&mut words, &unit.decls, MAX_LEVELS)?;
    put_part(&mut words, &unit.part)?;
    Ok(words)
}

// The words stay, and the last line ends.
fn end_line(text: &mut Vec<u8>) -> Result<(), NoMemory>
    ensures { OnOk result ((words : ListOf Lexeme) → Laid text.old.items words → Laid text.new.items words) }
{
    text.push(b'\n')?;
    Ok(())
}

/// A text of the words of the tree, which ends its last line: one declaration, element, component or wire a line, blocks
/// indented by two spaces. What is deeper than `MAX_LEVELS` is answered by `NoMemory`.
pub fn print(alloc: Global, unit: &Unit) -> Result<Vec<u8>, NoMemory>
    ensures { IfOk result (λ text. Laid text.items (spec.unit_words unit.now)) }
{
    let words = words_of(alloc, unit)?;
    let mut text = lay_out(alloc, words.as_slice())?;
    end_line(&mut text)?;
    Ok(text)
}
