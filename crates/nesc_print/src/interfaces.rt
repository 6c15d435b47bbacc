//! Interfaces as words, each command and event on a line.

ghost use Rattle.std.specs.Prelude.{◌≡◌, ◌++◌, ◌∷◌, [], codes, map, OnOk};
ghost use Rattle.nesc_print_words.specs.Components as spec;
ghost use Rattle.nesc_print_words.specs.Lexemes.{behind_commas, in_braces, joined, listed, word};

use nesc_print_exprs::{Words, put_before_name};
use nesc_print_stmts::{put_attrs, put_params};
use nesc_tree::{Interface, Sig};
use nm_base::{List, Name, NoMemory};
use printed_words::Gap;

#[tactic(auto, using(crate::proofs::Lists::lists))]
fn put_more_type_parameters(words: &mut Words, names: &[Name]) -> Result<(), NoMemory>
    ensures { OnOk result (words.new ≡ words.old ++ behind_commas (map spec.type_parameter_words names.now)) }
{
    for name in names {
        words.sign(Gap::Joined, b",")?;
        words.word(Gap::Spaced, name.as_bytes())?;
    }
    Ok(())
}

// The parameters of an interface in their brackets, if there are some.
fn put_type_parameters(words: &mut Words, names: &List<Name>) -> Result<(), NoMemory>
    ensures { OnOk result (words.new ≡ words.old ++ spec.type_parameters_words names.now) }
{
    match names.as_slice() {
        [] => Ok(()),
        [first, rest @ ..] => {
            words.sign(Gap::Joined, b"<")?;
            words.word(Gap::Joined, first.as_bytes())?;
            put_more_type_parameters(words, rest)?;
            words.sign(Gap::Joined, b">")
        }
    }
}

fn sig_word(is_event: bool) -> &'static [u8]
    ensures { result.now ≡ spec.sig_word is_event }
{
    if is_event { b"event" } else { b"command" }
}

fn put_sig_start(words: &mut Words, sig: &Sig, levels: u32) -> Result<(), NoMemory>
    ensures { OnOk result (words.new ≡ words.old ++ spec.sig_start_words sig.now) }
{
    let gap = words.flag(Gap::Line, sig.is_async, b"async")?;
    words.word(gap, sig_word(sig.is_event))?;
    let gap = put_before_name(words, Gap::Spaced, &sig.result, levels)?;
    words.word(gap, sig.name.as_bytes())
}

fn put_sig(words: &mut Words, sig: &Sig, levels: u32) -> Result<(), NoMemory>
    ensures { OnOk result (words.new ≡ words.old ++ spec.sig_words sig.now) }
{
    put_sig_start(words, sig, levels)?;
    put_params(words, &sig.params, levels)?;
    words.sign(Gap::Joined, b";")
}

#[tactic(auto, using(crate::proofs::Lists::lists))]
fn put_sigs(words: &mut Words, sigs: &[Sig], levels: u32) -> Result<(), NoMemory>
    ensures { OnOk result (words.new ≡ words.old ++ joined (map spec.sig_words sigs.now)) }
{
    for sig in sigs {
        put_sig(words, sig, levels)?;
    }
    Ok(())
}

fn put_items(words: &mut Words, sigs: &List<Sig>, levels: u32) -> Result<(), NoMemory>
    ensures { OnOk result (words.new ≡ words.old ++ in_braces (joined (map spec.sig_words sigs.now))) }
{
    words.sign(Gap::Spaced, b"{")?;
    put_sigs(words, sigs.as_slice(), levels)?;
    words.sign(gap_of_end(sigs.as_slice().is_empty()), b"}")
}

/// What stands before the brace that ends a list: where nothing is in it, the brace is on the line of the first one.
pub fn gap_of_end(is_empty: bool) -> Gap {
    if is_empty { Gap::Spaced } else { Gap::Line }
}

/// Adds `interface` and the name.
pub fn put_interface_name(words: &mut Words, gap: Gap, name: &Name) -> Result<(), NoMemory>
    ensures { OnOk result (words.new ≡ words.old ++ word (codes "interface") ∷ word name.now ∷ []) }
{
    words.word(gap, b"interface")?;
    words.word(Gap::Spaced, name.as_bytes())
}

// Up to the type parameters.
fn put_interface_start(words: &mut Words, interface: &Interface) -> Result<(), NoMemory>
    ensures { OnOk result (words.new ≡ words.old ++ word (codes "interface") ∷ word interface.now.name ∷ spec.type_parameters_words interface.now.params) }
{
    put_interface_name(words, Gap::Line, &interface.name)?;
    put_type_parameters(words, &interface.params)
}

/// Adds the interface.
pub fn put_interface(words: &mut Words, interface: &Interface, levels: u32) -> Result<(), NoMemory>
    ensures { OnOk result (words.new ≡ words.old ++ spec.interface_words interface.now) }
{
    put_interface_start(words, interface)?;
    put_attrs(words, &interface.attrs, levels)?;
    put_items(words, &interface.items, levels)
}
