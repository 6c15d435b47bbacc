//! Initialisers as words. Lists go down so many levels: where more are in one, the answer is `NoMemory`.

ghost use Rattle.std.specs.Prelude.{◌≡◌, ◌++◌, map, OnOk};
ghost use Rattle.nesc_print_words.specs.Declarations.{init_words, inits_words};
ghost use Rattle.nesc_print_words.specs.Lexemes.{behind_commas, in_braces};

use nesc_print_exprs::{Words, put_expr};
use nesc_tree::Init;
use nesc_tree::level::ASSIGNMENT;
use nm_base::{List, NoMemory};
use printed_words::Gap;

/// Adds the initialiser.
#[cycle(initialisers)]
pub fn put_init(words: &mut Words, init: &Init, levels: u32) -> Result<(), NoMemory>
    ensures { OnOk result (words.new ≡ words.old ++ init_words init.now) }
{
    match init {
        Init::One(e) => put_expr(words, Gap::Spaced, ASSIGNMENT, e, levels),
        Init::Many(inits) => put_braced(words, inits, levels),
    }
}

#[cycle(initialisers)]
fn put_braced(words: &mut Words, inits: &List<Init>, levels: u32) -> Result<(), NoMemory>
    ensures { OnOk result (words.new ≡ words.old ++ in_braces (inits_words inits.now)) }
{
    if levels == 0 {
        return Err(NoMemory);
    }
    words.sign(Gap::Spaced, b"{")?;
    put_inits(words, inits.as_slice(), levels - 1)?;
    words.sign(Gap::Spaced, b"}")
}

#[cycle(initialisers)]
fn put_inits(words: &mut Words, inits: &[Init], levels: u32) -> Result<(), NoMemory>
    ensures { OnOk result (words.new ≡ words.old ++ inits_words inits.now) }
{
    match inits {
        [] => Ok(()),
        [first, rest @ ..] => {
            put_init(words, first, levels)?;
            put_more_inits(words, rest, levels)
        }
    }
}

#[cycle(initialisers)]
#[tactic(auto, using(crate::proofs::Lists::lists))]
fn put_more_inits(words: &mut Words, inits: &[Init], levels: u32) -> Result<(), NoMemory>
    ensures { OnOk result (words.new ≡ words.old ++ behind_commas (map init_words inits.now)) }
{
    for init in inits {
        words.sign(Gap::Joined, b",")?;
        put_init(words, init, levels)?;
    }
    Ok(())
}
