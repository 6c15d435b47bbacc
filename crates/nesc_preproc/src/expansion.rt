//! The tokens of a file after its directives and macros.

ghost use Rattle.std.specs.Prelude.{◌≡◌, Some};
ghost use Rattle.nesc_preproc.specs.Expands.{Told, Expands, KeepsAs, answer_of, is_memory};
ghost use Rattle.nesc_preproc.specs.Kept.{known_of};
ghost use Rattle.nesc_preproc.specs.Answers.{Counts};

use crate::context::Context;
use crate::known::KnownFiles;
use crate::reading::Reading;
use crate::scan::Scan;
use crate::sources::open_file;
use nesc_tokens::one_lexing;
use nm_base::{Fault, Files, Name, Token};
use std::alloc::Global;
use std::mem;

// The same, from what is known, with what is known behind it.
fn expand_known<F: Files>(
    alloc: Global,
    files: &mut F,
    mut known: KnownFiles,
    name: &Name,
) -> (KnownFiles, Result<Vec<Token>, Fault>)
    ensures outside { Counts result.1 (F.seen files.old) (F.seen files.new) }
    ensures expanded { (told : Told) → (F.seen files.old).texts ≡ Some told → KeepsAs told (known_of known) name.now (answer_of result.1) (known_of result.0) }
{
    one_lexing();
    let tokens = match open_file(alloc, files, &mut known, name) {
        Ok(tokens) => tokens,
        Err(fault) => return (known, Err(fault)),
    };
    let mut scan = Scan::new(alloc, known, tokens);
    let result = scan.run(alloc, files);
    let Scan { context, out, .. } = scan;
    let Context { known, .. } = context;
    match result {
        Ok(()) => (known, Ok(out)),
        Err(fault) => (known, Err(fault)),
    }
}

fn is_memory(answer: &Result<Vec<Token>, Fault>) -> bool
    ensures { result ≡ is_memory (answer_of answer.now) }
{
    matches!(answer, Err(Fault::NoMemory))
}

/// Reads a file with the headers that it includes, obeys their directives and expands macros, by Prosser's algorithm with hide
/// sets. The ordinary tokens of a header come at its first inclusion in the application alone; its directives are obeyed at
/// each. Refuses with `Missing`, `ReadFault`, the limits of a file, of all files and of tokens, and E01 to E06, each at its
/// first place; after another refusal than `NoMemory` what was scanned stays known.
pub fn expand<F: Files>(
    alloc: Global,
    files: &mut F,
    state: &mut Reading,
    name: &Name,
) -> Result<Vec<Token>, Fault>
    ensures outside { Counts result (F.seen files.old) (F.seen files.new) }
    ensures expanded { (told : Told) → (F.seen files.old).texts ≡ Some told → Expands told state.old name.now (answer_of result) state.new }
{
    if state.spent {
        return Err(Fault::NoMemory);
    }
    let known = mem::replace(&mut state.files, KnownFiles::new(alloc));
    let (known, result) = expand_known(alloc, files, known, name);
    state.files = known;
    state.spent = is_memory(&result);
    result
}
