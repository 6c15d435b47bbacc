//! The tokens of a file.

ghost use Rattle.std.specs.Prelude.{◌≡◌, IfOk, Some, Ok, Err};
ghost use Rattle.nm_base.specs.declared.fault.Fault.{Fault as FaultOf};
ghost use Rattle.nesc_preproc.specs.Expands.{Told};
ghost use Rattle.wire_reading.specs.Order.{IsRefusal};
ghost use Rattle.wire_reading.specs.Told.{Counts};
ghost use Rattle.wire_loading.specs.Places.{file_told};
ghost use Rattle.wire_loading.specs.Needs.{file_of};
ghost use Rattle.wire_loading.specs.Opened.{Spells};

use crate::place::file_told;
use nesc_left_out::mark;
use nesc_preproc::{Reading, expand};
use nm_base::{Fault, Files, Name, NoMemory, Token};
use std::alloc::Global;

/// The tokens of a file, and where they are refused if they end too early.
#[derive(Drop)]
pub struct Text {
    pub tokens: Vec<Token>,
    pub file: u32,
}

/// The name of the file of a component or interface.
pub fn file_of(alloc: Global, name: &Name) -> Result<Name, NoMemory>
    ensures { IfOk result (λ file. file ≡ file_of name.now) }
{
    let mut text = name.as_bytes().to_vec(alloc)?;
    text.extend_from_slice(b".nc".as_slice())?;
    Name::new(alloc, text.as_slice())
}

/// Expands a file, and marks what is left out behind a sign alone.
pub fn text_of<F: Files>(
    alloc: Global,
    files: &mut F,
    reading: &mut Reading,
    file: &Name,
) -> Result<Text, Fault>
    ensures outside { Counts result (F.seen files.old) (F.seen files.new) }
    ensures expanded { (told : Told) → (F.seen files.old).texts ≡ Some told → IfOk result (λ text. Spells told reading.old file.now (Ok text.tokens.items) reading.new) }
    ensures refused { (told : Told) → (F.seen files.old).texts ≡ Some told → (fault : FaultOf) → result ≡ Err fault → IsRefusal fault → Spells told reading.old file.now (Err fault) reading.new }
    ensures file { IfOk result (λ text. text.file ≡ file_told text.tokens.items reading.new file.now) }
{
    let mut tokens = expand(alloc, files, reading, file)?;
    mark(&mut tokens);
    let file = file_told(reading, tokens.as_slice(), file)?;
    Ok(Text { tokens, file })
}
