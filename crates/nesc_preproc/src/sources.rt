//! Opening files.

ghost use Rattle.std.specs.Prelude.{◌≡◌, ◌+◌, ◌<◌, ◌≤◌, [], ℕ, length, slice_index_or, Err, IfErr, IfOk, None, OnOk};
ghost use Rattle.nm_base.specs.declared.limit.TheConstants.{MAX_FILE, MAX_TOKENS};
ghost use Rattle.nesc_tokens.specs.Lexes.{Fails, Lexes};
ghost use Rattle.nesc_preproc.specs.Sources.{World, IsLexing, fetched, fetched_as, file_from, file_too_large, opened, scanned_in, sized, weight};
ghost use Rattle.nesc_preproc.specs.Answers.{Counts};
ghost use Rattle.nesc_preproc.specs.Kept.{Allows, Breaks, Fetches, IsNoReadFault, IsTold, OpenedAs, known_of};

use crate::built_in::{built_in_text, is_built_in};
use crate::file_table::FileTable;
use crate::known::KnownFiles;
use nesc_tokens::{lex, one_lexing};
use nm_base::{Fault, Files, Found, Limit, List, MAX_FILE, Name, Token, Which};
use std::alloc::Global;

// The text of a file that was not read before.
fn fetch<F: Files>(alloc: Global, files: &mut F, name: &Name) -> Result<Vec<u8>, Fault>
    ensures outside { Counts result (F.seen files.old) (F.seen files.new) }
    ensures text { (world : World) (k : ℕ) → IsTold (F.seen files.old).texts world → Fetches result world.broken k (fetched world k name.now) }
{
    if let Some(text) = built_in_text(name) {
        return Ok(text.as_bytes().to_vec(alloc)?);
    }
    match files.read(alloc, name) {
        Found::Bytes(text) => Ok(text),
        Found::Missing => Err(Fault::Missing(name.clone()?)),
        Found::Failed => Err(Fault::ReadFault),
        Found::NoMemory => Err(Fault::NoMemory),
    }
}

// A file may not have more bytes than this.
fn check_size(text: &[u8]) -> Result<(), Fault>
    ensures ok { OnOk result (length text.now ≤ MAX_FILE) }
    ensures err { IfErr result (λ e. (e ≡ file_too_large) × (MAX_FILE < length text.now)) }
{
    if text.len() > MAX_FILE as usize {
        return Err(Fault::Limit(Limit {
            which: Which::File,
            have: MAX_FILE + 1,
        }));
    }
    Ok(())
}

// How much of a file is counted.
fn weight(built_in: bool, size: usize) -> usize
    ensures { result ≡ weight built_in size }
{
    if built_in { 0 } else { size }
}

// The tokens of a file. They are kept where it was opened again, so it is read once more at most.
fn tokens_in(
    alloc: Global,
    files: &mut FileTable,
    file: u32,
    again: bool,
) -> Result<Vec<Token>, Fault>
    requires { length (slice_index_or files.old.texts file []) ≤ MAX_FILE }
    ensures tokens { IfOk result (λ v. Lexes file (slice_index_or files.old.texts file []) v.items) }
    ensures refused { IfErr result (λ e. Fails file (slice_index_or files.old.texts file []) e) }
    ensures files { files.new ≡ files.old }
{
    if !again {
        return lex(alloc, file, files.text(file as usize));
    }
    if let Some(tokens) = files.tokens(file) {
        return Ok(tokens.as_slice().to_vec(alloc)?);
    }
    let tokens = lex(alloc, file, files.text(file as usize))?;
    files.keep(file, List::new(tokens.as_slice().to_vec(alloc)?));
    Ok(tokens)
}

// The tokens of a file that was read, which are put before the scan.
fn scan_file(
    alloc: Global,
    known: &mut KnownFiles,
    number: usize,
    built_in: bool,
    again: bool,
) -> Result<Vec<Token>, Fault>
    requires within { number < length known.old.files.texts }
    requires size { length (slice_index_or known.old.files.texts number []) ≤ MAX_FILE }
    ensures opened { (world : World) → IsLexing world.lexed → OpenedAs result known.new (scanned_in world built_in number (slice_index_or known.old.files.texts number []) (known_of known.old)) }
    ensures numbers { length known.new.files.texts ≡ length known.old.files.texts }
    ensures within { OnOk result (known.new.tokens ≤ MAX_TOKENS) }
    ensures read { IsNoReadFault result }
{
    one_lexing();
    let Ok(file) = u32::try_from(number) else {
        return Err(Fault::NoMemory);
    };
    let tokens = tokens_in(alloc, &mut known.files, file, again)?;
    known.count(weight(built_in, tokens.len()))?;
    Ok(tokens)
}

// The tokens of a file that was not read before.
#[tactic(auto, using(crate::proofs::Opening::no_read_fault, crate::proofs::Opening::no_missing))]
fn open_new<F: Files>(
    alloc: Global,
    files: &mut F,
    known: &mut KnownFiles,
    name: &Name,
    built_in: bool,
) -> Result<Vec<Token>, Fault>
    requires new { file_from 0 known.old.files.names known.old.files.texts name.now ≡ None }
    ensures outside { Counts result (F.seen files.old) (F.seen files.new) }
    ensures opened { (world : World) → IsTold (F.seen files.old).texts world → IsLexing world.lexed → Breaks result world.broken (length known.old.files.texts)
        → OpenedAs result known.new (fetched_as world built_in name.now (fetched world (length known.old.files.texts) name.now) (known_of known.old)) }
    ensures within { OnOk result (known.new.tokens ≤ MAX_TOKENS) }
    ensures numbers { OnOk result (length known.new.files.texts ≡ length known.old.files.texts + 1) }
    ensures unread { result ≡ Err Fault.ReadFault → length known.new.files.texts ≡ length known.old.files.texts }
{
    let text = fetch(alloc, files, name)?;
    check_size(&text)?;
    let bytes = known.bytes_with(weight(built_in, text.len()))?;
    let number = known.files.len();
    known.add(alloc, name, text, bytes)?;
    scan_file(alloc, known, number, built_in, false)
}

// The tokens of a file that was read before.
fn open_again(
    alloc: Global,
    known: &mut KnownFiles,
    number: usize,
    built_in: bool,
) -> Result<Vec<Token>, Fault>
    requires within { number < length known.old.files.texts }
    ensures opened { (world : World) → IsLexing world.lexed → OpenedAs result known.new
        (sized (slice_index_or known.old.files.texts number []) (known_of known.old) (scanned_in world built_in number (slice_index_or known.old.files.texts number []) (known_of known.old))) }
    ensures within { OnOk result (known.new.tokens ≤ MAX_TOKENS) }
    ensures numbers { length known.new.files.texts ≡ length known.old.files.texts }
    ensures read { IsNoReadFault result }
{
    check_size(known.files.text(number))?;
    scan_file(alloc, known, number, built_in, true)
}

/// The tokens of a file, which is read if it was not read before. They are counted, if it is not built in.
#[tactic(auto, using(crate::proofs::Opening::no_read_fault, crate::proofs::Opening::no_missing, crate::proofs::Opening::breaks_before))]
pub(crate) fn open_file<F: Files>(
    alloc: Global,
    files: &mut F,
    known: &mut KnownFiles,
    name: &Name,
) -> Result<Vec<Token>, Fault>
    ensures outside { Counts result (F.seen files.old) (F.seen files.new) }
    ensures opened { (world : World) → IsTold (F.seen files.old).texts world → IsLexing world.lexed → Allows result world.broken (length known.new.files.texts)
        → OpenedAs result known.new (opened world (known_of known.old) name.now) }
    ensures within { OnOk result (known.new.tokens ≤ MAX_TOKENS) }
    ensures numbers { OnOk result (length known.old.files.texts ≤ length known.new.files.texts) }
    ensures unread { result ≡ Err Fault.ReadFault → length known.old.files.texts ≤ length known.new.files.texts }
{
    let built_in = is_built_in(name);
    match known.files.find(name)? {
        Some(number) => open_again(alloc, known, number, built_in),
        None => open_new(alloc, files, known, name, built_in),
    }
}
