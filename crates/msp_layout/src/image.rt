//! The image of code: all functions one behind the other, and the vectors.

ghost use Rattle.std.specs.Prelude.{◌≡◌, ℕ, ◌+◌, ◌*◌, ◌^◌, ◌<◌, ◌≤◌, ◌++◌, IfOk, List, length, slice_index, map, replicate, sum, sum_by, min};
ghost use Rattle.nm_base.specs.declared.memory_map.TheConstants.{CODE_BYTES, CODE_START};
ghost use Rattle.msp_layout.specs.Laid.{AreGoodFns, told};
ghost use Rattle.msp_layout.specs.Bytes.{entry_of};
ghost use Rattle.msp_layout.specs.Words.{AreFormed, ArePlacesAll, FnsStand, all_sizes};

use crate::form::{Formed, form};
use crate::words::push_fn;
use msp_isa::CodeFn;
use nm_base::{CODE_START, NoMemory};
use std::alloc::Global;

/// Forms all functions.
pub(crate) fn form_all(alloc: Global, code: &[CodeFn]) -> Result<Vec<Formed>, NoMemory>
    requires { AreGoodFns code.now }
    ensures { IfOk result (λ forms. AreFormed code.now forms.items (length code.now)) }
{
    let mut forms = Vec::with_capacity(alloc, code.len())?;
    for function in code {
        forms.push(form(alloc, function.items.as_slice())?)?;
    }
    Ok(forms)
}

/// The bytes of all functions; the greatest number of 32 bits where they are more.
pub(crate) fn code_bytes(forms: &[Formed]) -> u32
    requires { ArePlacesAll forms.now }
    ensures { result ≡ told (sum_by sum (all_sizes forms.now)) }
{
    let mut bytes: u32 = 0;
    for form in forms {
        bytes = bytes.saturating_add(form.bytes());
    }
    bytes
}

/// The address of each function.
pub(crate) fn entries_of(alloc: Global, forms: &[Formed]) -> Result<Vec<u16>, NoMemory>
    requires places { ArePlacesAll forms.now }
    requires room { sum_by sum (all_sizes forms.now) ≤ CODE_BYTES }
    ensures len { IfOk result (λ entries. length entries.items ≡ length forms.now) }
    ensures each { IfOk result (λ entries. (f : ℕ) → f < length forms.now → slice_index entries.items f ≡ CODE_START + entry_of (all_sizes forms.now) f) }
{
    let mut entries = Vec::with_capacity(alloc, forms.len())?;
    let mut at = CODE_START;
    for form in forms {
        entries.push(at)?;
        at += form.bytes() as u16;
    }
    Ok(entries)
}

/// The words of all functions.
pub(crate) fn words_of_all(
    alloc: Global,
    code: &[CodeFn],
    forms: &[Formed],
    entries: &[u16],
) -> Result<Vec<u16>, NoMemory>
    requires good { AreGoodFns code.now }
    requires formed { AreFormed code.now forms.now (length code.now) }
    requires entries { length entries.now ≡ length code.now }
    requires room { sum_by sum (all_sizes forms.now) ≤ CODE_BYTES }
    ensures len { IfOk result (λ words. 2 * length words.items ≡ sum_by sum (all_sizes forms.now)) }
    ensures wide { IfOk result (λ words. (i : ℕ) → slice_index words.items i < 2 ^ 16) }
    ensures stands { IfOk result (λ words. FnsStand (slice_index entries.now) code.now forms.now words.items (length code.now)) }
{
    let mut words = Vec::new(alloc);
    for (f, function) in code.iter().enumerate() {
        push_fn(&mut words, function.items.as_slice(), &forms[f], entries)?;
    }
    Ok(words)
}

/// The vectors: 0 to 7 lead to the code of the lines, all others to the reset code.
pub(crate) fn vectors_of(entries: &[u16], lines: &[u32; 8], reset: u32) -> [u16; 16]
    requires lines { (k : ℕ) → k < 8 → slice_index lines.now k < length entries.now }
    requires reset { reset < length entries.now }
    ensures wide { (i : ℕ) → slice_index result i < 2 ^ 16 }
    ensures lead { result ≡ map (slice_index entries.now) lines.now ++ replicate 8 (slice_index entries.now reset) }
{
    let mut vectors = [entries[reset as usize]; 16];
    for (k, line) in lines.iter().enumerate() {
        vectors[k] = entries[*line as usize];
    }
    vectors
}
